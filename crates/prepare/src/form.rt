//! What items are, behind their attributes and visibilities, and what follows them.

ghost use Rattle.std.specs.Prelude.{◌≡◌, map, option_map};
ghost use Rattle.tokens.specs.Trees.{tree_view};
ghost use Rattle.words.specs.Words.{ident_of};
ghost use Rattle.prepare.specs.Forms.{form_view, found_view, first_word, kind_at, ending, is_later_keyword, ident, named_at, declared_at, declaration_at, held_at, module_at, alias_of, alias_at, form_at};

use crate::ends::{after_block, after_call, after_line, after_semicolon, semicolon_at};
use crate::kind::{Kind, kind_of};
use crate::trees::{inside, is_curly, is_sign, word};
use tokens::{Token, TokenTree};
use words::{Word, word_of};

/// What an item is.
#[derive(Clone, Copy)]
pub enum Form<'t> {
    /// A declaration, by its name and what follows that.
    Declares(&'t Token, &'t [TokenTree]),
    /// An impl.
    Implements,
    /// A module, by what stands in its brackets.
    Holds(&'t [TokenTree]),
    /// A type alias, by its name and what follows the `=` behind that.
    Names(&'t Token, &'t [TokenTree]),
    /// A `use`.
    Imports,
    /// Any other.
    Passes,
}

/// The word that the trees begin with.
fn first_word(trees: &[TokenTree]) -> Option<&str>
    ensures { option_map (λ text. text.now) result ≡ first_word (map tree_view trees.now) }
{
    match trees {
        [first, ..] => word(first),
        [] => None,
    }
}

/// The kind of the item.
fn kind_at(trees: &[TokenTree]) -> Kind
    ensures { result ≡ kind_at (map tree_view trees.now) }
{
    match trees {
        [first, rest @ ..] => match word(first) {
            Some(text) => kind_of(text, first_word(rest)),
            None => Kind::Call,
        },
        [] => Kind::Call,
    }
}

/// An item of the form, where it ends before the rest.
fn ending<'t>(form: Form<'t>, rest: Option<&'t [TokenTree]>) -> Option<(Form<'t>, &'t [TokenTree])>
    ensures { option_map found_view result
        ≡ ending (form_view form.entry) (option_map (λ rest. map tree_view rest.now) rest.entry) }
{
    match rest {
        Some(rest) => Some((form, rest)),
        None => None,
    }
}

/// The declaration of the name, with what follows the name.
fn named_at<'t>(name: &'t Token, trees: &'t [TokenTree]) -> Option<(Form<'t>, &'t [TokenTree])>
    ensures { option_map found_view result ≡ named_at (ident_of name.now) (map tree_view trees.now) }
{
    ending(Form::Declares(name, trees), after_block(trees))
}

/// Whether the text is a keyword of editions after that of 2015, in which it is a name.
fn is_later_keyword(text: &str) -> bool
    ensures { result ≡ is_later_keyword text.now }
{
    matches!(text, "async" | "await" | "dyn" | "try")
}

/// The name that the tree is in one of the editions.
pub(crate) fn ident(tree: &TokenTree) -> Option<&Token>
    ensures { option_map (λ token. ident_of token.now) result ≡ ident (tree_view tree.now) }
{
    match tree {
        TokenTree::Token(token) => match word_of(tree) {
            Word::Name(_) => Some(token),
            Word::Keyword(_, _) if is_later_keyword(token.text.as_str()) => Some(token),
            _ => None,
        },
        TokenTree::Group(_) => None,
    }
}

/// The declaration, from its name on.
fn declared_at(trees: &[TokenTree]) -> Option<(Form<'_>, &[TokenTree])>
    ensures { option_map found_view result ≡ declared_at (map tree_view trees.now) }
{
    match trees {
        [first, rest @ ..] => match ident(first) {
            Some(name) => named_at(name, rest),
            None => None,
        },
        [] => None,
    }
}

/// The declaration whose keyword the trees begin with.
fn declaration_at(trees: &[TokenTree]) -> Option<(Form<'_>, &[TokenTree])>
    ensures { option_map found_view result ≡ declaration_at (map tree_view trees.now) }
{
    match trees {
        [_, rest @ ..] => declared_at(rest),
        [] => None,
    }
}

/// The module, with what follows its name.
fn held_at(trees: &[TokenTree]) -> Option<(Form<'_>, &[TokenTree])>
    ensures { option_map found_view result ≡ held_at (map tree_view trees.now) }
{
    match trees {
        [first, rest @ ..] if is_curly(first) => Some((Form::Holds(inside(first)), rest)),
        _ => ending(Form::Passes, semicolon_at(trees)),
    }
}

/// The module whose keyword the trees begin with.
fn module_at(trees: &[TokenTree]) -> Option<(Form<'_>, &[TokenTree])>
    ensures { option_map found_view result ≡ module_at (map tree_view trees.now) }
{
    match trees {
        [_, name, rest @ ..] if word(name).is_some() => held_at(rest),
        _ => None,
    }
}

/// The type alias whose keyword the trees begin with; one that has no `=` right behind its name passes.
fn alias_of(trees: &[TokenTree]) -> Form<'_>
    ensures { form_view result ≡ alias_of (map tree_view trees.now) }
{
    match trees {
        [_, name, equals, rest @ ..] if is_sign(equals, "=") => match ident(name) {
            Some(name) => Form::Names(name, rest),
            None => Form::Passes,
        },
        _ => Form::Passes,
    }
}

/// The type alias, with what follows its end.
fn alias_at(trees: &[TokenTree]) -> Option<(Form<'_>, &[TokenTree])>
    ensures { option_map found_view result ≡ alias_at (map tree_view trees.now) }
{
    ending(alias_of(trees), after_line(trees))
}

/// What the item is that the trees begin with, behind its attributes and visibility, and what follows it.
#[tactic(auto, unfolding(crate::specs::Forms::form_at))]
pub(crate) fn form_at(trees: &[TokenTree]) -> Option<(Form<'_>, &[TokenTree])>
    ensures { option_map found_view result ≡ form_at (map tree_view trees.now) }
{
    match kind_at(trees) {
        Kind::Declaration => declaration_at(trees),
        Kind::Impl => ending(Form::Implements, after_block(trees)),
        Kind::Use => ending(Form::Imports, after_semicolon(trees)),
        Kind::Module => module_at(trees),
        Kind::Alias => alias_at(trees),
        Kind::Line => ending(Form::Passes, after_line(trees)),
        Kind::Block => ending(Form::Passes, after_block(trees)),
        Kind::Call => ending(Form::Passes, after_call(trees)),
    }
}
