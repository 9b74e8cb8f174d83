//! Where items end.

ghost use Rattle.std.specs.Prelude.{◌≡◌, ◌^◌, ◌<◌, ◌-◌, map, option_map};
ghost use Rattle.tokens.specs.Trees.{tree_view};
ghost use Rattle.prepare.specs.declared.previous.Behind.TheVariants.{Other};
ghost use Rattle.prepare.specs.Ends.{is_declaration_word, after_semicolon, is_behind_name, begins_with_name, after_mut, after_line, is_end, angles, after_block, after_path, after_name, semicolon_at, after_group, behind_path, after_call};

use crate::previous::Behind;
use crate::trees::{is_curly, is_group, is_path_part, is_sign, is_word, word};
use tokens::TokenTree;

/// Whether the tree is the keyword of a declaration or of a module.
fn is_declaration_word(tree: &TokenTree) -> bool
    ensures { result ≡ is_declaration_word (tree_view tree.now) }
{
    is_word(tree, "struct") || is_word(tree, "enum") || is_word(tree, "mod")
}

/// What follows the first `;`, where no declaration stands before it.
pub(crate) fn after_semicolon(trees: &[TokenTree]) -> Option<&[TokenTree]>
    ensures { option_map (λ rest. map tree_view rest.now) result
        ≡ after_semicolon (map tree_view trees.now) }
{
    let mut rest = trees;
    'trees: while let [first, after @ ..] = rest {
        if is_declaration_word(first) {
            return None;
        }
        if is_sign(first, ";") {
            return Some(after);
        }
        rest = after;
    }
    None
}

/// Whether the tree may follow the name of an item that goes to a semicolon.
fn is_behind_name(tree: &TokenTree) -> bool
    ensures { result ≡ is_behind_name (tree_view tree.now) }
{
    is_sign(tree, ":")
        || is_sign(tree, "=")
        || is_sign(tree, "<")
        || is_sign(tree, ";")
        || is_word(tree, "where")
}

fn begins_with_name(trees: &[TokenTree]) -> bool
    ensures { result ≡ begins_with_name (map tree_view trees.now) }
{
    match trees {
        [name, next, ..] => word(name).is_some() && is_behind_name(next),
        _ => false,
    }
}

/// What follows the `mut` that the trees begin with, if they do.
fn after_mut(trees: &[TokenTree]) -> &[TokenTree]
    ensures { map tree_view result.now ≡ after_mut (map tree_view trees.now) }
{
    match trees {
        [first, rest @ ..] if is_word(first, "mut") => rest,
        _ => trees,
    }
}

/// What follows the item that goes to a semicolon, from its keyword on.
pub(crate) fn after_line(trees: &[TokenTree]) -> Option<&[TokenTree]>
    ensures { option_map (λ rest. map tree_view rest.now) result
        ≡ after_line (map tree_view trees.now) }
{
    match trees {
        [_, rest @ ..] if begins_with_name(after_mut(rest)) => after_semicolon(rest),
        _ => None,
    }
}

/// Whether an item that goes to a block ends with the tree, which stands behind that, inside of so many `<`.
fn is_end(tree: &TokenTree, was: Behind, opened: usize) -> bool
    ensures { result ≡ is_end was opened (tree_view tree.now) }
{
    is_sign(tree, ";") || (opened == 0 && is_curly(tree) && !was.is_call())
}

/// How many `<` are open after the tree, which stands behind that.
pub(crate) fn angles(tree: &TokenTree, was: Behind, opened: usize) -> usize
    requires { opened < 2 ^ 64 - 1 }
    ensures { result ≡ angles was opened (tree_view tree.now) }
{
    if is_sign(tree, "<") {
        opened + 1
    } else if is_sign(tree, ">") && !was.is_minus() {
        opened.saturating_sub(1)
    } else {
        opened
    }
}

/// What follows the first `;`, or the first group in curly brackets outside of `<` and `>`, where no declaration stands
/// before it.
#[tactic(auto, unfolding(crate::specs::Ends::after_block))]
pub(crate) fn after_block(trees: &[TokenTree]) -> Option<&[TokenTree]>
    ensures { option_map (λ rest. map tree_view rest.now) result
        ≡ after_block Other 0 (map tree_view trees.now) }
{
    let mut opened: usize = 0;
    let mut was = Behind::Other;
    let mut rest = trees;
    'trees: while let [first, after @ ..] = rest {
        if is_declaration_word(first) {
            return None;
        }
        if is_end(first, was, opened) {
            return Some(after);
        }
        opened = angles(first, was, opened);
        was = was.past(first);
        rest = after;
    }
    None
}

/// What follows the words and `::` that the trees begin with.
fn after_path(trees: &[TokenTree]) -> &[TokenTree]
    ensures { map tree_view result.now ≡ after_path (map tree_view trees.now) }
{
    let mut rest = trees;
    'trees: while let [first, after @ ..] = rest {
        if !is_path_part(first) {
            return rest;
        }
        rest = after;
    }
    rest
}

/// What follows the word that the trees begin with, if they do.
fn after_name(trees: &[TokenTree]) -> &[TokenTree]
    ensures { map tree_view result.now ≡ after_name (map tree_view trees.now) }
{
    match trees {
        [first, rest @ ..] if word(first).is_some() => rest,
        _ => trees,
    }
}

/// What follows the `;` that the trees begin with.
pub(crate) fn semicolon_at(trees: &[TokenTree]) -> Option<&[TokenTree]>
    ensures { option_map (λ rest. map tree_view rest.now) result
        ≡ semicolon_at (map tree_view trees.now) }
{
    match trees {
        [first, rest @ ..] if is_sign(first, ";") => Some(rest),
        _ => None,
    }
}

/// What follows the group that ends a call of a macro, and the `;` behind one in round or square brackets.
fn after_group(trees: &[TokenTree]) -> Option<&[TokenTree]>
    ensures { option_map (λ rest. map tree_view rest.now) result
        ≡ after_group (map tree_view trees.now) }
{
    match trees {
        [first, rest @ ..] if is_curly(first) => Some(rest),
        [first, rest @ ..] if is_group(first) => semicolon_at(rest),
        _ => None,
    }
}

/// What follows a call of a macro, from its `!` on.
fn behind_path(trees: &[TokenTree]) -> Option<&[TokenTree]>
    ensures { option_map (λ rest. map tree_view rest.now) result
        ≡ behind_path (map tree_view trees.now) }
{
    match trees {
        [first, rest @ ..] if is_sign(first, "!") => after_group(after_name(rest)),
        _ => None,
    }
}

/// What follows the call of a macro that the trees begin with.
pub(crate) fn after_call(trees: &[TokenTree]) -> Option<&[TokenTree]>
    ensures { option_map (λ rest. map tree_view rest.now) result
        ≡ after_call (map tree_view trees.now) }
{
    match trees {
        [first, rest @ ..] if is_path_part(first) => behind_path(after_path(rest)),
        _ => None,
    }
}
