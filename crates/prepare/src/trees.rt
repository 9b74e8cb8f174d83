//! Single token trees, and parts of lists of them.

ghost use Rattle.std.specs.Prelude.{◌≡◌, map, option_map};
ghost use Rattle.tokens.specs.Trees.{tree_view};
ghost use Rattle.prepare.specs.Trees.{word, sign, doc, is_text, is_word, is_sign, is_inner_doc, is_outer_doc, is_round, is_square, is_curly, is_group, is_path_part, inside, span_of, before, but_last, extent};

use texts::Span;
use tokens::{Bracket, TokenKind, TokenTree};
use words::covering;

/// The text of the identifier or the keyword that the tree is.
pub(crate) fn word(tree: &TokenTree) -> Option<&str>
    ensures { option_map (λ text. text.now) result ≡ word (tree_view tree.now) }
{
    match tree {
        TokenTree::Token(token) => match token.kind {
            TokenKind::Ident => Some(token.text.as_str()),
            _ => None,
        },
        TokenTree::Group(_) => None,
    }
}

/// The text of the sign that the tree is.
fn sign(tree: &TokenTree) -> Option<&str>
    ensures { option_map (λ text. text.now) result ≡ sign (tree_view tree.now) }
{
    match tree {
        TokenTree::Token(token) => match token.kind {
            TokenKind::Punct => Some(token.text.as_str()),
            _ => None,
        },
        TokenTree::Group(_) => None,
    }
}

/// The text of the doc comment that the tree is.
fn doc(tree: &TokenTree) -> Option<&str>
    ensures { option_map (λ text. text.now) result ≡ doc (tree_view tree.now) }
{
    match tree {
        TokenTree::Token(token) => match token.kind {
            TokenKind::Doc => Some(token.text.as_str()),
            _ => None,
        },
        TokenTree::Group(_) => None,
    }
}

/// Whether there is a text, and it is this one.
fn is_text(found: Option<&str>, text: &str) -> bool
    ensures { result ≡ is_text text.now (option_map (λ found. found.now) found.entry) }
{
    match found {
        Some(found) => found == text,
        None => false,
    }
}

/// Whether the tree is this identifier or keyword.
pub(crate) fn is_word(tree: &TokenTree, text: &str) -> bool
    ensures { result ≡ is_word text.now (tree_view tree.now) }
{
    is_text(word(tree), text)
}

/// Whether the tree is this sign.
pub(crate) fn is_sign(tree: &TokenTree, text: &str) -> bool
    ensures { result ≡ is_sign text.now (tree_view tree.now) }
{
    is_text(sign(tree), text)
}

/// Whether the tree is an inner doc comment: `//!` or `/*!`.
pub(crate) fn is_inner_doc(tree: &TokenTree) -> bool
    ensures { result ≡ is_inner_doc (tree_view tree.now) }
{
    match doc(tree) {
        Some(text) => text.starts_with("//!") || text.starts_with("/*!"),
        None => false,
    }
}

/// Whether the tree is an outer doc comment: `///` or `/**`.
pub(crate) fn is_outer_doc(tree: &TokenTree) -> bool
    ensures { result ≡ is_outer_doc (tree_view tree.now) }
{
    match doc(tree) {
        Some(text) => text.starts_with("///") || text.starts_with("/**"),
        None => false,
    }
}

/// Whether the tree is a group in round brackets.
pub(crate) fn is_round(tree: &TokenTree) -> bool
    ensures { result ≡ is_round (tree_view tree.now) }
{
    match tree {
        TokenTree::Group(group) => matches!(group.bracket, Bracket::Round),
        TokenTree::Token(_) => false,
    }
}

/// Whether the tree is a group in square brackets.
pub(crate) fn is_square(tree: &TokenTree) -> bool
    ensures { result ≡ is_square (tree_view tree.now) }
{
    match tree {
        TokenTree::Group(group) => matches!(group.bracket, Bracket::Square),
        TokenTree::Token(_) => false,
    }
}

/// Whether the tree is a group in curly brackets.
pub(crate) fn is_curly(tree: &TokenTree) -> bool
    ensures { result ≡ is_curly (tree_view tree.now) }
{
    match tree {
        TokenTree::Group(group) => matches!(group.bracket, Bracket::Curly),
        TokenTree::Token(_) => false,
    }
}

/// Whether the tree is a group.
pub(crate) fn is_group(tree: &TokenTree) -> bool
    ensures { result ≡ is_group (tree_view tree.now) }
{
    match tree {
        TokenTree::Group(_) => true,
        TokenTree::Token(_) => false,
    }
}

/// Whether the tree may stand in the path of a macro: a word, or `::`.
pub(crate) fn is_path_part(tree: &TokenTree) -> bool
    ensures { result ≡ is_path_part (tree_view tree.now) }
{
    word(tree).is_some() || is_sign(tree, "::")
}

/// What stands in a group; nothing where the tree is none.
pub(crate) fn inside(tree: &TokenTree) -> &[TokenTree]
    ensures { map tree_view result.now ≡ inside (tree_view tree.now) }
{
    match tree {
        TokenTree::Group(group) => group.trees.as_slice(),
        TokenTree::Token(_) => &[],
    }
}

/// The bytes of the tree.
pub(crate) fn span_of(tree: &TokenTree) -> Span
    ensures { result ≡ span_of (tree_view tree.now) }
{
    match tree {
        TokenTree::Token(token) => token.span,
        TokenTree::Group(group) => group.span,
    }
}

/// The trees that stand before the rest.
pub(crate) fn before<'t>(trees: &'t [TokenTree], rest: &[TokenTree]) -> &'t [TokenTree]
    ensures { map tree_view result.now ≡ before (map tree_view trees.now) (map tree_view rest.now) }
{
    &trees[..trees.len().saturating_sub(rest.len())]
}

/// The trees but for the last.
pub(crate) fn but_last(trees: &[TokenTree]) -> &[TokenTree]
    ensures { map tree_view result.now ≡ but_last (map tree_view trees.now) }
{
    &trees[..trees.len().saturating_sub(1)]
}

/// From the start of the first of the trees to the end of the last.
pub(crate) fn extent(trees: &[TokenTree]) -> Span
    ensures { result ≡ extent (map tree_view trees.now) }
{
    match trees {
        [first, ..] => covering(span_of(first), span_of(&trees[trees.len() - 1])),
        [] => Span::nowhere(),
    }
}
