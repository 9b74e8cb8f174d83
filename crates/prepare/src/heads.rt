//! The heads of impls: what stands in front of their blocks.

ghost use Rattle.std.specs.Prelude.{◌≡◌, None, map, option_map, IfOk};
ghost use Rattle.tokens.specs.Trees.{tree_view};
ghost use Rattle.words.specs.Words.{ident_of, word_of};
ghost use Rattle.words.specs.Reading.{as_name};
ghost use Rattle.prepare.specs.Heads.{is_outside, outside, trait_of, is_type_part, newer, last_name, implemented};

use crate::ends::angles;
use crate::previous::Behind;
use crate::serde_trait::SerdeTrait;
use crate::trees::{is_path_part, is_sign, is_word};
use std::alloc::{AllocError, Global};
use texts::List;
use tokens::{Token, TokenTree};
use words::{Word, word_of};

/// Whether the tree stands outside of `<` and `>` where so many `<` are open before it.
fn is_outside(tree: &TokenTree, opened: usize) -> bool
    ensures { result ≡ is_outside opened (tree_view tree.now) }
{
    opened == 0 && !is_sign(tree, "<")
}

/// The trees that stand outside of `<` and `>`.
#[tactic(auto, unfolding(crate::specs::Heads::outside))]
pub(crate) fn outside(alloc: Global, trees: &[TokenTree]) -> Result<List<&TokenTree>, AllocError>
    ensures { IfOk result (λ kept. map (λ tree. tree_view tree.now) kept
        ≡ outside (map tree_view trees.now)) }
{
    let mut kept = List::new(alloc);
    let mut opened: usize = 0;
    let mut was = Behind::Other;
    let mut rest = trees;
    'trees: while let [first, after @ ..] = rest {
        if is_outside(first, opened) {
            kept.push(first)?;
        }
        opened = angles(first, was, opened);
        was = was.past(first);
        rest = after;
    }
    Ok(kept)
}

/// The trait of serde's that the tree names.
fn trait_of(tree: &TokenTree) -> Option<SerdeTrait>
    ensures { result ≡ trait_of (tree_view tree.now) }
{
    if is_word(tree, "Serialize") {
        Some(SerdeTrait::Serialize)
    } else if is_word(tree, "Deserialize") {
        Some(SerdeTrait::Deserialize)
    } else {
        None
    }
}

/// Whether the tree may stand in the path of a type: a word but for `dyn`, or `::`.
fn is_type_part(tree: &TokenTree) -> bool
    ensures { result ≡ is_type_part (tree_view tree.now) }
{
    is_path_part(tree) && !is_word(tree, "dyn")
}

/// The name that the tree is, or else the one that was found.
fn newer<'t>(found: Option<&'t Token>, tree: &'t TokenTree) -> Option<&'t Token>
    ensures { option_map (λ token. ident_of token.now) result
        ≡ newer (option_map (λ token. ident_of token.now) found.entry)
        (as_name (word_of (tree_view tree.now))) }
{
    match word_of(tree) {
        Word::Name(token) => Some(token),
        _ => found,
    }
}

/// The last name of the path that goes to `where` or to the end; no other type has one.
fn last_name<'t>(trees: &[&'t TokenTree]) -> Option<&'t Token>
    ensures { option_map (λ token. ident_of token.now) result
        ≡ last_name None (map (λ tree. tree_view tree.now) trees.now) }
{
    let mut found = None;
    let mut rest = trees;
    'trees: while let [first, after @ ..] = rest {
        if is_word(first, "where") {
            return found;
        }
        if !is_type_part(first) {
            return None;
        }
        found = newer(found, first);
        rest = after;
    }
    found
}

/// The first of serde's traits with `for` behind it, and the last name of the path that stands there.
pub(crate) fn implemented<'t>(trees: &[&'t TokenTree]) -> Option<(SerdeTrait, &'t Token)>
    ensures { option_map (λ found. (found.0, ident_of found.1.now)) result
        ≡ implemented (map (λ tree. tree_view tree.now) trees.now) }
{
    let mut rest = trees;
    'trees: while let [first, after @ ..] = rest {
        if let (Some(of), [next, path @ ..]) = (trait_of(first), after) {
            if is_word(next, "for") {
                return last_name(path).map(|name| (of, name));
            }
        }
        rest = after;
    }
    None
}
