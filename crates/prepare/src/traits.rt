//! Attributes that derive serde's traits, utoipa's or serde_repr's.

ghost use Rattle.std.specs.Prelude.{◌≡◌, map, IfOk};
ghost use Rattle.tokens.specs.Trees.{tree_view, trees_view};
ghost use Rattle.prepare.specs.Names.{names_of};
ghost use Rattle.prepare.specs.Traits.{is_trait, is_any_trait, derives, group_derives, is_deriving, are_deriving};

use crate::names::push_all_names;
use crate::trees::is_word;
use std::alloc::{AllocError, Global};
use texts::{List, Text};
use tokens::{Bracket, TokenTree};

/// Which traits a derive is to name.
#[derive(Clone, Copy, Debug, PartialEq, Eq)]
pub(crate) enum Traits {
    /// serde's.
    Serde,
    /// serde's, or utoipa's `ToSchema`.
    SerdeOrSchema,
    /// serde_repr's.
    SerdeRepr,
}

/// Whether the trait is one of these.
fn is_trait(name: &str, traits: Traits) -> bool
    ensures { result ≡ is_trait traits name.now }
{
    match traits {
        Traits::Serde => matches!(name, "Serialize" | "Deserialize"),
        Traits::SerdeOrSchema => matches!(name, "Serialize" | "Deserialize" | "ToSchema"),
        Traits::SerdeRepr => matches!(name, "Serialize_repr" | "Deserialize_repr"),
    }
}

/// Whether one of the names is such a trait.
fn is_any_trait(names: &[Text], traits: Traits) -> bool
    ensures { result ≡ is_any_trait traits names.now }
{
    let mut rest = names;
    'names: while let [first, after @ ..] = rest {
        if is_trait(first.as_str(), traits) {
            return true;
        }
        rest = after;
    }
    false
}

/// Whether such a trait is named in the trees, at any depth.
fn name_traits(alloc: Global, trees: &[TokenTree], traits: Traits) -> Result<bool, AllocError>
    ensures { IfOk result
        (λ found. found ≡ is_any_trait traits (names_of (trees_view trees.now))) }
{
    let mut names = List::new(alloc);
    push_all_names(alloc, &mut names, trees)?;
    Ok(is_any_trait(names.as_slice(), traits))
}

/// Whether the trees go on with a group in round brackets that derives such a trait behind this tree: `derive(..)`, or
/// `cfg_attr(..)` with that in it.
#[cycle(derives)]
fn group_derives(
    alloc: Global,
    tree: &TokenTree,
    rest: &[TokenTree],
    traits: Traits,
) -> Result<bool, AllocError>
    ensures { IfOk result (λ found. found
        ≡ group_derives traits (tree_view tree.now) (trees_view rest.now)) }
{
    match rest {
        [TokenTree::Group(group), ..] => match group.bracket {
            Bracket::Round => {
                if is_word(tree, "derive") {
                    return name_traits(alloc, group.trees.as_slice(), traits);
                }
                if is_word(tree, "cfg_attr") {
                    return derives(alloc, group.trees.as_slice(), traits);
                }
                Ok(false)
            }
            _ => Ok(false),
        },
        _ => Ok(false),
    }
}

/// Whether such a group stands in the trees.
#[cycle(derives)]
fn derives(alloc: Global, trees: &[TokenTree], traits: Traits) -> Result<bool, AllocError>
    ensures { IfOk result (λ found. found ≡ derives traits (trees_view trees.now)) }
{
    let mut rest = trees;
    'trees: while let [first, after @ ..] = rest {
        if group_derives(alloc, first, after, traits)? {
            return Ok(true);
        }
        rest = after;
    }
    Ok(false)
}

/// Whether the tree is what stands behind the `#` of an attribute that derives such a trait.
fn is_deriving(alloc: Global, tree: &TokenTree, traits: Traits) -> Result<bool, AllocError>
    ensures { IfOk result (λ found. found ≡ is_deriving traits (tree_view tree.now)) }
{
    match tree {
        TokenTree::Group(group) => match group.bracket {
            Bracket::Square => derives(alloc, group.trees.as_slice(), traits),
            _ => Ok(false),
        },
        TokenTree::Token(_) => Ok(false),
    }
}

/// Whether one of the attributes does.
pub(crate) fn are_deriving(
    alloc: Global,
    attributes: &[TokenTree],
    traits: Traits,
) -> Result<bool, AllocError>
    ensures { IfOk result
        (λ found. found ≡ are_deriving traits (map tree_view attributes.now)) }
{
    let mut rest = attributes;
    'trees: while let [first, after @ ..] = rest {
        if is_deriving(alloc, first, traits)? {
            return Ok(true);
        }
        rest = after;
    }
    Ok(false)
}
