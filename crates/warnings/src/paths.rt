//! What is said of attributes by their paths.

ghost use Rattle.std.specs.Prelude.{◌≡◌, ◌++◌, map, OnOk};
ghost use Rattle.tokens.specs.Trees.{tree_view, trees_view};
ghost use Rattle.attributes.specs.Attributes.{attribute_view, meta_view};
ghost use Rattle.warnings.specs.Rules.{warning_view};
ghost use Rattle.warnings.specs.Before.{is_serde, is_group, hold_serde, has_serde_inside, holds_serde, is_of_field, warnings_of_path};

use crate::rules::Place;
use crate::warning::Warning;
use attributes::{Attribute, Meta};
use std::alloc::AllocError;
use texts::List;
use tokens::TokenTree;

/// What is said of `cfg_attr` with a list of serde's, also inside another `cfg_attr`.
pub const INSIDE_CFG_ATTR: &str = "serde's attributes inside `cfg_attr` are not read";

/// What is said of `serde_as` before a field.
pub const BY_ANOTHER_TOOL: &str =
    "another tool changes the JSON; the schema is that of the field's type";

/// Whether the tree is the word `serde`.
fn is_serde(tree: &TokenTree) -> bool
    ensures { result ≡ is_serde (tree_view tree.now) }
{
    match tree {
        TokenTree::Token(token) => token.text.as_str() == "serde",
        TokenTree::Group(_) => false,
    }
}

/// Whether the tree is a group.
fn is_group(tree: &TokenTree) -> bool
    ensures { result ≡ is_group (tree_view tree.now) }
{
    matches!(tree, TokenTree::Group(_))
}

/// Whether the word `serde` stands before a group, at any depth.
#[cycle(serde)]
fn hold_serde(trees: &[TokenTree]) -> bool
    ensures { result ≡ hold_serde (trees_view trees.now) }
{
    let mut after_word = false;
    for tree in trees {
        if after_word && is_group(tree) || has_serde_inside(tree) {
            return true;
        }
        after_word = is_serde(tree);
    }
    false
}

/// Whether that word does so inside the tree.
#[cycle(serde)]
fn has_serde_inside(tree: &TokenTree) -> bool
    ensures { result ≡ has_serde_inside (tree_view tree.now) }
{
    match tree {
        TokenTree::Token(_) => false,
        TokenTree::Group(group) => hold_serde(group.trees.as_slice()),
    }
}

/// Whether the word `serde` stands before a group, at any depth, in what stands behind a path.
fn holds_serde(meta: &Meta) -> bool
    ensures { result ≡ holds_serde (meta_view meta.now) }
{
    match meta {
        Meta::Items(group) => hold_serde(group.trees.as_slice()),
        Meta::Word | Meta::NameValue(_) | Meta::Doc(_) => false,
    }
}

/// Whether the place is that of a field.
fn is_of_field(place: Place) -> bool
    ensures { result ≡ is_of_field place }
{
    matches!(
        place,
        Place::Field { .. } | Place::Flattened { .. } | Place::Unnamed
    )
}

/// Adds what is said of the attribute by its path.
pub(crate) fn push_path(
    warnings: &mut List<Warning>,
    place: Place,
    attribute: &Attribute,
) -> Result<(), AllocError>
    ensures { OnOk result (map warning_view warnings.new
        ≡ map warning_view warnings.old ++ warnings_of_path place (attribute_view attribute.now)) }
{
    let span = attribute.path.span;
    if attribute.is("cfg_attr") && holds_serde(&attribute.meta) {
        return warnings.push(Warning {
            span,
            message: INSIDE_CFG_ATTR,
        });
    }
    if attribute.is("serde_as") && is_of_field(place) {
        return warnings.push(Warning {
            span,
            message: BY_ANOTHER_TOOL,
        });
    }
    Ok(())
}
