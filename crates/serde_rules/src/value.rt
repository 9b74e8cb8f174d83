//! What serde's items say of a field or a variant.

ghost use Rattle.std.specs.Prelude.{◌≡◌, ◌||◌, List, [], ◌∷◌, ◌++◌, map, IfOk, codes};
ghost use Rattle.std.specs.Option.{option_or, option_map_or};
ghost use Rattle.attributes.specs.Attributes.{attribute_view, serde_items};
ghost use Rattle.attributes.specs.declared.serde_item.SerdeItem.{SerdeItem as AnyItem};
ghost use Rattle.serde_rules.specs.Items.{text_for};
ghost use Rattle.serde_rules.specs.Value.{is_skipping, is_double_option, value_rules};

use crate::items::{is_named, is_told, literal_for};
use attributes::{Attribute, SerdeItem};
use std::alloc::{AllocError, Global};
use texts::Text;

/// The `with` module of a field that tells an absent member from null.
const DOUBLE_OPTION: &str = "::serde_with::rust::double_option";

/// What serde's attributes say of a field or a variant. The default is what holds without attributes.
#[derive(Debug, Default, Drop, PartialEq, Eq)]
pub struct SerdeValue {
    /// It is left out when it is written or read.
    pub skip: bool,
    /// The name in JSON, where one is given.
    pub rename: Option<Text>,
    /// It may be absent when it is read.
    pub default: bool,
    /// The members of the value stand in place of the value.
    pub flatten: bool,
    /// It may be absent when it is written.
    pub skip_serializing_if: bool,
    /// An absent member is told from null.
    pub double_option: bool,
}

/// Whether it was skipped before, or the item skips it.
fn is_skipped(so_far: bool, item: &SerdeItem) -> bool
    ensures { result ≡ (so_far || is_skipping item.now) }
{
    so_far
        || is_named(item, "skip")
        || is_named(item, "skip_serializing")
        || is_named(item, "skip_deserializing")
}

/// The text of the item, where it has the name and a text, or else the text so far.
fn later_text(
    alloc: Global,
    so_far: Option<Text>,
    item: &SerdeItem,
    name: &str,
) -> Result<Option<Text>, AllocError>
    ensures { IfOk result (λ text. text ≡ option_or (text_for name.now item.now) so_far) }
{
    match literal_for(item, name) {
        Some(literal) => Ok(Some(literal.text.copy(alloc)?)),
        None => Ok(so_far),
    }
}

/// Whether the last module is that of double options.
fn is_double_option(so_far: bool, item: &SerdeItem) -> bool
    ensures { result ≡ option_map_or is_double_option (text_for (codes "with") item.now) so_far }
{
    match literal_for(item, "with") {
        Some(literal) => literal.text.as_str() == DOUBLE_OPTION,
        None => so_far,
    }
}

/// What the items so far and one item more say.
fn read_item(alloc: Global, so_far: SerdeValue, item: &SerdeItem) -> Result<SerdeValue, AllocError>
    ensures { IfOk result (λ rules. (before : List AnyItem) → so_far ≡ value_rules before
        → rules ≡ value_rules (before ++ item.now ∷ [])) }
{
    Ok(SerdeValue {
        skip: is_skipped(so_far.skip, item),
        rename: later_text(alloc, so_far.rename, item, "rename")?,
        default: is_told(so_far.default, item, "default"),
        flatten: is_told(so_far.flatten, item, "flatten"),
        skip_serializing_if: is_told(so_far.skip_serializing_if, item, "skip_serializing_if"),
        double_option: is_double_option(so_far.double_option, item),
    })
}

/// What the items so far and these items say.
fn read_items(
    alloc: Global,
    so_far: SerdeValue,
    items: &[SerdeItem],
) -> Result<SerdeValue, AllocError>
    ensures { IfOk result (λ rules. (before : List AnyItem) → so_far ≡ value_rules before
        → rules ≡ value_rules (before ++ items.now)) }
{
    let mut rules = so_far;
    for item in items {
        rules = read_item(alloc, rules, item)?;
    }
    Ok(rules)
}

/// What serde's attributes say of the field or the variant that has them.
pub fn parse_value(alloc: Global, attributes: &[Attribute]) -> Result<SerdeValue, AllocError>
    ensures { IfOk result
        (λ rules. rules ≡ value_rules (serde_items (map attribute_view attributes.now))) }
{
    let mut rules = SerdeValue::default();
    for attribute in attributes {
        rules = read_items(alloc, rules, attribute.items.as_slice())?;
    }
    Ok(rules)
}
