//! Serde's items by their names.

ghost use Rattle.std.specs.Prelude.{◌≡◌, ◌||◌, map, option_map};
ghost use Rattle.attributes.specs.Attributes.{attribute_view, serde_items};
ghost use Rattle.serde_rules.specs.Items.{is_named, literal_for, has_item};

use attributes::{Attribute, SerdeItem, SerdeText};

/// Whether the item has the name.
pub fn is_named(item: &SerdeItem, name: &str) -> bool
    ensures { result ≡ is_named name.now item.now }
{
    item.name.text.as_str() == name
}

/// The literal of the item, where the item has the name and a literal.
pub fn literal_for<'a>(item: &'a SerdeItem, name: &str) -> Option<&'a SerdeText>
    ensures { option_map (λ literal. literal.now) result ≡ literal_for name.now item.now }
{
    if is_named(item, name) {
        item.value.as_ref()
    } else {
        None
    }
}

/// Whether it was told before, or an item of the name tells it.
pub fn is_told(so_far: bool, item: &SerdeItem, name: &str) -> bool
    ensures { result ≡ (so_far || is_named name.now item.now) }
{
    so_far || is_named(item, name)
}

/// Whether an item of the name is among these.
pub fn has_item(items: &[SerdeItem], name: &str) -> bool
    ensures { result ≡ has_item name.now items.now }
{
    for item in items {
        if is_named(item, name) {
            return true;
        }
    }
    false
}

/// Whether an item of the name is among those of the attributes.
pub fn stands_before(attributes: &[Attribute], name: &str) -> bool
    ensures { result ≡ has_item name.now (serde_items (map attribute_view attributes.now)) }
{
    for attribute in attributes {
        if has_item(attribute.items.as_slice(), name) {
            return true;
        }
    }
    false
}
