//! What is said of serde's items at a place.

ghost use Rattle.std.specs.Prelude.{◌≡◌, ◌++◌, map, OnOk};
ghost use Rattle.std.specs.List.{flat_map, list_any};
ghost use Rattle.attributes.specs.Attributes.{attribute_view};
ghost use Rattle.warnings.specs.Rules.{warning_view, rule_view, warned_by, harmless, known_on_tuple, is_among, unread, warnings_of_item};
ghost use Rattle.warnings.specs.Before.{warnings_of_attribute, warnings_before};
ghost use Rattle.serde_rules.specs.Items.{is_named};

use crate::paths::push_path;
use crate::rules::{
    HARMLESS, KNOWN_ON_TUPLE, Place, RULES, Rule, UNREAD_ON_TUPLE, UNREAD_ON_UNNAMED, is_of_form,
    stands_at,
};
use crate::warning::Warning;
use attributes::{Attribute, SerdeItem};
use std::alloc::AllocError;
use texts::List;

/// Whether the item has the name.
pub(crate) fn is_named(item: &SerdeItem, name: &str) -> bool
    ensures { result ≡ is_named name.now item.now }
{
    item.name.text.as_str() == name
}

/// Whether the item has one of the names.
fn is_among(item: &SerdeItem, names: &[&str]) -> bool
    ensures { result ≡ list_any (λ name. is_named name.now item.now) names.now }
{
    for name in names {
        if is_named(item, name) {
            return true;
        }
    }
    false
}

/// Whether the item changes no JSON where no item is read.
#[tactic(auto, unfolding(crate::specs::Rules::harmless))]
fn is_harmless(item: &SerdeItem) -> bool
    ensures { result ≡ is_among harmless item.now }
{
    is_among(item, &HARMLESS)
}

/// Whether the item changes no JSON before a struct with unnamed fields, or a rule speaks of it there.
#[tactic(auto, unfolding(crate::specs::Rules::known_on_tuple))]
fn is_known_on_tuple(item: &SerdeItem) -> bool
    ensures { result ≡ is_among known_on_tuple item.now }
{
    is_among(item, &KNOWN_ON_TUPLE)
}

/// Adds what the rule says of the item at the place.
fn push_by(
    warnings: &mut List<Warning>,
    rule: &Rule,
    place: Place,
    item: &SerdeItem,
) -> Result<(), AllocError>
    ensures { OnOk result (map warning_view warnings.new
        ≡ map warning_view warnings.old ++ warned_by place item.now (rule_view rule.now)) }
{
    let (name, form, site, message) = *rule;
    if is_named(item, name) && is_of_form(form, &item.value) && stands_at(site, place) {
        let span = item.name.span;
        warnings.push(Warning { span, message })?;
    }
    Ok(())
}

/// Adds what the rules say of the item at the place.
fn push_by_each(
    warnings: &mut List<Warning>,
    rules: &[Rule],
    place: Place,
    item: &SerdeItem,
) -> Result<(), AllocError>
    ensures { OnOk result (map warning_view warnings.new ≡ map warning_view warnings.old
        ++ flat_map (warned_by place item.now) (map rule_view rules.now)) }
{
    for rule in rules {
        push_by(warnings, rule, place, item)?;
    }
    Ok(())
}

/// Adds what is said of the item where no item is read.
fn push_unread(
    warnings: &mut List<Warning>,
    place: Place,
    item: &SerdeItem,
) -> Result<(), AllocError>
    ensures { OnOk result (map warning_view warnings.new
        ≡ map warning_view warnings.old ++ unread place item.now) }
{
    let span = item.name.span;
    match place {
        Place::Tuple { .. } if !is_harmless(item) && !is_known_on_tuple(item) => {
            warnings.push(Warning {
                span,
                message: UNREAD_ON_TUPLE,
            })
        }
        Place::Unnamed if !is_harmless(item) => warnings.push(Warning {
            span,
            message: UNREAD_ON_UNNAMED,
        }),
        _ => Ok(()),
    }
}

/// Adds what is said of the item at the place.
#[tactic(auto, unfolding(crate::specs::Rules::rules))]
fn push_item(warnings: &mut List<Warning>, place: Place, item: &SerdeItem) -> Result<(), AllocError>
    ensures { OnOk result (map warning_view warnings.new
        ≡ map warning_view warnings.old ++ warnings_of_item place item.now) }
{
    push_by_each(warnings, &RULES, place, item)?;
    push_unread(warnings, place, item)
}

/// Adds what is said of the items at the place.
fn push_items(
    warnings: &mut List<Warning>,
    place: Place,
    items: &[SerdeItem],
) -> Result<(), AllocError>
    ensures { OnOk result (map warning_view warnings.new
        ≡ map warning_view warnings.old ++ flat_map (warnings_of_item place) items.now) }
{
    for item in items {
        push_item(warnings, place, item)?;
    }
    Ok(())
}

/// Adds what is said of the attribute and of its items at the place.
fn push_attribute(
    warnings: &mut List<Warning>,
    place: Place,
    attribute: &Attribute,
) -> Result<(), AllocError>
    ensures { OnOk result (map warning_view warnings.new
        ≡ map warning_view warnings.old ++ warnings_of_attribute place (attribute_view attribute.now)) }
{
    push_items(warnings, place, attribute.items.as_slice())?;
    push_path(warnings, place, attribute)
}

/// Adds what is said of the attributes at the place.
pub(crate) fn push_attributes(
    warnings: &mut List<Warning>,
    place: Place,
    attributes: &[Attribute],
) -> Result<(), AllocError>
    ensures { OnOk result (map warning_view warnings.new
        ≡ map warning_view warnings.old ++ warnings_before place (map attribute_view attributes.now)) }
{
    for attribute in attributes {
        push_attribute(warnings, place, attribute)?;
    }
    Ok(())
}
