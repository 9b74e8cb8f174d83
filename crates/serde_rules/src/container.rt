//! What serde's items say of a struct or an enum.

ghost use Rattle.std.specs.Prelude.{◌≡◌, List, [], ◌∷◌, ◌++◌, map, IfOk, OnOk, IfErr, MatchOption, IsSome, codes};
ghost use Rattle.diag.specs.Refusal.{IsErrorFor, Refuses};
ghost use Rattle.attributes.specs.Attributes.{attribute_view, serde_items};
ghost use Rattle.attributes.specs.declared.serde_item.SerdeItem.{SerdeItem as AnyItem};
ghost use Rattle.diag.specs.declared.error.DeriveError.{DeriveError as AnyError};
ghost use Rattle.serde_rules.specs.Container.{rule_named, IsRuleRefusal, IsItemRefusal, IsContainerRefusal, AreContainerRules};
ghost use Rattle.serde_rules.specs.Items.{text_for};

use crate::enum_repr::{SerdeEnumRepr, refusal, with_item};
use crate::items::{is_told, literal_for};
use attributes::{Attribute, SerdeItem};
use diag::{DeriveError, Kind, RenameRule};
use std::alloc::Global;
use std::str::FromStr;

/// The message at a text that is the name of no rename rule.
const UNKNOWN_RULE: &str =
    "unexpected rename rule, expected one of: \"lowercase\", \"UPPERCASE\", \"PascalCase\", \"camelCase\", \"snake_case\", \"SCREAMING_SNAKE_CASE\", \"kebab-case\", \"SCREAMING-KEBAB-CASE\"";

/// What serde's attributes say of a struct or an enum. The default is what holds without attributes.
#[derive(Debug, Default, Drop, PartialEq, Eq)]
pub struct SerdeContainer {
    /// The rule for the names of the fields or variants, where one is given.
    pub rename_all: Option<RenameRule>,
    /// How the values of an enum are represented.
    pub enum_repr: SerdeEnumRepr,
    /// Each field may be absent when it is read.
    pub default: bool,
    /// A member that no field has is refused when it is read.
    pub deny_unknown_fields: bool,
}

/// The rule of the name, where there is one.
#[tactic(auto, using(crate::proofs::ContainerLaws::named))]
fn rule_named(name: &str) -> Option<RenameRule>
    ensures { result ≡ rule_named name.now }
{
    RenameRule::from_str(name).ok()
}

/// The rule that the item names, where it names one, or else the rule so far. An unknown name is refused.
fn later_rule(
    alloc: Global,
    so_far: Option<RenameRule>,
    item: &SerdeItem,
) -> Result<Option<RenameRule>, DeriveError>
    ensures rule { IfOk result
        (λ rule. MatchOption (text_for (codes "rename_all") item.now) (rule ≡ so_far)
        (λ text. (rule_named text ≡ rule) × IsSome rule)) }
    ensures refused { Refuses result (IsRuleRefusal item.now) }
{
    let Some(literal) = literal_for(item, "rename_all") else {
        return Ok(so_far);
    };
    match rule_named(literal.text.as_str()) {
        Some(rule) => Ok(Some(rule)),
        None => Err(refusal(alloc, Kind::BadValue, literal, UNKNOWN_RULE)),
    }
}

/// What the items so far and one item more say.
fn read_item(
    alloc: Global,
    so_far: SerdeContainer,
    item: &SerdeItem,
) -> Result<SerdeContainer, DeriveError>
    ensures read { IfOk result (λ rules. (before : List AnyItem) → AreContainerRules before so_far
        → AreContainerRules (before ++ item.now ∷ []) rules) }
    ensures refused { Refuses result (IsItemRefusal so_far item.now) }
{
    Ok(SerdeContainer {
        rename_all: later_rule(alloc, so_far.rename_all, item)?,
        enum_repr: with_item(alloc, so_far.enum_repr, item)?,
        default: is_told(so_far.default, item, "default"),
        deny_unknown_fields: is_told(so_far.deny_unknown_fields, item, "deny_unknown_fields"),
    })
}

/// What the items so far and these items say.
fn read_items(
    alloc: Global,
    so_far: SerdeContainer,
    items: &[SerdeItem],
) -> Result<SerdeContainer, DeriveError>
    ensures read { IfOk result (λ rules. (before : List AnyItem) → AreContainerRules before so_far
        → AreContainerRules (before ++ items.now) rules) }
    ensures refused { IfErr result (λ e. (before : List AnyItem) → AreContainerRules before so_far
        → IsErrorFor (IsContainerRefusal (before ++ items.now)) e) }
{
    let mut rules = so_far;
    for item in items {
        rules = read_item(alloc, rules, item)?;
    }
    Ok(rules)
}

/// What serde's attributes say of the struct or the enum that has them. A tag or a content that the items before it rule out
/// is refused with the kind `SerdeTag`, and the name of a rename rule that there is not with `BadValue`. Of several items at
/// fault the first is told.
pub fn parse_container(
    alloc: Global,
    attributes: &[Attribute],
) -> Result<SerdeContainer, DeriveError>
    ensures read { IfOk result
        (AreContainerRules (serde_items (map attribute_view attributes.now))) }
    ensures allowed { OnOk result ((e : AnyError)
        → ¬ IsContainerRefusal (serde_items (map attribute_view attributes.now)) e) }
    ensures refused { Refuses result
        (IsContainerRefusal (serde_items (map attribute_view attributes.now))) }
{
    let mut rules = SerdeContainer::default();
    for attribute in attributes {
        rules = read_items(alloc, rules, attribute.items.as_slice())?;
    }
    Ok(rules)
}
