//! Members of JSON objects, and what they say.

ghost use Rattle.std.specs.Prelude.{◌≡◌, ◌≢◌, ◌≤◌, ◌↔◌, ℕ, List, map, IsTrue, IfSome, MatchOption, Some, bytes_eq, codes};
ghost use Rattle.std.specs.List.{list_any, list_all};
ghost use Rattle.serde_json.specs.Data.{string, object, array, no_members, no_items};
ghost use Rattle.serde_json.specs.Find.{get};
ghost use Rattle.serde_json.specs.View.{view, members_view};
ghost use Rattle.configuration_json.specs.Form.{names_of, IsObjectOf, SaysOrDefault, IsWhole, IsCollect, AreTexts, HoldsTexts};
ghost use Rattle.configuration.specs.declared.collect.SchemaCollect.{SchemaCollect as AnyCollect};
ghost use Rattle.configuration.specs.declared.collect.SchemaCollect.TheVariants.{NonInlined};

use configuration::SchemaCollect;
use serde_json::{Map, Value};

/// Whether the name is one of these.
fn is_among(name: &str, names: &[&str]) -> bool
    ensures { result ≡ list_any (bytes_eq name.now) (map (λ known. known.now) names.now) }
{
    for known in names {
        if name == *known {
            return true;
        }
    }
    false
}

/// Whether the members all have names among these.
fn are_among(members: &Map<String, Value>, names: &[&str]) -> bool
    ensures { result ≡ list_all
        (λ name. list_any (bytes_eq name) (map (λ known. known.now) names.now))
        (names_of (members_view members.now.entries)) }
{
    for (name, _value) in members.iter() {
        if !is_among(name.as_str(), names) {
            return false;
        }
    }
    true
}

/// Whether the value is an object whose members all have names among these.
pub fn is_object_of(value: &Value, names: &[&str]) -> bool
    ensures { IsTrue result ↔ IsObjectOf (map (λ known. known.now) names.now) (view value.now) }
{
    match value.as_object() {
        Some(members) => are_among(members, names),
        None => false,
    }
}

/// The text of the member, where it is a text.
pub fn text_at<'a>(value: &'a Value, name: &str) -> Option<&'a str>
    ensures { MatchOption result ((text : List ℕ)
        → get name.now (view value.now) ≢ Some (string text)) (λ text. get name.now (view value.now)
        ≡ Some (string text.now)) }
{
    match value.get(name) {
        Some(member) => member.as_str(),
        None => None,
    }
}

/// The whole number that the value is, where it is one from the least to the most.
fn whole_of(value: &Value, least: usize, most: usize) -> Option<usize>
    ensures { MatchOption result ((n : ℕ) → ¬ IsWhole least most (view value.now) n)
        (IsWhole least most (view value.now)) }
{
    match value.as_u64() {
        Some(number) => {
            let number = number as usize;
            if least <= number && number <= most {
                Some(number)
            } else {
                None
            }
        }
        None => None,
    }
}

/// The whole number of the member, where it is one from the least to the most, or the default without the member.
pub fn whole_at(
    value: &Value,
    name: &str,
    least: usize,
    most: usize,
    default: usize,
) -> Option<usize>
    ensures { MatchOption result ((n : ℕ)
        → ¬ SaysOrDefault (IsWhole least most) default (get name.now (view value.now)) n)
        (SaysOrDefault (IsWhole least most) default (get name.now (view value.now))) }
{
    match value.get(name) {
        Some(member) => whole_of(member, least, most),
        None => Some(default),
    }
}

/// What the value says of which instances get a component, where it says so.
fn collect_of(value: &Value) -> Option<SchemaCollect>
    ensures { MatchOption result ((collect : AnyCollect) → ¬ IsCollect (view value.now) collect)
        (IsCollect (view value.now)) }
{
    match value.as_str() {
        Some("NonInlined") => Some(SchemaCollect::NonInlined),
        Some("All") => Some(SchemaCollect::All),
        _ => None,
    }
}

/// Which instances get a component, or without the member those that references reach.
pub fn collect_at(value: &Value, name: &str) -> Option<SchemaCollect>
    ensures { MatchOption result ((collect : AnyCollect)
        → ¬ SaysOrDefault IsCollect NonInlined (get name.now (view value.now)) collect)
        (SaysOrDefault IsCollect NonInlined (get name.now (view value.now))) }
{
    match value.get(name) {
        Some(member) => collect_of(member),
        None => Some(SchemaCollect::NonInlined),
    }
}

/// Whether the value is the empty object.
fn is_empty_object(value: &Value) -> bool
    ensures { IsTrue result ↔ (view value.now ≡ object no_members) }
{
    match value.as_object() {
        Some(members) => members.is_empty(),
        None => false,
    }
}

/// Whether the value is the empty list.
fn is_empty_list(value: &Value) -> bool
    ensures { IsTrue result ↔ (view value.now ≡ array no_items) }
{
    match value.as_array() {
        Some(items) => items.is_empty(),
        None => false,
    }
}

/// Whether the member is the empty object, or is absent.
pub fn is_empty_object_at(value: &Value, name: &str) -> bool
    ensures { IsTrue result
        ↔ IfSome (get name.now (view value.now)) (λ given. given ≡ object no_members) }
{
    match value.get(name) {
        Some(member) => is_empty_object(member),
        None => true,
    }
}

/// Whether the member is the empty list, or is absent.
pub fn is_empty_list_at(value: &Value, name: &str) -> bool
    ensures { IsTrue result
        ↔ IfSome (get name.now (view value.now)) (λ given. given ≡ array no_items) }
{
    match value.get(name) {
        Some(member) => is_empty_list(member),
        None => true,
    }
}

/// Whether the members are all texts.
fn are_texts(members: &Map<String, Value>) -> bool
    ensures { IsTrue result ↔ AreTexts (members_view members.now.entries) }
{
    for (_, value) in members.iter() {
        if !value.is_string() {
            return false;
        }
    }
    true
}

/// Whether the value is an object whose members are all texts.
fn holds_texts(value: &Value) -> bool
    ensures { IsTrue result ↔ HoldsTexts (view value.now) }
{
    match value.as_object() {
        Some(members) => are_texts(members),
        None => false,
    }
}

/// Whether the member is an object whose members are all texts, or is absent.
pub fn holds_texts_at(value: &Value, name: &str) -> bool
    ensures { IsTrue result ↔ IfSome (get name.now (view value.now)) HoldsTexts }
{
    match value.get(name) {
        Some(member) => holds_texts(member),
        None => true,
    }
}
