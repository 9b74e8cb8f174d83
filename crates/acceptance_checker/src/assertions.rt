ghost use Rattle.std.specs.Prelude.{◌≡◌, List, ℕ, length, chars, int_le, pos, option_map};
ghost use Rattle.std.specs.List.{list_any, list_all};
ghost use Rattle.acceptance.specs.Acceptance.{Readings, keyword_holds, kinds_of, texts_of, type_holds, enum_holds, required_holds, unique_holds, is_multiple};
ghost use Rattle.acceptance.specs.Json.{Members, entries, names as names_in};
ghost use Rattle.texts.specs.Names.{is_in};
ghost use Rattle.acceptance_checker.specs.Kinds.{assertion_meant, comparison_meant, limit_meant, limit_holds, comparison_holds};
ghost use Rattle.acceptance.specs.Keyword.{min_length, max_length, min_properties, max_properties, min_items, max_items};
ghost use Rattle.acceptance_checker.specs.Layer.{json_of_layer, json_of_values, json_of_entries};

use crate::equality::{are_distinct, is_among};
use crate::keyword::{Assertion, Comparison, Limit};
use crate::layer::{Layer, has_member, item_count, layer_of, member_count};
use serde_json::{Map, Value};

/// Whether the member, whose value is `x`, holds of the value `v`.
pub fn assertion_holds(assertion: Assertion, x: Layer<'_>, v: Layer<'_>) -> bool
    ensures { (schema : Members) (r : Readings)
        → result ≡ keyword_holds (assertion_meant assertion) schema (json_of_layer x.entry) r
        (json_of_layer v.entry) }
{
    match assertion {
        Assertion::Types => type_holds(x, v),
        Assertion::Enumeration => enum_holds(x, v),
        Assertion::Number(comparison) => number_holds(comparison, x, v),
        Assertion::Length(limit) => length_holds(limit, x, v),
        Assertion::Required => required_holds(x, v),
        Assertion::Properties(limit) => properties_hold(limit, x, v),
        Assertion::UniqueItems => unique_holds(x, v),
        Assertion::Items(limit) => items_hold(limit, x, v),
    }
}

fn type_holds(x: Layer<'_>, v: Layer<'_>) -> bool
    ensures { result ≡ type_holds (json_of_layer x.entry) (json_of_layer v.entry) }
{
    match x {
        Layer::Text(word) => is_kind(word, v),
        Layer::List(words) => has_listed_kind(words, v).unwrap_or(true),
        _ => true,
    }
}

// None where one of the words is no text
fn has_listed_kind(words: &[Value], v: Layer<'_>) -> Option<bool>
    ensures { result ≡ option_map (list_any (λ w. is_in w (kinds_of (json_of_layer v.entry))))
        (texts_of (json_of_values words.now)) }
{
    let mut found = false;
    for word in words {
        match layer_of(word) {
            Layer::Text(word) => found = found || is_kind(word, v),
            _ => return None,
        }
    }
    Some(found)
}

fn is_kind(word: &str, v: Layer<'_>) -> bool
    ensures { result ≡ is_in word.now (kinds_of (json_of_layer v.entry)) }
{
    match v {
        Layer::Null => word == "null",
        Layer::Boolean(_) => word == "boolean",
        Layer::Whole(_) => word == "integer" || word == "number",
        Layer::Text(_) => word == "string",
        Layer::List(_) => word == "array",
        Layer::Map(_) => word == "object",
    }
}

fn enum_holds(x: Layer<'_>, v: Layer<'_>) -> bool
    ensures { result ≡ enum_holds (json_of_layer x.entry) (json_of_layer v.entry) }
{
    match x {
        Layer::List(items) => is_among(v, items),
        _ => true,
    }
}

fn number_holds(comparison: Comparison, x: Layer<'_>, v: Layer<'_>) -> bool
    ensures { (schema : Members) (r : Readings)
        → result ≡ keyword_holds (comparison_meant comparison) schema (json_of_layer x.entry) r
        (json_of_layer v.entry) }
{
    match x {
        Layer::Whole(n) => match v {
            Layer::Whole(m) => compares(comparison, n, m),
            _ => true,
        },
        _ => true,
    }
}

fn compares(comparison: Comparison, n: i128, m: i128) -> bool
    ensures { result ≡ comparison_holds comparison n m }
{
    match comparison {
        Comparison::Minimum => n <= m,
        Comparison::Maximum => m <= n,
        Comparison::ExclusiveMinimum => n < m,
        Comparison::ExclusiveMaximum => m < n,
        Comparison::MultipleOf => is_multiple(n, m),
    }
}

fn is_multiple(n: i128, m: i128) -> bool
    ensures { result ≡ is_multiple n m }
{
    let (step, size) = (n.unsigned_abs(), m.unsigned_abs());
    if step == 0 {
        size == 0
    } else {
        size % step == 0
    }
}

fn length_holds(limit: Limit, x: Layer<'_>, v: Layer<'_>) -> bool
    ensures { (schema : Members) (r : Readings)
        → result ≡ keyword_holds (limit_meant limit min_length max_length) schema
        (json_of_layer x.entry) r (json_of_layer v.entry) }
{
    match x {
        Layer::Whole(n) => match v {
            Layer::Text(text) => is_within(limit, n, char_count(text)),
            _ => true,
        },
        _ => true,
    }
}

fn char_count(text: &str) -> usize
    ensures { result ≡ length (chars text.now) }
{
    text.chars().count()
}

fn is_within(limit: Limit, n: i128, count: usize) -> bool
    ensures { result ≡ limit_holds limit n count }
{
    match limit {
        Limit::AtLeast => n <= count as i128,
        Limit::AtMost => count as i128 <= n,
    }
}

fn properties_hold(limit: Limit, x: Layer<'_>, v: Layer<'_>) -> bool
    ensures { (schema : Members) (r : Readings)
        → result ≡ keyword_holds (limit_meant limit min_properties max_properties) schema
        (json_of_layer x.entry) r (json_of_layer v.entry) }
{
    match x {
        Layer::Whole(n) => match v {
            Layer::Map(members) => is_within(limit, n, member_count(members)),
            _ => true,
        },
        _ => true,
    }
}

fn items_hold(limit: Limit, x: Layer<'_>, v: Layer<'_>) -> bool
    ensures { (schema : Members) (r : Readings)
        → result ≡ keyword_holds (limit_meant limit min_items max_items) schema
        (json_of_layer x.entry) r (json_of_layer v.entry) }
{
    match x {
        Layer::Whole(n) => match v {
            Layer::List(items) => is_within(limit, n, item_count(items)),
            _ => true,
        },
        _ => true,
    }
}

fn required_holds(x: Layer<'_>, v: Layer<'_>) -> bool
    ensures { result ≡ required_holds (json_of_layer x.entry) (json_of_layer v.entry) }
{
    match x {
        Layer::List(names) => match v {
            Layer::Map(members) => has_listed_names(names, members).unwrap_or(true),
            _ => true,
        },
        _ => true,
    }
}

// None where one of the names is no text
fn has_listed_names(names: &[Value], members: &Map<String, Value>) -> Option<bool>
    ensures { result ≡ option_map
        (list_all (λ k. is_in k (names_in (entries (json_of_entries members.now.entries)))))
        (texts_of (json_of_values names.now)) }
{
    let mut all = true;
    for name in names {
        match layer_of(name) {
            Layer::Text(name) => all = all && has_member(members, name),
            _ => return None,
        }
    }
    Some(all)
}

fn unique_holds(x: Layer<'_>, v: Layer<'_>) -> bool
    ensures { result ≡ unique_holds (json_of_layer x.entry) (json_of_layer v.entry) }
{
    match x {
        Layer::Boolean(true) => match v {
            Layer::List(items) => are_distinct(items),
            _ => true,
        },
        _ => true,
    }
}
