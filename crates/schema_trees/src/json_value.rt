ghost use Rattle.std.specs.Prelude.{◌≡◌, true, false, IfOk, MatchResult, string_bytes};
ghost use Rattle.serde_json.specs.View.{view, number_view, items_view, members_view};
ghost use Rattle.serde_json.specs.Find.{is_float};
ghost use Rattle.serde_json.specs.Written.{has_float, items_have_float, members_have_float};
ghost use Rattle.acceptance.specs.Json.{null as json_null, number as json_number, text as json_text};
ghost use Rattle.acceptance.specs.Data.{data_of};
ghost use Rattle.schema_trees.specs.Held.{IsHeld, HoldsNumber, HoldsValue, HoldsItems, HoldsMembers};

use crate::bound::Bound;
use serde_json::{Map, Number, Value};
use std::alloc::{AllocError, Global};
use std::marker::Model;

/// A value of `serde_json` without floats.
#[derive(Debug, Drop)]
pub struct Json {
    value: Value,
}

impl Model for Json {
    ghost use Rattle.serde_json.specs.View.{view as view_of};
    ghost use Rattle.acceptance.specs.Json.{Json as Meant};
    ghost use Rattle.acceptance.specs.Data.{json_of};
    ghost use Rattle.schema_trees.specs.Held.{HoldsValue};
    ghost use Rattle.schema_trees.specs.proved.JsonCode.{coded_json};

    ghost Value = { Meant };

    ghost coded = { coded_json };

    ghost view = { λ json. json_of (view_of json.value) };

    ghost invariant = { λ json. HoldsValue (view_of json.value) };
}

impl Json {
    /// The value, or the value back, exactly where it holds a float at any depth. It takes no memory.
    pub fn new(value: Value) -> Result<Json, Value>
        ensures { MatchResult result (λ json. view value ≡ data_of json) (λ back. (back ≡ value)
            × (has_float (view value) ≡ true)) }
    {
        if holds_float(&value) {
            return Err(value);
        }
        Ok(Json { value })
    }

    /// Null.
    pub fn null() -> Json
        ensures { result ≡ json_null }
    {
        Json { value: Value::Null }
    }

    /// The text.
    pub fn text(text: String) -> Json
        ensures { result ≡ json_text (string_bytes text) }
    {
        Json {
            value: Value::String(text),
        }
    }

    /// The number.
    pub fn number(number: Bound) -> Json
        ensures { result ≡ json_number number }
    {
        Json {
            value: Value::Number(number.number()),
        }
    }

    /// The value as `serde_json` holds it.
    pub fn value(&self) -> &Value
        ensures value { view result.now ≡ data_of self.now }
        ensures held { IsHeld self.now }
    {
        &self.value
    }

    /// Another value that is equal.
    pub fn copy(&self, alloc: Global) -> Result<Json, AllocError>
        ensures { IfOk result (λ copy. copy ≡ self.now) }
    {
        let value = self.value.clone()?;
        Ok(Json { value })
    }
}

/// Whether the number is a float: it is neither a `u64` nor an `i64`.
fn is_float_number(number: &Number) -> bool
    ensures float { result ≡ is_float (number_view number.now) }
    ensures held { result ≡ false → HoldsNumber (number_view number.now) }
{
    if let Some(_whole) = number.as_u64() {
        return false;
    }
    if let Some(_whole) = number.as_i64() {
        return false;
    }
    true
}

/// Whether the value holds a float at any depth.
#[cycle(float)]
fn holds_float(value: &Value) -> bool
    ensures float { result ≡ has_float (view value.now) }
    ensures held { result ≡ false → HoldsValue (view value.now) }
{
    match value {
        Value::Null | Value::Bool(_) | Value::String(_) => false,
        Value::Number(number) => is_float_number(number),
        Value::Array(items) => items_hold_float(items),
        Value::Object(members) => members_hold_float(members),
    }
}

#[cycle(float)]
fn items_hold_float(items: &[Value]) -> bool
    ensures float { result ≡ items_have_float (items_view items.now) }
    ensures held { result ≡ false → HoldsItems (items_view items.now) }
{
    for item in items {
        if holds_float(item) {
            return true;
        }
    }
    false
}

#[cycle(float)]
fn members_hold_float(members: &Map<String, Value>) -> bool
    ensures float { result ≡ members_have_float (members_view members.now.entries) }
    ensures held { result ≡ false → HoldsMembers (members_view members.now.entries) }
{
    for (_key, member) in members.iter() {
        if holds_float(member) {
            return true;
        }
    }
    false
}
