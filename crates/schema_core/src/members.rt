//! Members of serde_json's objects, by their names.

ghost use Rattle.std.specs.Prelude.{◌≡◌, [], ◌∷◌, Option, OnOk, IfOk, option_map};
ghost use Rattle.serde_json.specs.Data.{put as put_data, string};
ghost use Rattle.serde_json.specs.View.{view, members_view};
ghost use Rattle.acceptance.specs.Json.{Json as Meant, boolean, number, text as json_text, map_of};
ghost use Rattle.acceptance.specs.Data.{data_of};
ghost use Rattle.schema_core.specs.Form.{true_form};
ghost use Rattle.schema_core.specs.Members.{Puts};

use schema_trees::{Bound, Json};
use serde_json::{Map, Value};
use std::alloc::{AllocError, Global};
use texts::Text;

/// The value of a text.
pub(crate) fn text_value(alloc: Global, text: &str) -> Result<Value, AllocError>
    ensures { IfOk result (λ value. view value ≡ string text.now) }
{
    Ok(Value::String(String::from_str(alloc, text)?))
}

/// Puts the value at the name.
#[tactic(auto, using(crate::proofs::Puts::put_is))]
pub(crate) fn put(
    alloc: Global,
    members: &mut Map<String, Value>,
    name: &str,
    value: Value,
) -> Result<(), AllocError>
    ensures { OnOk result (members_view members.new.entries
        ≡ put_data name.now (view value) (members_view members.old.entries)) }
{
    members.insert(String::from_str(alloc, name)?, value)?;
    Ok(())
}

/// Puts the value at the name, where there is one.
pub(crate) fn put_given(
    alloc: Global,
    members: &mut Map<String, Value>,
    name: &str,
    value: Option<Value>,
) -> Result<(), AllocError>
    ensures { OnOk result ((given : Option Meant) → option_map view value ≡ option_map data_of given
        → Puts ((name.now, given) ∷ []) (members_view members.old.entries)
        (members_view members.new.entries)) }
{
    match value {
        Some(value) => {
            put(alloc, members, name, value)?;
            Ok(())
        }
        None => Ok(()),
    }
}

/// Puts the text at the name, where there is one.
pub(crate) fn put_text(
    alloc: Global,
    members: &mut Map<String, Value>,
    name: &str,
    text: &Option<Text>,
) -> Result<(), AllocError>
    ensures { OnOk result
        (Puts ((name.now, option_map json_text text.now) ∷ []) (members_view members.old.entries)
        (members_view members.new.entries)) }
{
    let value = match text {
        Some(text) => Some(text_value(alloc, text.as_str())?),
        None => None,
    };
    put_given(alloc, members, name, value)
}

/// Puts the value at the name, where there is one.
pub(crate) fn put_json(
    alloc: Global,
    members: &mut Map<String, Value>,
    name: &str,
    json: &Option<Json>,
) -> Result<(), AllocError>
    ensures { OnOk result
        (Puts ((name.now, json.now) ∷ []) (members_view members.old.entries)
        (members_view members.new.entries)) }
{
    let value = match json {
        Some(json) => Some(json.value().clone()?),
        None => None,
    };
    put_given(alloc, members, name, value)
}

/// Puts the truth value at the name, where there is one.
pub(crate) fn put_truth(
    alloc: Global,
    members: &mut Map<String, Value>,
    name: &str,
    truth: Option<bool>,
) -> Result<(), AllocError>
    ensures { OnOk result
        (Puts ((name.now, option_map boolean truth) ∷ []) (members_view members.old.entries)
        (members_view members.new.entries)) }
{
    let value = match truth {
        Some(truth) => Some(Value::Bool(truth)),
        None => None,
    };
    put_given(alloc, members, name, value)
}

/// Puts `true` at the name, where it holds.
pub(crate) fn put_true(
    alloc: Global,
    members: &mut Map<String, Value>,
    name: &str,
    holds: bool,
) -> Result<(), AllocError>
    ensures { OnOk result
        (Puts ((name.now, true_form holds) ∷ []) (members_view members.old.entries)
        (members_view members.new.entries)) }
{
    if holds {
        put_truth(alloc, members, name, Some(true))?;
    }
    Ok(())
}

/// Puts the number at the name, where there is one.
pub(crate) fn put_bound(
    alloc: Global,
    members: &mut Map<String, Value>,
    name: &str,
    bound: &Option<Bound>,
) -> Result<(), AllocError>
    ensures { OnOk result
        (Puts ((name.now, option_map number bound.now) ∷ []) (members_view members.old.entries)
        (members_view members.new.entries)) }
{
    let value = match bound {
        Some(bound) => Some(Value::Number(bound.number())),
        None => None,
    };
    put_given(alloc, members, name, value)
}

/// The object of one member.
#[tactic(auto, using(crate::proofs::Puts::data_put, crate::proofs::Puts::object_is))]
pub(crate) fn object_of(alloc: Global, name: &str, value: Value) -> Result<Value, AllocError>
    ensures { IfOk result (λ object. (j : Meant) → view value ≡ data_of j
        → view object ≡ data_of (map_of ((name.now, j) ∷ []))) }
{
    let mut members = Map::new(alloc);
    put(alloc, &mut members, name, value)?;
    Ok(Value::Object(members))
}
