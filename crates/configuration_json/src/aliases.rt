//! The aliases that JSON says: names, and the types that they stand for.

ghost use Rattle.std.specs.Prelude.{◌≡◌, [], length, IfOk, IfSome, IsSomeAnd};
ghost use Rattle.serde_json.specs.Find.{get};
ghost use Rattle.serde_json.specs.View.{view as view_of, members_view};
ghost use Rattle.diag.specs.Refusal.{Refuses};
ghost use Rattle.written_types.specs.Written.{Written, written_view};
ghost use Rattle.configuration.specs.Aliases.{IsBadRow};
ghost use Rattle.configuration.specs.Stored.{aliases_of};
ghost use Rattle.configuration_json.specs.Form.{SaysType, AreMembers, AreAliases, SaysOrDefault, HoldsTexts, LackType, LacksType};

use configuration::{aliased_type, bad_row};
use diag::DeriveError;
use serde_json::{Map, Value};
use std::alloc::Global;
use texts::{List, Text};
use written_types::WrittenType;

/// The type that the value says. A value that says none is refused with the kind `BadRow`.
fn type_of(alloc: Global, value: &Value) -> Result<WrittenType, DeriveError>
    ensures said { IfOk result (λ ty. SaysType (view_of value.now) (written_view ty)) }
    ensures refused { Refuses result
        (λ e. (IsBadRow e × ((t : Written) → ¬ SaysType (view_of value.now) t))) }
{
    match value.as_str() {
        Some(text) => aliased_type(alloc, text),
        None => Err(bad_row(alloc)),
    }
}

/// The names of the members, and the types that they say.
fn rows_of(
    alloc: Global,
    members: &Map<String, Value>,
) -> Result<(List<Text>, List<WrittenType>), DeriveError>
    ensures said { IfOk result
        (λ rows. (AreMembers (members_view members.now.entries) (aliases_of rows.0 rows.1)
        × (length rows.0 ≡ length rows.1))) }
    ensures refused { Refuses result
        (λ e. (IsBadRow e × LackType (members_view members.now.entries))) }
{
    let mut names = List::new(alloc);
    let mut types = List::new(alloc);
    for (name, value) in members.iter() {
        types.push(type_of(alloc, value)?)?;
        names.push(Text::new(alloc, name.as_str())?)?;
    }
    Ok((names, types))
}

/// The names of the aliases of the member, and their types; there are none without the member.
pub fn aliases_at(
    alloc: Global,
    value: &Value,
    name: &str,
) -> Result<(List<Text>, List<WrittenType>), DeriveError>
    requires { IfSome (get name.now (view_of value.now)) HoldsTexts }
    ensures said { IfOk result (λ rows.
        (SaysOrDefault AreAliases [] (get name.now (view_of value.now)) (aliases_of rows.0 rows.1)
        × (length rows.0 ≡ length rows.1))) }
    ensures refused { Refuses result
        (λ e. (IsBadRow e × IsSomeAnd (get name.now (view_of value.now)) LacksType)) }
{
    let Some(member) = value.get(name) else {
        return Ok((List::new(alloc), List::new(alloc)));
    };
    match member.as_object() {
        Some(members) => rows_of(alloc, members),
        None => unreachable!(),
    }
}
