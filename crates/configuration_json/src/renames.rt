//! The rows of a configuration's renames.

ghost use Rattle.std.specs.Prelude.{◌≡◌, ◌≢◌, List, [], MatchOption, IfOk, Some, codes};
ghost use Rattle.serde_json.specs.Data.{string};
ghost use Rattle.serde_json.specs.Find.{get};
ghost use Rattle.serde_json.specs.View.{view, items_view};
ghost use Rattle.diag.specs.RenameRules.{name_of};
ghost use Rattle.diag.specs.declared.rename_rule.RenameRule.{RenameRule as AnyRule};
ghost use Rattle.diag.specs.declared.rename_row.RenamePlace.{RenamePlace as AnyPlace};
ghost use Rattle.diag.specs.declared.rename_row.RenameRow.{RenameRow as AnyRow};
ghost use Rattle.configuration.specs.Configuration.{place_name};
ghost use Rattle.configuration_json.specs.Form.{SaysOrDefault, IsRow, AreRows, IsRenames};

use crate::members::{is_object_of, text_at};
use diag::{RenamePlace, RenameRow, RenameRule, RenameTable};
use serde_json::Value;
use std::alloc::{AllocError, Global};
use std::str::FromStr;
use texts::Text;

/// The names of a row's members.
const ROW_MEMBERS: [&str; 4] = ["rule", "place", "from", "to"];

/// The rule of a row, where the row names one.
fn rule_at(value: &Value) -> Option<RenameRule>
    ensures { MatchOption result ((rule : AnyRule)
        → get (codes "rule") (view value.now) ≢ Some (string (name_of rule)))
        (λ rule. get (codes "rule") (view value.now) ≡ Some (string (name_of rule))) }
{
    match text_at(value, "rule") {
        Some(name) => match RenameRule::from_str(name) {
            Ok(rule) => Some(rule),
            Err(_) => None,
        },
        None => None,
    }
}

/// The place of a row, where the row names one.
fn place_at(value: &Value) -> Option<RenamePlace>
    ensures { MatchOption result ((place : AnyPlace)
        → get (codes "place") (view value.now) ≢ Some (string (place_name place)))
        (λ place. get (codes "place") (view value.now) ≡ Some (string (place_name place))) }
{
    match text_at(value, "place") {
        Some("field") => Some(RenamePlace::Field),
        Some("variant") => Some(RenamePlace::Variant),
        _ => None,
    }
}

/// The row that the value says, where it says one.
fn row_of(alloc: Global, value: &Value) -> Result<Option<RenameRow>, AllocError>
    ensures { IfOk result
        (λ found. MatchOption found ((row : AnyRow) → ¬ IsRow (view value.now) row)
        (IsRow (view value.now))) }
{
    if !is_object_of(value, &ROW_MEMBERS) {
        return Ok(None);
    }
    let Some(rule) = rule_at(value) else {
        return Ok(None);
    };
    let Some(place) = place_at(value) else {
        return Ok(None);
    };
    let Some(from) = text_at(value, "from") else {
        return Ok(None);
    };
    let Some(to) = text_at(value, "to") else {
        return Ok(None);
    };
    let from = Text::new(alloc, from)?;
    let to = Text::new(alloc, to)?;
    Ok(Some(RenameRow {
        rule,
        place,
        from,
        to,
    }))
}

/// The table of the rows that the items say, where each says one.
fn table_of(alloc: Global, items: &[Value]) -> Result<Option<RenameTable>, AllocError>
    ensures { IfOk result
        (λ found. MatchOption found ((rows : List AnyRow) → ¬ AreRows (items_view items.now) rows)
        (AreRows (items_view items.now))) }
{
    let mut table = RenameTable::new(alloc);
    for item in items {
        match row_of(alloc, item)? {
            Some(row) => table.push(row)?,
            None => return Ok(None),
        }
    }
    Ok(Some(table))
}

/// The table that the value says, where it is a list of rows.
fn renames_of(alloc: Global, value: &Value) -> Result<Option<RenameTable>, AllocError>
    ensures { IfOk result
        (λ found. MatchOption found ((rows : List AnyRow) → ¬ IsRenames (view value.now) rows)
        (IsRenames (view value.now))) }
{
    match value.as_array() {
        Some(items) => table_of(alloc, items),
        None => Ok(None),
    }
}

/// The table of the member, which is empty without the member.
pub fn renames_at(
    alloc: Global,
    value: &Value,
    name: &str,
) -> Result<Option<RenameTable>, AllocError>
    ensures { IfOk result
        (λ found. MatchOption found ((rows : List AnyRow)
        → ¬ SaysOrDefault IsRenames [] (get name.now (view value.now)) rows)
        (SaysOrDefault IsRenames [] (get name.now (view value.now)))) }
{
    match value.get(name) {
        Some(member) => renames_of(alloc, member),
        None => Ok(Some(RenameTable::new(alloc))),
    }
}
