//! Which part of a configuration's text is at fault.

ghost use Rattle.std.specs.Prelude.{◌≡◌, MatchOption, IfOk};
ghost use Rattle.serde_json.specs.View.{view};
ghost use Rattle.configuration_json.specs.Form.{HasForm};
ghost use Rattle.configuration_json.specs.Parts.{IsFaultyIn, IsFaultyPart, part_help};

use crate::from_json::MEMBERS;
use crate::members::{
    collect_at, holds_texts_at, is_empty_list_at, is_empty_object_at, is_object_of, whole_at,
};
use crate::renames::renames_at;
use crate::value::value_of;
use serde_json::Value;
use std::alloc::{AllocError, Global};

/// What the text as a whole is, and which members its object has.
const MEMBERS_HELP: &str =
    "it is a JSON object of the members version, limit, copies, schema_collect, renames, \
    aliases, schemas, defaults";

/// A part of a configuration's text.
#[derive(Clone, Copy, Debug, PartialEq, Eq)]
pub enum ConfigPart {
    /// The text, as JSON of at most 1,048,576 bytes.
    Text,
    /// That the value is an object, and the names of its members.
    Members,
    /// The member `version`.
    Version,
    /// The member `limit`.
    Limit,
    /// The member `copies`.
    Copies,
    /// The member `schema_collect`.
    SchemaCollect,
    /// The member `renames`.
    Renames,
    /// The member `aliases`.
    Aliases,
    /// The member `schemas`.
    Schemas,
    /// The member `defaults`.
    Defaults,
}

/// The first part of the text that is not of the stated form, or none where all are. Want of memory is its only error.
pub fn faulty_part(alloc: Global, bytes: &[u8]) -> Result<Option<ConfigPart>, AllocError>
    ensures { IfOk result (IsFaultyPart bytes.now) }
{
    match value_of(alloc, bytes)? {
        Some(value) => faulty_in(alloc, &value),
        None => Ok(Some(ConfigPart::Text)),
    }
}

/// The first part of the value that is not of the stated form, or none where all are.
fn faulty_in(alloc: Global, value: &Value) -> Result<Option<ConfigPart>, AllocError>
    ensures { IfOk result (λ found. MatchOption found (HasForm (view value.now))
        (IsFaultyIn (view value.now))) }
{
    if !is_object_of(value, &MEMBERS) {
        return Ok(Some(ConfigPart::Members));
    }
    let Some(_version) = whole_at(value, "version", 1, 1, 1) else {
        return Ok(Some(ConfigPart::Version));
    };
    let Some(_limit) = whole_at(value, "limit", 1, 4096, 1000) else {
        return Ok(Some(ConfigPart::Limit));
    };
    let Some(_copies) = whole_at(value, "copies", 1, 100_000, 10_000) else {
        return Ok(Some(ConfigPart::Copies));
    };
    let Some(_collect) = collect_at(value, "schema_collect") else {
        return Ok(Some(ConfigPart::SchemaCollect));
    };
    let Some(_renames) = renames_at(alloc, value, "renames")? else {
        return Ok(Some(ConfigPart::Renames));
    };
    if !holds_texts_at(value, "aliases") {
        return Ok(Some(ConfigPart::Aliases));
    }
    if !is_empty_object_at(value, "schemas") {
        return Ok(Some(ConfigPart::Schemas));
    }
    if !is_empty_list_at(value, "defaults") {
        return Ok(Some(ConfigPart::Defaults));
    }
    Ok(None)
}

/// What the part may be, for a line of help.
pub fn part_help(part: ConfigPart) -> &'static str
    ensures { result.now ≡ part_help part }
{
    match part {
        ConfigPart::Text | ConfigPart::Members => MEMBERS_HELP,
        ConfigPart::Version => "`version` is 1",
        ConfigPart::Limit => "`limit` is a whole number from 1 to 4096",
        ConfigPart::Copies => "`copies` is a whole number from 1 to 100000",
        ConfigPart::SchemaCollect => "`schema_collect` is \"NonInlined\" or \"All\"",
        ConfigPart::Renames => {
            "`renames` is a list of rows, each an object with the texts rule, place, from and to"
        }
        ConfigPart::Aliases => "`aliases` is an object of texts",
        ConfigPart::Schemas => "`schemas` is an empty object",
        ConfigPart::Defaults => "`defaults` is an empty list",
    }
}
