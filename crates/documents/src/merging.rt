//! Texts of schemas merged into an OpenAPI document.

ghost use Rattle.std.specs.Prelude.{◌≡◌, false, option_map, string_bytes, IfOk, OnOk};
ghost use Rattle.serde_json.specs.Data.{Data, Members, object, put as put_data};
ghost use Rattle.serde_json.specs.Find.{get_member};
ghost use Rattle.serde_json.specs.View.{view, members_view};
ghost use Rattle.documents.specs.Merge.{own, taken, with_each, IsMerged};
ghost use Rattle.documents.specs.Text.{IsJsonOf};
ghost use Rattle.documents.specs.Written.{AreTextsOf, AreNamedInOrder};

use crate::components::into_members;
use crate::object_text::{member_texts, object_text};
use crate::written::Written;
use serde_json::{Map, Value};
use std::alloc::{AllocError, Global};
use std::collections::BTreeMap;
use texts::{List, Text};

/// What merging gives.
#[derive(Debug, Drop)]
pub enum Merged {
    /// The OpenAPI document with the new schemas among its own.
    Document(Written),
    /// No OpenAPI document: it, its `components` or the `schemas` in them are no object.
    NoOpenApi,
    /// A new name that the document has a schema under: the first of them.
    Taken(Text),
}

/// Puts the value under the name, and gives the one that stood there.
#[tactic(auto, using(crate::proofs::MergeLaws::put_is, crate::proofs::MergeLaws::found))]
fn replace(
    members: &mut Map<String, Value>,
    name: String,
    value: Value,
) -> Result<Option<Value>, AllocError>
    ensures old { IfOk result (λ old. option_map view old
        ≡ get_member (string_bytes name) (members_view members.old.entries)) }
    ensures new { OnOk result (members_view members.new.entries
        ≡ put_data (string_bytes name) (view value) (members_view members.old.entries)) }
{
    Ok(members.insert(name, value)?)
}

/// Takes the members of the object under the name, which are none where nothing stands there, and leaves null in its place.
/// Where something else stands there, there are none to take.
fn take_members(
    alloc: Global,
    members: &mut Map<String, Value>,
    name: &str,
) -> Result<Option<Map<String, Value>>, AllocError>
    ensures own { IfOk result (λ taken. option_map (λ m. members_view m.entries) taken
        ≡ own name.now (members_view members.old.entries)) }
    ensures others { OnOk result
        ((value : Data) → put_data name.now value (members_view members.new.entries)
        ≡ put_data name.now value (members_view members.old.entries)) }
{
    match replace(members, String::from_str(alloc, name)?, Value::Null)? {
        Some(value) => Ok(into_members(value)),
        None => Ok(Some(Map::new(alloc))),
    }
}

/// The first of the new names that is taken.
fn taken_name(
    alloc: Global,
    schemas: &Map<String, Value>,
    new: &List<(Text, Text)>,
) -> Result<Option<Text>, AllocError>
    ensures { IfOk result (λ name. (values : Members) → AreTextsOf values new.now
        → name ≡ taken (members_view schemas.now.entries) values) }
{
    for (name, _text) in new.as_slice() {
        if schemas.contains_key(name.as_str()) {
            return Ok(Some(name.copy(alloc)?));
        }
    }
    Ok(None)
}

/// Puts each of the new texts under its name.
fn put_each(
    alloc: Global,
    texts: &mut BTreeMap<Text, Text>,
    new: List<(Text, Text)>,
) -> Result<(), AllocError>
    ensures { OnOk result ((schemas : Members) → (values : Members)
        → AreTextsOf schemas texts.old.entries → AreTextsOf values new
        → AreTextsOf (with_each schemas values) texts.new.entries) }
{
    for (name, text) in new.as_slice() {
        texts.insert(name.copy(alloc)?, text.copy(alloc)?)?;
    }
    Ok(())
}

/// The text of the object of the members, with the other text under the name.
fn object_text_with(
    alloc: Global,
    members: Map<String, Value>,
    name: &str,
    text: Text,
) -> Result<Text, AllocError>
    ensures { IfOk result (λ json. (value : Data) → IsJsonOf false value text
        → IsJsonOf false (object (put_data name.now value (members_view members.entries))) json) }
{
    let mut texts = member_texts(alloc, &members)?;
    texts.insert(Text::new(alloc, name)?, text)?;
    object_text(alloc, &texts)
}

/// The texts, in byte order of their names.
fn listed(alloc: Global, texts: BTreeMap<Text, Text>) -> Result<List<(Text, Text)>, AllocError>
    ensures items { IfOk result (λ list. list ≡ texts.entries) }
    ensures order { IfOk result (λ list. AreNamedInOrder list) }
{
    let mut list = List::new(alloc);
    for (name, text) in texts {
        list.push((name, text))?;
    }
    Ok(list)
}

/// The OpenAPI document with the new schemas, by name, among its own: their texts, and that of the whole. Nothing else of
/// the document changes.
pub fn merge(alloc: Global, api: Value, new: List<(Text, Text)>) -> Result<Merged, AllocError>
    ensures { IfOk result (λ merged. (schemas : Members) → AreTextsOf schemas new
        → IsMerged (view api) schemas merged) }
{
    let Value::Object(mut api) = api else {
        return Ok(Merged::NoOpenApi);
    };
    let Some(mut components) = take_members(alloc, &mut api, "components")? else {
        return Ok(Merged::NoOpenApi);
    };
    let Some(schemas) = take_members(alloc, &mut components, "schemas")? else {
        return Ok(Merged::NoOpenApi);
    };
    if let Some(name) = taken_name(alloc, &schemas, &new)? {
        return Ok(Merged::Taken(name));
    }
    let mut texts = member_texts(alloc, &schemas)?;
    put_each(alloc, &mut texts, new)?;
    let all = object_text(alloc, &texts)?;
    let inner = object_text_with(alloc, components, "schemas", all)?;
    let json = object_text_with(alloc, api, "components", inner)?;
    let schemas = listed(alloc, texts)?;
    Ok(Merged::Document(Written { json, schemas }))
}
