//! The JSON of a schema.

ghost use Rattle.std.specs.Prelude.{◌≡◌, ◌∷◌, ◌++◌, [], codes, IfOk, OnOk, Some, option_map, map as map_list};
ghost use Rattle.serde_json.specs.View.{view, members_view, items_view};
ghost use Rattle.serde_json.specs.Data.{put as put_data};
ghost use Rattle.acceptance.specs.Json.{Json, text as json_text, number, list as json_list, put_given, put_all, no_members, map_of};
ghost use Rattle.acceptance.specs.Data.{data_of, members_data, items_data};
ghost use Rattle.schema_trees.specs.Schema.{schema_view, object_view, array_view, one_of_view, all_of_view, additional_view, array_items_view, optional_view, tree_views, named_views};
ghost use Rattle.schema_core.specs.Form.{form_by, fields_form, reference_fields, annotation_fields, bound_fields, schema_forms, part_form, value_items, values_form, schemas_form, property_forms, word_text, type_form, texts_form, required_form, entries_form, reference_text, array_word};
ghost use Rattle.schema_core.specs.Members.{Puts};

use crate::alternatives::Alternatives;
use crate::members::{
    put, put_bound, put_given, put_json, put_text, put_true, put_truth, text_value,
};
use schema_trees::{
    Additional, AllOfSchema, AnnotationKeywords, Annotations, Array, ArrayItems, Bounds, Json,
    Object, OneOfSchema, RefLeaf, Schema, SchemaTypeInner, Tree, TypeWord,
};
use serde_json::{Map, Value};
use std::alloc::{AllocError, Global};
use texts::{List, Text};

pub(crate) fn word_of(word: SchemaTypeInner) -> &'static str
    ensures { result.now ≡ word_text word }
{
    match word {
        SchemaTypeInner::Object => "object",
        SchemaTypeInner::String => "string",
        SchemaTypeInner::Integer => "integer",
        SchemaTypeInner::Number => "number",
        SchemaTypeInner::Boolean => "boolean",
        SchemaTypeInner::Array => "array",
        SchemaTypeInner::Null => "null",
    }
}

/// The value of `type`, where it says something.
fn type_value(alloc: Global, ty: TypeWord) -> Result<Option<Value>, AllocError>
    ensures { IfOk result (λ value. option_map view value ≡ option_map data_of (type_form ty)) }
{
    match ty {
        TypeWord::Any => Ok(None),
        TypeWord::One(word) => Ok(Some(text_value(alloc, word_of(word))?)),
        TypeWord::Nullable(word) => {
            let words = vec![in alloc;
                text_value(alloc, word_of(word))?,
                text_value(alloc, "null")?,
            ]?;
            Ok(Some(Value::Array(words)))
        }
    }
}

/// The values of the texts.
fn text_values(alloc: Global, texts: &[Text]) -> Result<Vec<Value>, AllocError>
    ensures { IfOk result (λ values. items_view values.items ≡ items_data (texts_form texts.now)) }
{
    let mut values = Vec::new(alloc);
    for text in texts {
        values.push(text_value(alloc, text.as_str())?)?;
    }
    Ok(values)
}

/// The value of `required`, where a name is required.
fn required_value(alloc: Global, required: &[Text]) -> Result<Option<Value>, AllocError>
    ensures { IfOk result
        (λ value. option_map view value ≡ option_map data_of (required_form required.now)) }
{
    if required.is_empty() {
        return Ok(None);
    }
    Ok(Some(Value::Array(text_values(alloc, required)?)))
}

/// The values of the values.
fn json_values(alloc: Global, jsons: &[Json]) -> Result<Vec<Value>, AllocError>
    ensures { IfOk result (λ values. items_view values.items ≡ items_data (value_items jsons.now)) }
{
    let mut values = Vec::new(alloc);
    for json in jsons {
        values.push(json.value().clone()?)?;
    }
    Ok(values)
}

/// The list of the values, where there is one.
fn jsons_value(alloc: Global, jsons: &Option<List<Json>>) -> Result<Option<Value>, AllocError>
    ensures { IfOk result
        (λ value. option_map view value ≡ option_map data_of (values_form jsons.now)) }
{
    match jsons {
        None => Ok(None),
        Some(jsons) => Ok(Some(Value::Array(json_values(alloc, jsons.as_slice())?))),
    }
}

/// The word of an array.
pub(crate) fn array_word(nullable: bool) -> TypeWord
    ensures { result ≡ array_word nullable }
{
    if nullable {
        TypeWord::Nullable(SchemaTypeInner::Array)
    } else {
        TypeWord::One(SchemaTypeInner::Array)
    }
}

/// Puts each keyword that is given at its name.
fn put_keywords(
    alloc: Global,
    members: &mut Map<String, Value>,
    keywords: &AnnotationKeywords,
) -> Result<(), AllocError>
    ensures { OnOk result
        (Puts (annotation_fields keywords.now) (members_view members.old.entries)
        (members_view members.new.entries)) }
{
    put_text(alloc, members, "title", &keywords.title)?;
    put_text(alloc, members, "description", &keywords.description)?;
    put_json(alloc, members, "default", &keywords.default)?;
    put_json(alloc, members, "example", &keywords.example)?;
    let examples = jsons_value(alloc, &keywords.examples)?;
    put_given(alloc, members, "examples", examples)?;
    put_truth(alloc, members, "deprecated", keywords.deprecated)?;
    put_truth(alloc, members, "readOnly", keywords.read_only)?;
    put_truth(alloc, members, "writeOnly", keywords.write_only)?;
    put_text(
        alloc,
        members,
        "contentEncoding",
        &keywords.content_encoding,
    )?;
    put_text(
        alloc,
        members,
        "contentMediaType",
        &keywords.content_media_type,
    )?;
    Ok(())
}

/// Puts each annotation that is given at its name.
fn put_annotations(
    alloc: Global,
    members: &mut Map<String, Value>,
    annotations: &Annotations,
) -> Result<(), AllocError>
    ensures { OnOk result
        (Puts (annotation_fields annotations.now) (members_view members.old.entries)
        (members_view members.new.entries)) }
{
    match annotations.said() {
        Some(said) => put_keywords(alloc, members, said),
        None => Ok(()),
    }
}

/// Puts each bound that is given at its name.
fn put_bounds(
    alloc: Global,
    members: &mut Map<String, Value>,
    bounds: &Bounds,
) -> Result<(), AllocError>
    ensures { OnOk result
        (Puts (bound_fields bounds.now) (members_view members.old.entries)
        (members_view members.new.entries)) }
{
    put_bound(alloc, members, "minimum", &bounds.minimum)
}

/// The value of a reference.
fn reference_value(alloc: Global, reference: &RefLeaf) -> Result<Value, AllocError>
    ensures { IfOk result
        (λ value. view value ≡ data_of (fields_form (reference_fields reference.now))) }
{
    let mut target = String::from_str(alloc, "#/components/schemas/")?;
    target.push_str(reference.name.as_str())?;
    let mut members = Map::new(alloc);
    put(alloc, &mut members, "$ref", Value::String(target))?;
    put_annotations(alloc, &mut members, &reference.annotations)?;
    Ok(Value::Object(members))
}

/// The JSON of a schema, with alternatives under the keyword `by`; so are those below.
#[cycle(value)]
pub(crate) fn schema_value(
    alloc: Global,
    schema: &Schema,
    by: Alternatives,
) -> Result<Value, AllocError>
    ensures { IfOk result (λ value. view value ≡ data_of (form_by by (schema_view schema.now))) }
{
    match schema {
        Tree::Object(object) => object_value(alloc, object, by),
        Tree::Array(array) => array_value(alloc, array, by),
        Tree::OneOf(one_of) => one_of_value(alloc, one_of, by),
        Tree::AllOf(all_of) => all_of_value(alloc, all_of, by),
        Tree::Leaf(reference) => reference_value(alloc, reference),
    }
}

#[cycle(value)]
fn object_value(
    alloc: Global,
    object: &Object<RefLeaf>,
    by: Alternatives,
) -> Result<Value, AllocError>
    ensures { IfOk result
        (λ value. view value ≡ data_of (form_by by (object_view (λ l. l) object.now))) }
{
    let mut members = Map::new(alloc);
    put_given(alloc, &mut members, "type", type_value(alloc, object.ty)?)?;
    put_text(alloc, &mut members, "format", &object.format)?;
    let enum_values = jsons_value(alloc, &object.enum_values)?;
    put_given(alloc, &mut members, "enum", enum_values)?;
    let properties = properties_value(alloc, object.properties.as_slice(), by)?;
    put_given(alloc, &mut members, "properties", properties)?;
    let additional = additional_value(alloc, &object.additional, by)?;
    put_given(alloc, &mut members, "additionalProperties", additional)?;
    let names = optional_value(alloc, &object.property_names, by)?;
    put_given(alloc, &mut members, "propertyNames", names)?;
    let required = required_value(alloc, object.required.as_slice())?;
    put_given(alloc, &mut members, "required", required)?;
    put_bounds(alloc, &mut members, &object.bounds)?;
    put_annotations(alloc, &mut members, &object.annotations)?;
    Ok(Value::Object(members))
}

/// The value of `properties`, where there is a property.
#[cycle(value)]
fn properties_value(
    alloc: Global,
    properties: &[(Text, Schema)],
    by: Alternatives,
) -> Result<Option<Value>, AllocError>
    ensures { IfOk result
        (λ value. option_map view value
        ≡ option_map data_of
        (entries_form (property_forms by (named_views (λ l. l) properties.now)))) }
{
    if properties.is_empty() {
        return Ok(None);
    }
    Ok(Some(Value::Object(property_values(alloc, properties, by)?)))
}

/// The schemas of the properties by their names.
#[cycle(value)]
fn property_values(
    alloc: Global,
    properties: &[(Text, Schema)],
    by: Alternatives,
) -> Result<Map<String, Value>, AllocError>
    ensures { IfOk result (λ values. members_view values.entries
        ≡ members_data
        (put_all (property_forms by (named_views (λ l. l) properties.now)) no_members)) }
{
    let mut values = Map::new(alloc);
    for property in properties {
        let value = schema_value(alloc, &property.1, by)?;
        put(alloc, &mut values, property.0.as_str(), value)?;
    }
    Ok(values)
}

/// The value of `additionalProperties`, where it says something.
#[cycle(value)]
fn additional_value(
    alloc: Global,
    additional: &Additional<RefLeaf>,
    by: Alternatives,
) -> Result<Option<Value>, AllocError>
    ensures { IfOk result
        (λ value. option_map view value
        ≡ option_map data_of (part_form by (additional_view (λ l. l) additional.now))) }
{
    match additional {
        Additional::Absent => Ok(None),
        Additional::Truth(truth) => Ok(Some(Value::Bool(*truth))),
        Additional::Of(schema) => Ok(Some(schema_value(alloc, schema, by)?)),
    }
}

/// The value of a schema that may be left out.
#[cycle(value)]
fn optional_value(
    alloc: Global,
    schema: &Option<Schema>,
    by: Alternatives,
) -> Result<Option<Value>, AllocError>
    ensures { IfOk result
        (λ value. option_map view value
        ≡ option_map data_of (part_form by (optional_view (λ l. l) schema.now))) }
{
    match schema {
        None => Ok(None),
        Some(schema) => Ok(Some(schema_value(alloc, schema, by)?)),
    }
}

/// The value of `items`.
#[cycle(value)]
fn items_value(
    alloc: Global,
    items: &ArrayItems<RefLeaf>,
    by: Alternatives,
) -> Result<Value, AllocError>
    ensures { IfOk result
        (λ value. Some (view value)
        ≡ option_map data_of (part_form by (array_items_view (λ l. l) items.now))) }
{
    match items {
        ArrayItems::False => Ok(Value::Bool(false)),
        ArrayItems::Each(schema) => schema_value(alloc, schema, by),
    }
}

/// The value of `prefixItems`, where there is a schema.
#[cycle(value)]
fn front_value(
    alloc: Global,
    schemas: &[Schema],
    by: Alternatives,
) -> Result<Option<Value>, AllocError>
    ensures { IfOk result
        (λ value. option_map view value
        ≡ option_map data_of (schemas_form (schema_forms by (tree_views (λ l. l) schemas.now)))) }
{
    if schemas.is_empty() {
        return Ok(None);
    }
    Ok(Some(Value::Array(schema_values(alloc, schemas, by)?)))
}

#[cycle(value)]
fn array_value(alloc: Global, array: &Array<RefLeaf>, by: Alternatives) -> Result<Value, AllocError>
    ensures { IfOk result
        (λ value. view value ≡ data_of (form_by by (array_view (λ l. l) array.now))) }
{
    let word = type_value(alloc, array_word(array.nullable))?;
    let mut members = Map::new(alloc);
    put_given(alloc, &mut members, "type", word)?;
    put_true(alloc, &mut members, "uniqueItems", array.unique)?;
    put_bound(alloc, &mut members, "maxItems", &array.max_items)?;
    put_bound(alloc, &mut members, "minItems", &array.min_items)?;
    let front = front_value(alloc, array.prefix_items.as_slice(), by)?;
    put_given(alloc, &mut members, "prefixItems", front)?;
    let rest = items_value(alloc, &array.items, by)?;
    put_given(alloc, &mut members, "items", Some(rest))?;
    put_annotations(alloc, &mut members, &array.annotations)?;
    Ok(Value::Object(members))
}

#[cycle(value)]
fn one_of_value(
    alloc: Global,
    one_of: &OneOfSchema<RefLeaf>,
    by: Alternatives,
) -> Result<Value, AllocError>
    ensures { IfOk result
        (λ value. view value ≡ data_of (form_by by (one_of_view (λ l. l) one_of.now))) }
{
    let mut members = Map::new(alloc);
    let items = schema_values(alloc, one_of.items.as_slice(), by)?;
    put(alloc, &mut members, by.word(), Value::Array(items))?;
    put_annotations(alloc, &mut members, &one_of.annotations)?;
    Ok(Value::Object(members))
}

#[cycle(value)]
fn all_of_value(
    alloc: Global,
    all_of: &AllOfSchema<RefLeaf>,
    by: Alternatives,
) -> Result<Value, AllocError>
    ensures { IfOk result
        (λ value. view value ≡ data_of (form_by by (all_of_view (λ l. l) all_of.now))) }
{
    let mut members = Map::new(alloc);
    let items = schema_values(alloc, all_of.items.as_slice(), by)?;
    put(alloc, &mut members, "allOf", Value::Array(items))?;
    put_annotations(alloc, &mut members, &all_of.annotations)?;
    Ok(Value::Object(members))
}

#[cycle(value)]
fn schema_values(
    alloc: Global,
    schemas: &[Schema],
    by: Alternatives,
) -> Result<Vec<Value>, AllocError>
    ensures { IfOk result (λ values. items_view values.items
        ≡ items_data (schema_forms by (tree_views (λ l. l) schemas.now))) }
{
    let mut values = Vec::new(alloc);
    for schema in schemas {
        values.push(schema_value(alloc, schema, by)?)?;
    }
    Ok(values)
}
