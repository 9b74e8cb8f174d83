//! Schemas as text.

ghost use Rattle.std.specs.Prelude.{◌≡◌, ◌∷◌, [], codes, true, false, Some, IfOk, OnOk, string_bytes, map as map_list};
ghost use Rattle.schema_core.specs.declared.alternatives.Alternatives.TheVariants.{OneOf, AnyOf};
ghost use Rattle.acceptance.specs.Json.{list as json_list, map_of};
ghost use Rattle.schema_core.specs.Form.{entries_form, fields_form, form_by, part_form, property_forms, reference_fields, required_form, schema_forms, schemas_form, type_form};
ghost use Rattle.schema_trees.specs.Schema.{bind, bind_part, bind_properties, bind_schemas, tree_view, object_view, array_view, one_of_view, all_of_view, additional_view, array_items_view, optional_view, tree_views, named_views};
ghost use Rattle.schema_core.specs.Writes.{Writes, WritesAt, WritesValue, WritesItems, places_from};

use crate::alternatives::Alternatives;
use crate::annotation_text::{
    push_annotations, push_examples, push_first_annotations, push_read_only, push_title,
    push_write_only,
};
use crate::form::{array_word, word_of};
use crate::pushes::{
    push_bound, push_comma, push_jsons, push_key, push_text, push_texts, push_true, push_truth,
    push_words,
};
use crate::write_leaf::WriteLeaf;
use schema_trees::{
    Additional, AllOfSchema, Array, ArrayItems, Object, OneOfSchema, RefLeaf, Tree, TypeWord,
};
use std::alloc::{AllocError, Global};
use std::collections::BTreeMap;
use texts::Text;

/// Adds the member `required`, where a name is required.
pub(crate) fn push_required(
    alloc: Global,
    text: &mut String,
    later: bool,
    required: &[Text],
) -> Result<bool, AllocError>
    ensures { IfOk result (λ went. Writes ((codes "required", required_form required.now) ∷ [])
        later (string_bytes text.old) went (string_bytes text.new)) }
{
    if required.is_empty() {
        return Ok(later);
    }
    push_key(text, later, "\"required\":[")?;
    push_texts(alloc, text, required)?;
    text.push_str("]")?;
    Ok(true)
}

/// Adds the member `type`, where it says something.
pub(crate) fn push_type(text: &mut String, later: bool, ty: TypeWord) -> Result<bool, AllocError>
    ensures { IfOk result (λ went. Writes ((codes "type", type_form ty) ∷ []) later
        (string_bytes text.old) went (string_bytes text.new)) }
{
    match ty {
        TypeWord::Any => Ok(later),
        TypeWord::One(word) => {
            push_key(text, later, "\"type\":\"")?;
            text.push_str(word_of(word))?;
            text.push_str("\"")?;
            Ok(true)
        }
        TypeWord::Nullable(word) => {
            push_key(text, later, "\"type\":[\"")?;
            text.push_str(word_of(word))?;
            text.push_str("\",\"null\"]")?;
            Ok(true)
        }
    }
}

/// The places of the properties by their names, in byte order; of equal names the last counts.
fn property_order<'a, L>(
    alloc: Global,
    properties: &'a [(Text, Tree<L>)],
) -> Result<BTreeMap<&'a str, usize>, AllocError>
    ensures { IfOk result
        (λ order. map_list (λ e. (e.0.now, e.1)) order.entries
        ≡ places_from 0 (map_list (λ p. p.0) properties.now) []) }
{
    let mut order = BTreeMap::new(alloc);
    for i in 0..properties.len() {
        order.insert(properties[i].0.as_str(), i)?;
    }
    Ok(order)
}

/// Adds the text of a reference.
pub(crate) fn push_reference(
    alloc: Global,
    text: &mut String,
    reference: &RefLeaf,
) -> Result<(), AllocError>
    ensures { OnOk result (WritesValue (fields_form (reference_fields reference.now))
        (string_bytes text.old) (string_bytes text.new)) }
{
    let mut target = String::from_str(alloc, "#/components/schemas/")?;
    target.push_str(reference.name.as_str())?;
    text.push_str("{\"$ref\":")?;
    push_words(alloc, text, target.as_str())?;
    push_annotations(alloc, text, true, &reference.annotations)?;
    text.push_str("}")?;
    Ok(())
}

/// Adds the text of a schema, with alternatives under the keyword `by`; so do those below.
#[cycle(text)]
pub(crate) fn push_schema<W: WriteLeaf>(
    alloc: Global,
    text: &mut String,
    schema: &Tree<W::Leaf>,
    writer: &W,
    by: Alternatives,
) -> Result<(), AllocError>
    requires { W.ready by writer.now }
    ensures { OnOk result (WritesValue (form_by by
        (bind (W.put writer.now) (tree_view W.meaning schema.now))) (string_bytes text.old)
        (string_bytes text.new)) }
{
    match schema {
        Tree::Object(object) => push_object(alloc, text, object, writer, by),
        Tree::Array(array) => push_array(alloc, text, array, writer, by),
        Tree::OneOf(one_of) => push_alternatives(alloc, text, one_of, writer, by),
        Tree::AllOf(all_of) => push_all_of(alloc, text, all_of, writer, by),
        Tree::Leaf(leaf) => writer.push_leaf(alloc, text, leaf, by),
    }
}

#[cycle(text)]
fn push_object<W: WriteLeaf>(
    alloc: Global,
    text: &mut String,
    object: &Object<W::Leaf>,
    writer: &W,
    by: Alternatives,
) -> Result<(), AllocError>
    requires { W.ready by writer.now }
    ensures { OnOk result (WritesValue (form_by by
        (bind (W.put writer.now) (object_view W.meaning object.now))) (string_bytes text.old)
        (string_bytes text.new)) }
{
    let annotations = &object.annotations;
    text.push_str("{")?;
    let later = push_additional(alloc, text, &object.additional, writer, by)?;
    let later = push_first_annotations(alloc, text, later, annotations)?;
    let later = push_jsons(alloc, text, later, "\"enum\":", &object.enum_values)?;
    let later = push_examples(alloc, text, later, annotations)?;
    let later = push_text(alloc, text, later, "\"format\":", &object.format)?;
    let later = push_bound(alloc, text, later, "\"minimum\":", &object.bounds.minimum)?;
    let later = push_properties(alloc, text, later, object.properties.as_slice(), writer, by)?;
    let later = push_names(alloc, text, later, &object.property_names, writer, by)?;
    let later = push_read_only(text, later, annotations)?;
    let later = push_required(alloc, text, later, object.required.as_slice())?;
    let later = push_title(alloc, text, later, annotations)?;
    let later = push_type(text, later, object.ty)?;
    push_write_only(text, later, annotations)?;
    text.push_str("}")?;
    Ok(())
}

/// Adds the member `additionalProperties` as the first, where it says something.
#[cycle(text)]
fn push_additional<W: WriteLeaf>(
    alloc: Global,
    text: &mut String,
    additional: &Additional<W::Leaf>,
    writer: &W,
    by: Alternatives,
) -> Result<bool, AllocError>
    requires { W.ready by writer.now }
    ensures { IfOk result (λ went. Writes ((
      codes "additionalProperties",
      part_form by (bind_part
          (W.put writer.now) (additional_view W.meaning additional.now)),
    ) ∷ []) false
        (string_bytes text.old) went (string_bytes text.new)) }
{
    match additional {
        Additional::Absent => Ok(false),
        Additional::Truth(truth) => {
            push_truth(text, false, "\"additionalProperties\":", Some(*truth))
        }
        Additional::Of(schema) => {
            text.push_str("\"additionalProperties\":")?;
            push_schema(alloc, text, schema, writer, by)?;
            Ok(true)
        }
    }
}

/// Adds the member `propertyNames`, where it says something.
#[cycle(text)]
fn push_names<W: WriteLeaf>(
    alloc: Global,
    text: &mut String,
    later: bool,
    names: &Option<Tree<W::Leaf>>,
    writer: &W,
    by: Alternatives,
) -> Result<bool, AllocError>
    requires { W.ready by writer.now }
    ensures { IfOk result (λ went. Writes ((
      codes "propertyNames",
      part_form by (bind_part
          (W.put writer.now) (optional_view W.meaning names.now)),
    ) ∷ []) later (string_bytes text.old)
        went (string_bytes text.new)) }
{
    match names {
        None => Ok(later),
        Some(schema) => {
            push_key(text, later, "\"propertyNames\":")?;
            push_schema(alloc, text, schema, writer, by)?;
            Ok(true)
        }
    }
}

/// Adds the member `properties`, where there is a property.
#[cycle(text)]
fn push_properties<W: WriteLeaf>(
    alloc: Global,
    text: &mut String,
    later: bool,
    properties: &[(Text, Tree<W::Leaf>)],
    writer: &W,
    by: Alternatives,
) -> Result<bool, AllocError>
    requires { W.ready by writer.now }
    ensures { IfOk result (λ went. Writes ((
      codes "properties",
      entries_form (property_forms by
          (bind_properties (W.put writer.now) (named_views W.meaning properties.now))),
    ) ∷ []) later
        (string_bytes text.old) went (string_bytes text.new)) }
{
    if properties.is_empty() {
        return Ok(later);
    }
    push_key(text, later, "\"properties\":")?;
    push_members(alloc, text, properties, writer, by)?;
    Ok(true)
}

/// Adds the object of the properties.
#[cycle(text)]
fn push_members<W: WriteLeaf>(
    alloc: Global,
    text: &mut String,
    properties: &[(Text, Tree<W::Leaf>)],
    writer: &W,
    by: Alternatives,
) -> Result<(), AllocError>
    requires { W.ready by writer.now }
    ensures { OnOk result (WritesValue (map_of (property_forms by (bind_properties
        (W.put writer.now) (named_views W.meaning properties.now)))) (string_bytes text.old)
        (string_bytes text.new)) }
{
    let order = property_order(alloc, properties)?;
    text.push_str("{")?;
    let mut later = false;
    for (name, place) in order.iter() {
        push_comma(text, later)?;
        push_words(alloc, text, name)?;
        text.push_str(":")?;
        push_schema(alloc, text, &properties[*place].1, writer, by)?;
        later = true;
    }
    text.push_str("}")?;
    Ok(())
}

/// Adds the member `items`.
#[cycle(text)]
fn push_items<W: WriteLeaf>(
    alloc: Global,
    text: &mut String,
    later: bool,
    items: &ArrayItems<W::Leaf>,
    writer: &W,
    by: Alternatives,
) -> Result<(), AllocError>
    requires { W.ready by writer.now }
    ensures { OnOk result (Writes ((
      codes "items",
      part_form by (bind_part (W.put writer.now)
          (array_items_view W.meaning items.now)),
    ) ∷ []) later (string_bytes text.old) true
        (string_bytes text.new)) }
{
    push_key(text, later, "\"items\":")?;
    match items {
        ArrayItems::False => text.push_str("false")?,
        ArrayItems::Each(schema) => push_schema(alloc, text, schema, writer, by)?,
    }
    Ok(())
}

/// Adds the member `prefixItems`, where there is a schema.
#[cycle(text)]
fn push_front<W: WriteLeaf>(
    alloc: Global,
    text: &mut String,
    later: bool,
    schemas: &[Tree<W::Leaf>],
    writer: &W,
    by: Alternatives,
) -> Result<bool, AllocError>
    requires { W.ready by writer.now }
    ensures { IfOk result (λ went. Writes ((
      codes "prefixItems",
      schemas_form (schema_forms by
          (bind_schemas (W.put writer.now) (tree_views W.meaning schemas.now))),
    ) ∷ []) later
        (string_bytes text.old) went (string_bytes text.new)) }
{
    if schemas.is_empty() {
        return Ok(later);
    }
    push_list(alloc, text, later, "\"prefixItems\":", schemas, writer, by)?;
    Ok(true)
}

#[cycle(text)]
fn push_array<W: WriteLeaf>(
    alloc: Global,
    text: &mut String,
    array: &Array<W::Leaf>,
    writer: &W,
    by: Alternatives,
) -> Result<(), AllocError>
    requires { W.ready by writer.now }
    ensures { OnOk result (WritesValue (form_by by
        (bind (W.put writer.now) (array_view W.meaning array.now))) (string_bytes text.old)
        (string_bytes text.new)) }
{
    let annotations = &array.annotations;
    text.push_str("{")?;
    let later = push_first_annotations(alloc, text, false, annotations)?;
    let later = push_examples(alloc, text, later, annotations)?;
    push_items(alloc, text, later, &array.items, writer, by)?;
    let later = push_bound(alloc, text, true, "\"maxItems\":", &array.max_items)?;
    let later = push_bound(alloc, text, later, "\"minItems\":", &array.min_items)?;
    let later = push_front(
        alloc,
        text,
        later,
        array.prefix_items.as_slice(),
        writer,
        by,
    )?;
    let later = push_read_only(text, later, annotations)?;
    let later = push_title(alloc, text, later, annotations)?;
    let later = push_type(text, later, array_word(array.nullable))?;
    let later = push_true(text, later, "\"uniqueItems\":", array.unique)?;
    push_write_only(text, later, annotations)?;
    text.push_str("}")?;
    Ok(())
}

/// Adds the member of a list of schemas.
#[cycle(text)]
fn push_list<W: WriteLeaf>(
    alloc: Global,
    text: &mut String,
    later: bool,
    key: &str,
    schemas: &[Tree<W::Leaf>],
    writer: &W,
    by: Alternatives,
) -> Result<(), AllocError>
    requires { W.ready by writer.now }
    ensures { OnOk result (WritesAt key.now (Some (json_list (schema_forms by (bind_schemas
        (W.put writer.now) (tree_views W.meaning schemas.now))))) later (string_bytes text.old) true
        (string_bytes text.new)) }
{
    push_key(text, later, key)?;
    text.push_str("[")?;
    push_schemas(alloc, text, schemas, writer, by)?;
    text.push_str("]")?;
    Ok(())
}

#[cycle(text)]
fn push_alternatives<W: WriteLeaf>(
    alloc: Global,
    text: &mut String,
    one_of: &OneOfSchema<W::Leaf>,
    writer: &W,
    by: Alternatives,
) -> Result<(), AllocError>
    requires { W.ready by writer.now }
    ensures { OnOk result (WritesValue (form_by by
        (bind (W.put writer.now) (one_of_view W.meaning one_of.now))) (string_bytes text.old)
        (string_bytes text.new)) }
{
    match by {
        Alternatives::OneOf => push_one_of(alloc, text, one_of, writer),
        Alternatives::AnyOf => push_any_of(alloc, text, one_of, writer),
    }
}

/// Adds alternatives under `oneOf`, which stands among the annotations.
#[cycle(text)]
fn push_one_of<W: WriteLeaf>(
    alloc: Global,
    text: &mut String,
    one_of: &OneOfSchema<W::Leaf>,
    writer: &W,
) -> Result<(), AllocError>
    requires { W.ready OneOf writer.now }
    ensures { OnOk result (WritesValue (form_by OneOf
        (bind (W.put writer.now) (one_of_view W.meaning one_of.now))) (string_bytes text.old)
        (string_bytes text.new)) }
{
    let annotations = &one_of.annotations;
    let schemas = one_of.items.as_slice();
    text.push_str("{")?;
    let later = push_first_annotations(alloc, text, false, annotations)?;
    let later = push_examples(alloc, text, later, annotations)?;
    push_list(
        alloc,
        text,
        later,
        "\"oneOf\":",
        schemas,
        writer,
        Alternatives::OneOf,
    )?;
    let later = push_read_only(text, true, annotations)?;
    let later = push_title(alloc, text, later, annotations)?;
    push_write_only(text, later, annotations)?;
    text.push_str("}")?;
    Ok(())
}

/// Adds alternatives under `anyOf`, which stands before the annotations.
#[cycle(text)]
fn push_any_of<W: WriteLeaf>(
    alloc: Global,
    text: &mut String,
    any_of: &OneOfSchema<W::Leaf>,
    writer: &W,
) -> Result<(), AllocError>
    requires { W.ready AnyOf writer.now }
    ensures { OnOk result (WritesValue (form_by AnyOf
        (bind (W.put writer.now) (one_of_view W.meaning any_of.now))) (string_bytes text.old)
        (string_bytes text.new)) }
{
    let schemas = any_of.items.as_slice();
    text.push_str("{")?;
    push_list(
        alloc,
        text,
        false,
        "\"anyOf\":",
        schemas,
        writer,
        Alternatives::AnyOf,
    )?;
    push_annotations(alloc, text, true, &any_of.annotations)?;
    text.push_str("}")?;
    Ok(())
}

#[cycle(text)]
fn push_all_of<W: WriteLeaf>(
    alloc: Global,
    text: &mut String,
    all_of: &AllOfSchema<W::Leaf>,
    writer: &W,
    by: Alternatives,
) -> Result<(), AllocError>
    requires { W.ready by writer.now }
    ensures { OnOk result (WritesValue (form_by by
        (bind (W.put writer.now) (all_of_view W.meaning all_of.now))) (string_bytes text.old)
        (string_bytes text.new)) }
{
    text.push_str("{")?;
    push_list(
        alloc,
        text,
        false,
        "\"allOf\":",
        all_of.items.as_slice(),
        writer,
        by,
    )?;
    push_annotations(alloc, text, true, &all_of.annotations)?;
    text.push_str("}")?;
    Ok(())
}

/// Adds the texts of the schemas with commas between.
#[cycle(text)]
fn push_schemas<W: WriteLeaf>(
    alloc: Global,
    text: &mut String,
    schemas: &[Tree<W::Leaf>],
    writer: &W,
    by: Alternatives,
) -> Result<(), AllocError>
    requires { W.ready by writer.now }
    ensures { OnOk result (WritesItems (schema_forms by (bind_schemas (W.put writer.now)
        (tree_views W.meaning schemas.now))) (string_bytes text.old) (string_bytes text.new)) }
{
    let mut later = false;
    for schema in schemas {
        push_comma(text, later)?;
        push_schema(alloc, text, schema, writer, by)?;
        later = true;
    }
    Ok(())
}
