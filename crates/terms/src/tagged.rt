//! Schemas that tell a variant: by its name, by a tag, by null.

ghost use Rattle.std.specs.Prelude.{◌≡◌, ◌∷◌, ◌++◌, [], map, IfOk, OnOk};
ghost use Rattle.acceptance.specs.Json.{text as json_text};
ghost use Rattle.schema_trees.specs.Annotations.{no_annotations};
ghost use Rattle.schema_trees.specs.Schema.{object, object_view, named_views, no_part, no_properties, property, schema, no_schemas, tree_views};
ghost use Rattle.leaves.specs.Leaves.{format_of};
ghost use Rattle.component.specs.Leaves.{leaf_view, term_view};
ghost use Rattle.terms.specs.Terms.{texts_facts, texts_schema, requiring, tag_schema, tag_alone, null_term, with_property, beside_tag, tagged_leaf, adjacent_term};

use crate::object::{all_of, boxed, object_term};
use component::{Term, TermLeaf, annotated_null, bounds_of};
use leaves::Leaf;
use schema_trees::{
    Additional, Annotations as SchemaAnnotations, Json, Object, SchemaTypeInner, TypeWord,
};
use shapes::Annotations;
use std::alloc::{AllocError, Global};
use std::slice;
use texts::{List, Text};

/// The text as a JSON value.
fn text_value(alloc: Global, text: &Text) -> Result<Json, AllocError>
    ensures { IfOk result (λ json. json ≡ json_text text.now) }
{
    Ok(Json::text(String::from_str(alloc, text.as_str())?))
}

/// The names as JSON values.
fn text_values(alloc: Global, names: &[Text]) -> Result<List<Json>, AllocError>
    ensures { IfOk result (λ values. values ≡ map json_text names.now) }
{
    let mut values = List::new(alloc);
    for name in names {
        values.push(text_value(alloc, name)?)?;
    }
    Ok(values)
}

/// One of the texts.
fn texts_object(alloc: Global, keywords: SchemaAnnotations, texts: List<Json>) -> Object<TermLeaf>
    ensures { object_view leaf_view result
        ≡ object (texts_facts keywords texts) no_properties no_part no_part }
{
    Object {
        enum_values: Some(texts),
        ..Object::new(alloc, TypeWord::One(SchemaTypeInner::String), keywords)
    }
}

/// One of the names.
pub fn texts_schema(
    alloc: Global,
    keywords: SchemaAnnotations,
    names: &[Text],
) -> Result<Term, AllocError>
    ensures { IfOk result (λ t. term_view t ≡ texts_schema keywords names.now) }
{
    let values = text_values(alloc, names)?;
    boxed(alloc, texts_object(alloc, keywords, values))
}

/// The name alone.
pub(crate) fn name_schema(
    alloc: Global,
    keywords: SchemaAnnotations,
    name: &Text,
) -> Result<Term, AllocError>
    ensures { IfOk result (λ t. term_view t ≡ texts_schema keywords (name.now ∷ [])) }
{
    texts_schema(alloc, keywords, slice::from_ref(name))
}

/// Adds the name.
pub(crate) fn push_name(
    alloc: Global,
    names: &mut List<Text>,
    name: &Text,
) -> Result<(), AllocError>
    ensures { OnOk result (names.new ≡ names.old ++ name.now ∷ []) }
{
    names.push(name.copy(alloc)?)
}

/// A list of the name alone.
fn one_name(alloc: Global, name: &Text) -> Result<List<Text>, AllocError>
    ensures { IfOk result (λ names. names ≡ name.now ∷ []) }
{
    let mut names = List::new(alloc);
    push_name(alloc, &mut names, name)?;
    Ok(names)
}

/// A list of the two names.
fn two_names(alloc: Global, first: &Text, second: &Text) -> Result<List<Text>, AllocError>
    ensures { IfOk result (λ names. names ≡ first.now ∷ second.now ∷ []) }
{
    let mut names = one_name(alloc, first)?;
    push_name(alloc, &mut names, second)?;
    Ok(names)
}

/// Adds the property.
fn push_property(
    alloc: Global,
    properties: &mut List<(Text, Term)>,
    name: &Text,
    schema: Term,
) -> Result<(), AllocError>
    ensures { OnOk result (named_views leaf_view properties.new
        ≡ with_property (named_views leaf_view properties.old) name.now (term_view schema)) }
{
    let name = name.copy(alloc)?;
    properties.push((name, schema))
}

/// A list of the property alone.
fn one_property(alloc: Global, name: &Text, schema: Term) -> Result<List<(Text, Term)>, AllocError>
    ensures { IfOk result (λ properties. named_views leaf_view properties
        ≡ property name.now (term_view schema) no_properties) }
{
    let mut properties = List::new(alloc);
    push_property(alloc, &mut properties, name, schema)?;
    Ok(properties)
}

/// An object that has this member, and perhaps others.
pub fn requiring(
    alloc: Global,
    keywords: SchemaAnnotations,
    name: &Text,
    schema: Term,
) -> Result<Term, AllocError>
    ensures { IfOk result (λ t. term_view t ≡ requiring keywords name.now (term_view schema)) }
{
    let properties = one_property(alloc, name, schema)?;
    let required = one_name(alloc, name)?;
    object_term(alloc, properties, Additional::Absent, required, keywords)
}

/// An object that has a tag with the name as its text, and perhaps other members.
pub(crate) fn tag_alone(
    alloc: Global,
    keywords: SchemaAnnotations,
    tag: &Text,
    name: &Text,
) -> Result<Term, AllocError>
    ensures { IfOk result (λ t. term_view t ≡ tag_alone keywords tag.now name.now) }
{
    let schema = name_schema(alloc, SchemaAnnotations::new(), name)?;
    requiring(alloc, keywords, tag, schema)
}

/// Adds the tag as a property, whose text is the name.
pub(crate) fn push_tag(
    alloc: Global,
    properties: &mut List<(Text, Term)>,
    tag: &Text,
    name: &Text,
) -> Result<(), AllocError>
    ensures { OnOk result (named_views leaf_view properties.new
        ≡ with_property (named_views leaf_view properties.old) tag.now (tag_schema name.now)) }
{
    let schema = name_schema(alloc, SchemaAnnotations::new(), name)?;
    push_property(alloc, properties, tag, schema)
}

/// An object that has a content, and a tag with the name as its text.
pub(crate) fn adjacent_term(
    alloc: Global,
    keywords: SchemaAnnotations,
    tag: &Text,
    content: &Text,
    name: &Text,
    schema: Term,
) -> Result<Term, AllocError>
    ensures { IfOk result (λ t. term_view t
        ≡ adjacent_term keywords tag.now content.now name.now (term_view schema)) }
{
    let mut properties = one_property(alloc, content, schema)?;
    push_tag(alloc, &mut properties, tag, name)?;
    let required = two_names(alloc, content, tag)?;
    object_term(alloc, properties, Additional::Absent, required, keywords)
}

/// The content, and an object that has the tag.
fn with_tag(alloc: Global, tag: &Text, name: &Text, content: Term) -> Result<List<Term>, AllocError>
    ensures { IfOk result (λ items. tree_views leaf_view items
        ≡ schema (term_view content)
        (schema (tag_alone no_annotations tag.now name.now) no_schemas)) }
{
    let object = tag_alone(alloc, SchemaAnnotations::new(), tag, name)?;
    let mut items = List::new(alloc);
    items.push(content)?;
    items.push(object)?;
    Ok(items)
}

/// A schema beside an object that has the tag.
pub(crate) fn beside_tag(
    alloc: Global,
    keywords: SchemaAnnotations,
    tag: &Text,
    name: &Text,
    schema: Term,
) -> Result<Term, AllocError>
    ensures { IfOk result
        (λ t. term_view t ≡ beside_tag keywords tag.now name.now (term_view schema)) }
{
    let items = with_tag(alloc, tag, name, schema)?;
    all_of(alloc, items, keywords)
}

/// The printed name of the format of the built-in name.
fn format_of(alloc: Global, leaf: Leaf) -> Result<Option<Text>, AllocError>
    ensures { IfOk result (λ format. format ≡ format_of leaf) }
{
    match leaf.format() {
        Some(format) => Ok(Some(Text::new(alloc, format)?)),
        None => Ok(None),
    }
}

/// An object that has the tag, with the format and the bounds of the built-in name.
pub(crate) fn tagged_leaf(
    alloc: Global,
    keywords: SchemaAnnotations,
    tag: &Text,
    name: &Text,
    leaf: Leaf,
) -> Result<Term, AllocError>
    ensures { IfOk result (λ t. term_view t ≡ object (tagged_leaf keywords tag.now leaf)
        (property tag.now (tag_schema name.now) no_properties) no_part no_part) }
{
    let required = one_name(alloc, tag)?;
    let format = format_of(alloc, leaf)?;
    let mut properties = List::new(alloc);
    push_tag(alloc, &mut properties, tag, name)?;
    let object = Object {
        properties,
        required,
        format,
        bounds: bounds_of(leaf.kind()),
        ..Object::new(alloc, TypeWord::One(SchemaTypeInner::Object), keywords)
    };
    boxed(alloc, object)
}

/// Null, which is the default too.
pub(crate) fn null_term(alloc: Global, annotations: &Annotations) -> Result<Term, AllocError>
    ensures { IfOk result (λ t. term_view t ≡ null_term annotations.now) }
{
    let keywords = annotated_null(alloc, annotations.deprecated, &annotations.description)?;
    let null = Object::new(alloc, TypeWord::One(SchemaTypeInner::Null), keywords);
    boxed(alloc, null)
}
