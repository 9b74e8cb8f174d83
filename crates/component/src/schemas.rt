//! Schemas of one keyword or two, with leaves of any type.

ghost use Rattle.std.specs.Prelude.{◌≡◌, IfOk, Some};
ghost use Rattle.acceptance.specs.Json.{null};
ghost use Rattle.schema_trees.specs.Schema.{SchemaOf, tree_view, object_view, tree_views, named_views, no_schemas, schema};
ghost use Rattle.component.specs.Leaves.{leaf_view, term_view};
ghost use Rattle.schema_trees.specs.Annotations.{annotations_of, where_true, annotated, null_default};
ghost use Rattle.schema_trees.specs.Objects.{only_word};
ghost use Rattle.component.specs.Places.{word_of, minimum_of, bounds_of, type_word, one_of_null, or_null, beside, in_place, leaf_object, list_of, tuple_of, map_object};

use crate::term::{Term, TermLeaf};
use leaves::{Leaf, LeafKind};
use schema_trees::{
    Additional, AllOfSchema, AnnotationKeywords, Annotations, Array, ArrayItems, Bound, Bounds,
    Json, Object, OneOfSchema, SchemaTypeInner, Tree, TypeWord,
};
use std::alloc::{AllocError, Global};
use texts::{List, Text};

fn type_word(nullable: bool, word: SchemaTypeInner) -> TypeWord
    ensures { result ≡ type_word nullable word }
{
    if nullable {
        TypeWord::Nullable(word)
    } else {
        TypeWord::One(word)
    }
}

fn word_of(kind: LeafKind) -> SchemaTypeInner
    ensures { result ≡ word_of kind }
{
    match kind {
        LeafKind::Text => SchemaTypeInner::String,
        LeafKind::Boolean => SchemaTypeInner::Boolean,
        LeafKind::Signed | LeafKind::Unsigned => SchemaTypeInner::Integer,
        LeafKind::Float => SchemaTypeInner::Number,
    }
}

/// The least number: 0 for an unsigned integer.
fn minimum_of(kind: LeafKind) -> Option<Bound>
    ensures { result ≡ minimum_of kind }
{
    match kind {
        LeafKind::Unsigned => Some(Bound::zero()),
        LeafKind::Text | LeafKind::Boolean | LeafKind::Signed | LeafKind::Float => None,
    }
}

/// The bounds of a number of this kind: an unsigned one is not below 0.
pub fn bounds_of(kind: LeafKind) -> Bounds
    ensures { result ≡ bounds_of kind }
{
    Bounds {
        minimum: minimum_of(kind),
        ..Bounds::none()
    }
}

/// Keywords of a place: that it is deprecated, and its description.
fn said(
    alloc: Global,
    deprecated: bool,
    description: &Option<Text>,
) -> Result<AnnotationKeywords, AllocError>
    ensures { IfOk result (λ said. said ≡ annotated deprecated description.now) }
{
    let mut said = AnnotationKeywords::none();
    if deprecated {
        said.deprecated = Some(true);
    }
    if let Some(text) = description {
        said.description = Some(text.copy(alloc)?);
    }
    Ok(said)
}

/// Annotations of a place: that it is deprecated, and its description.
pub fn annotated(
    alloc: Global,
    deprecated: bool,
    description: &Option<Text>,
) -> Result<Annotations, AllocError>
    ensures { IfOk result (λ annotations. annotations ≡ annotated deprecated description.now) }
{
    if !deprecated && description.is_none() {
        return Ok(Annotations::new());
    }
    Annotations::of(alloc, said(alloc, deprecated, description)?)
}

pub(crate) fn boxed(alloc: Global, object: Object<TermLeaf>) -> Result<Term, AllocError>
    ensures { IfOk result (λ s. term_view s ≡ object_view leaf_view object) }
{
    Ok(Tree::Object(Box::new(alloc, object)?))
}

/// A word of `type` and annotations alone.
pub(crate) fn only_word(
    alloc: Global,
    ty: TypeWord,
    annotations: Annotations,
) -> Result<Term, AllocError>
    ensures { IfOk result (λ s. term_view s ≡ only_word ty annotations) }
{
    boxed(alloc, Object::new(alloc, ty, annotations))
}

/// Any object, or null where it may be.
pub(crate) fn any_object(
    alloc: Global,
    nullable: bool,
    annotations: Annotations,
) -> Result<Term, AllocError>
    ensures { IfOk result
        (λ s. term_view s ≡ only_word (type_word nullable SchemaTypeInner.Object) annotations) }
{
    only_word(
        alloc,
        type_word(nullable, SchemaTypeInner::Object),
        annotations,
    )
}

/// Annotations of a place: that it is deprecated, its description, and that null is its default.
pub fn annotated_null(
    alloc: Global,
    deprecated: bool,
    description: &Option<Text>,
) -> Result<Annotations, AllocError>
    ensures { IfOk result (λ annotations. annotations
        ≡ annotations_of description.now (Some null) (where_true deprecated)) }
{
    let mut said = said(alloc, deprecated, description)?;
    said.default = Some(Json::null());
    Annotations::of(alloc, said)
}

/// Null as the default of any value, with a description.
pub fn null_default(alloc: Global, description: &Option<Text>) -> Result<Term, AllocError>
    ensures { IfOk result
        (λ s. term_view s ≡ only_word TypeWord.Any (null_default description.now)) }
{
    only_word(
        alloc,
        TypeWord::Any,
        annotated_null(alloc, false, description)?,
    )
}

/// The schema of a built-in name.
pub(crate) fn leaf_object(
    alloc: Global,
    nullable: bool,
    annotations: Annotations,
    leaf: Leaf,
) -> Result<Term, AllocError>
    ensures { IfOk result (λ s. term_view s ≡ leaf_object nullable annotations leaf) }
{
    let format = match leaf.format() {
        Some(name) => Some(Text::new(alloc, name)?),
        None => None,
    };
    let word = type_word(nullable, word_of(leaf.kind()));
    let object = Object {
        format,
        bounds: bounds_of(leaf.kind()),
        ..Object::new(alloc, word, annotations)
    };
    boxed(alloc, object)
}

/// A list of two schemas.
fn both(alloc: Global, first: Term, second: Term) -> Result<List<Term>, AllocError>
    ensures { IfOk result (λ items. tree_views leaf_view items
        ≡ schema (term_view first) (schema (term_view second) no_schemas)) }
{
    let mut items = List::new(alloc);
    items.push(first)?;
    items.push(second)?;
    Ok(items)
}

/// One of the schema and null.
pub fn one_of_null(
    alloc: Global,
    schema: Term,
    annotations: Annotations,
) -> Result<Term, AllocError>
    ensures { IfOk result (λ s. term_view s ≡ one_of_null annotations (term_view schema)) }
{
    let null = only_word(
        alloc,
        TypeWord::One(SchemaTypeInner::Null),
        Annotations::new(),
    )?;
    let items = both(alloc, schema, null)?;
    Ok(Tree::OneOf(Box::new(alloc, OneOfSchema { items, annotations })?))
}

/// The schema, or null where it may be.
pub(crate) fn or_null(alloc: Global, nullable: bool, schema: Term) -> Result<Term, AllocError>
    ensures { IfOk result (λ s. term_view s ≡ or_null nullable (term_view schema)) }
{
    if nullable {
        one_of_null(alloc, schema, Annotations::new())
    } else {
        Ok(schema)
    }
}

/// The schema beside its description, where there is one.
fn beside(alloc: Global, description: &Option<Text>, schema: Term) -> Result<Term, AllocError>
    ensures { IfOk result (λ s. term_view s ≡ beside description.now (term_view schema)) }
{
    if description.is_none() {
        return Ok(schema);
    }
    let said = only_word(alloc, TypeWord::Any, annotated(alloc, false, description)?)?;
    let items = both(alloc, schema, said)?;
    let annotations = Annotations::new();
    Ok(Tree::AllOf(Box::new(alloc, AllOfSchema { items, annotations })?))
}

/// A schema that stands there itself, with null where it may be, and with its description.
pub(crate) fn in_place(
    alloc: Global,
    nullable: bool,
    description: &Option<Text>,
    schema: Term,
) -> Result<Term, AllocError>
    ensures { IfOk result
        (λ s. term_view s ≡ in_place nullable description.now (term_view schema)) }
{
    if nullable {
        one_of_null(alloc, schema, annotated(alloc, false, description)?)
    } else {
        beside(alloc, description, schema)
    }
}

/// A list of what the schema accepts, whose elements are distinct where it is `unique`.
pub(crate) fn list_of(
    alloc: Global,
    unique: bool,
    nullable: bool,
    annotations: Annotations,
    items: Term,
) -> Result<Term, AllocError>
    ensures { IfOk result
        (λ s. term_view s ≡ list_of unique nullable annotations (term_view items)) }
{
    let array = Array {
        nullable,
        items: ArrayItems::Each(items),
        prefix_items: List::new(alloc),
        unique,
        max_items: None,
        min_items: None,
        annotations,
    };
    Ok(Tree::Array(Box::new(alloc, array)?))
}

/// A list of no more elements than the schemas, which accept them by position.
pub(crate) fn tuple_of(
    alloc: Global,
    nullable: bool,
    annotations: Annotations,
    items: List<Term>,
) -> Result<Term, AllocError>
    ensures { IfOk result
        (λ s. term_view s ≡ tuple_of nullable annotations (tree_views leaf_view items)) }
{
    let array = Array {
        nullable,
        items: ArrayItems::False,
        prefix_items: items,
        unique: false,
        max_items: None,
        min_items: None,
        annotations,
    };
    Ok(Tree::Array(Box::new(alloc, array)?))
}

/// A map whose names and values the schemas accept.
pub(crate) fn map_object(
    alloc: Global,
    nullable: bool,
    annotations: Annotations,
    names: Term,
    values: Term,
) -> Result<Term, AllocError>
    ensures { IfOk result
        (λ s. term_view s ≡ map_object nullable annotations (term_view names) (term_view values)) }
{
    let mut object = Object::new(
        alloc,
        type_word(nullable, SchemaTypeInner::Object),
        annotations,
    );
    object.property_names = Some(names);
    object.additional = Additional::Of(values);
    boxed(alloc, object)
}
