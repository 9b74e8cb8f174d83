//! The schemas of enums whose variants are numbers.

ghost use Rattle.std.specs.Prelude.{◌≡◌, ◌∷◌, [], map, IfOk};
ghost use Rattle.acceptance.specs.Json.{number as json_number};
ghost use Rattle.schema_trees.specs.Schema.{object_view, tree_views, schemas_of};
ghost use Rattle.component.specs.Leaves.{leaf_view, term_view};
ghost use Rattle.terms.specs.Terms.{numbers_schema, number_alone, number_tags, numbers_term};

use crate::field::keywords_of;
use crate::object::{boxed, one_of};
use crate::tagged::{null_term, requiring};
use component::Term;
use schema_trees::{
    Annotations as SchemaAnnotations, Bound, Json, Object, SchemaTypeInner, TypeWord,
};
use shapes::{Annotations, Tagging};
use std::alloc::{AllocError, Global};
use std::slice;
use texts::{List, Text};

/// The numbers as JSON values.
fn number_values(alloc: Global, numbers: &[Bound]) -> Result<List<Json>, AllocError>
    ensures { IfOk result (λ values. values ≡ map json_number numbers.now) }
{
    let mut values = List::new(alloc);
    for number in numbers {
        values.push(Json::number(*number))?;
    }
    Ok(values)
}

/// One of the numbers.
fn numbers_schema(
    alloc: Global,
    keywords: SchemaAnnotations,
    numbers: &[Bound],
) -> Result<Term, AllocError>
    ensures { IfOk result (λ t. term_view t ≡ numbers_schema keywords numbers.now) }
{
    let values = number_values(alloc, numbers)?;
    let object = Object {
        enum_values: Some(values),
        ..Object::new(alloc, TypeWord::One(SchemaTypeInner::Integer), keywords)
    };
    boxed(alloc, object)
}

/// An object that has a tag with the number, and perhaps other members.
fn number_alone(alloc: Global, tag: &Text, number: &Bound) -> Result<Term, AllocError>
    ensures { IfOk result (λ t. term_view t ≡ number_alone tag.now number.now) }
{
    let schema = numbers_schema(alloc, SchemaAnnotations::new(), slice::from_ref(number))?;
    requiring(alloc, SchemaAnnotations::new(), tag, schema)
}

/// An object with a tag for each of the numbers.
fn tags(alloc: Global, tag: &Text, numbers: &[Bound]) -> Result<List<Term>, AllocError>
    ensures { IfOk result (λ items. tree_views leaf_view items
        ≡ schemas_of (map (number_alone tag.now) numbers.now)) }
{
    let mut items = List::new(alloc);
    for number in numbers {
        items.push(number_alone(alloc, tag, number)?)?;
    }
    Ok(items)
}

fn number_tags(
    alloc: Global,
    annotations: &Annotations,
    tag: &Text,
    numbers: &[Bound],
) -> Result<Term, AllocError>
    ensures { IfOk result (λ t. term_view t ≡ number_tags annotations.now tag.now numbers.now) }
{
    let keywords = keywords_of(alloc, annotations)?;
    let items = tags(alloc, tag, numbers)?;
    one_of(alloc, items, keywords)
}

/// The schema of an enum whose variants have no fields, by the numbers that stand for them.
pub(crate) fn numbers_term(
    alloc: Global,
    annotations: &Annotations,
    tagging: &Tagging,
    numbers: &[Bound],
) -> Result<Term, AllocError>
    ensures { IfOk result
        (λ t. term_view t ≡ numbers_term annotations.now tagging.now numbers.now) }
{
    match tagging {
        Tagging::External => {
            let keywords = keywords_of(alloc, annotations)?;
            numbers_schema(alloc, keywords, numbers)
        }
        Tagging::Internal { tag } | Tagging::Adjacent { tag, .. } => {
            number_tags(alloc, annotations, tag, numbers)
        }
        Tagging::Untagged => null_term(alloc, annotations),
    }
}
