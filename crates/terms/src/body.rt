//! The schemas of declarations.

ghost use Rattle.std.specs.Prelude.{◌≡◌, map, IfOk};
ghost use Rattle.schema_trees.specs.Annotations.{no_annotations};
ghost use Rattle.schema_trees.specs.Schema.{tree_views, schemas_of};
ghost use Rattle.component.specs.Leaves.{leaf_view, term_view};
ghost use Rattle.shapes.specs.Declarations.{variants as told_variants};
ghost use Rattle.shapes.specs.Views.{variant_view, body_view, declaration_view};
ghost use Rattle.terms.specs.Terms.{tag_alone, tags_term, units_term, body_term, term};

use crate::field::keywords_of;
use crate::form::form_term;
use crate::numbers::numbers_term;
use crate::object::one_of;
use crate::tagged::{null_term, tag_alone, texts_schema};
use crate::variants::variant_terms;
use component::Term;
use schema_trees::Annotations as SchemaAnnotations;
use shapes::{Annotations, Body, Declaration, Tagging, Variant};
use std::alloc::{AllocError, Global};
use texts::{List, Text};

/// An object with a tag for each of the names.
fn tags(alloc: Global, tag: &Text, names: &[Text]) -> Result<List<Term>, AllocError>
    ensures { IfOk result (λ items. tree_views leaf_view items
        ≡ schemas_of (map (tag_alone no_annotations tag.now) names.now)) }
{
    let mut items = List::new(alloc);
    for name in names {
        items.push(tag_alone(alloc, SchemaAnnotations::new(), tag, name)?)?;
    }
    Ok(items)
}

fn tags_term(
    alloc: Global,
    annotations: &Annotations,
    tag: &Text,
    names: &[Text],
) -> Result<Term, AllocError>
    ensures { IfOk result (λ t. term_view t ≡ tags_term annotations.now tag.now names.now) }
{
    let keywords = keywords_of(alloc, annotations)?;
    let items = tags(alloc, tag, names)?;
    one_of(alloc, items, keywords)
}

/// The schema of an enum whose variants have no fields.
fn units_term(
    alloc: Global,
    annotations: &Annotations,
    tagging: &Tagging,
    names: &[Text],
) -> Result<Term, AllocError>
    ensures { IfOk result (λ t. term_view t ≡ units_term annotations.now tagging.now names.now) }
{
    match tagging {
        Tagging::External => {
            let keywords = keywords_of(alloc, annotations)?;
            texts_schema(alloc, keywords, names)
        }
        Tagging::Internal { tag } | Tagging::Adjacent { tag, .. } => {
            tags_term(alloc, annotations, tag, names)
        }
        Tagging::Untagged => null_term(alloc, annotations),
    }
}

/// The schema of an enum of which a variant has fields: one of those of its variants.
fn variants_term(
    alloc: Global,
    annotations: &Annotations,
    tagging: &Tagging,
    variants: &[Variant],
) -> Result<Term, AllocError>
    ensures { IfOk result (λ t. term_view t
        ≡ body_term annotations.now (told_variants tagging.now (map variant_view variants.now))) }
{
    let keywords = keywords_of(alloc, annotations)?;
    let items = variant_terms(alloc, tagging, variants)?;
    one_of(alloc, items, keywords)
}

/// The schema of the body of a declaration of which this is said.
pub fn body_term(alloc: Global, annotations: &Annotations, body: &Body) -> Result<Term, AllocError>
    ensures { IfOk result (λ t. term_view t ≡ body_term annotations.now (body_view body.now)) }
{
    match body {
        Body::Fields(form) => form_term(alloc, annotations, form),
        Body::Units { tagging, names } => units_term(alloc, annotations, tagging, names.as_slice()),
        Body::Numbers { tagging, numbers } => {
            numbers_term(alloc, annotations, tagging, numbers.as_slice())
        }
        Body::Variants { tagging, variants } => {
            variants_term(alloc, annotations, tagging, variants.as_slice())
        }
    }
}

/// The schema of the declaration.
pub fn declaration_term(alloc: Global, declaration: &Declaration) -> Result<Term, AllocError>
    ensures { IfOk result (λ t. term_view t ≡ term (declaration_view declaration.now)) }
{
    body_term(alloc, &declaration.annotations, &declaration.body)
}
