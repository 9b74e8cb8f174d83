//! The schemas of variants, by how they are told.

ghost use Rattle.std.specs.Prelude.{◌≡◌, map, IfOk};
ghost use Rattle.schema_trees.specs.Schema.{tree_views, schemas_of};
ghost use Rattle.component.specs.Leaves.{leaf_view, term_view};
ghost use Rattle.open_types.specs.Open.{open_view};
ghost use Rattle.shapes.specs.Declarations.{unnamed_fields};
ghost use Rattle.shapes.specs.Views.{variant_view};
ghost use Rattle.terms.specs.Terms.{variant_term, tagged_content, internal_term};

use crate::field::keywords_of;
use crate::form::form_term;
use crate::named_fields::NamedFields;
use crate::tagged::{
    adjacent_term as told_beside, beside_tag, name_schema, null_term, requiring, tag_alone,
    tagged_leaf,
};
use crate::unnamed_fields::unnamed_term;
use component::Term;
use open_types::OpenType;
use schema_trees::Annotations as SchemaAnnotations;
use shapes::{Annotations, Form, Tagging, Variant};
use std::alloc::{AllocError, Global};
use texts::{List, Text};

/// The schema of a variant that nothing tells.
fn untagged_term(alloc: Global, variant: &Variant) -> Result<Term, AllocError>
    ensures { IfOk result (λ t. term_view t
        ≡ variant_term Tagging.Untagged (variant_view variant.now)) }
{
    match &variant.form {
        Form::Unit => null_term(alloc, &variant.annotations),
        Form::Named { .. } | Form::Unnamed(_) => form_term(
            alloc,
            &variant.annotations,
            &variant.form,
        ),
    }
}

/// The schema of a variant that its name tells: the name alone, or an object that has a member of the name.
fn external_term(alloc: Global, variant: &Variant) -> Result<Term, AllocError>
    ensures { IfOk result (λ t. term_view t
        ≡ variant_term Tagging.External (variant_view variant.now)) }
{
    let name = &variant.name;
    let keywords = keywords_of(alloc, &variant.annotations)?;
    match &variant.form {
        Form::Unit => name_schema(alloc, keywords, name),
        Form::Named { .. } | Form::Unnamed(_) => {
            let content = form_term(alloc, &variant.annotations, &variant.form)?;
            requiring(alloc, keywords, name, content)
        }
    }
}

/// The schema of a content of the type with a tag: of a leaf or any value an object that has the tag, else that of the
/// content beside one.
fn tagged_content(
    alloc: Global,
    keywords: SchemaAnnotations,
    tag: &Text,
    name: &Text,
    ty: &OpenType,
    content: Term,
) -> Result<Term, AllocError>
    ensures { IfOk result (λ t. term_view t
        ≡ tagged_content keywords tag.now name.now (open_view ty.now) (term_view content)) }
{
    match ty {
        OpenType::Leaf(leaf) => tagged_leaf(alloc, keywords, tag, name, *leaf),
        OpenType::AnyValue => tag_alone(alloc, keywords, tag, name),
        _ => beside_tag(alloc, keywords, tag, name, content),
    }
}

/// The schema of unnamed fields with a tag.
pub fn tagged_fields(
    alloc: Global,
    annotations: &Annotations,
    types: &[OpenType],
    tag: &Text,
    name: &Text,
) -> Result<Term, AllocError>
    ensures { IfOk result (λ t. term_view t
        ≡ internal_term annotations.now tag.now name.now
        (unnamed_fields (map open_view types.now))) }
{
    let keywords = keywords_of(alloc, annotations)?;
    let content = unnamed_term(alloc, annotations, types)?;
    match types {
        [ty] => tagged_content(alloc, keywords, tag, name, ty, content),
        _ => beside_tag(alloc, keywords, tag, name, content),
    }
}

/// The schema of a variant that a tag among its members tells.
fn internal_term(alloc: Global, tag: &Text, variant: &Variant) -> Result<Term, AllocError>
    ensures { IfOk result (λ t. term_view t
        ≡ variant_term (Tagging.Internal tag.now) (variant_view variant.now)) }
{
    let name = &variant.name;
    let annotations = &variant.annotations;
    match &variant.form {
        Form::Unit => tag_alone(alloc, keywords_of(alloc, annotations)?, tag, name),
        Form::Named {
            denies_others,
            beside,
            members,
        } => {
            let fields = NamedFields {
                denies_others: *denies_others,
                beside,
                members: members.as_slice(),
            };
            fields.tagged_term(alloc, annotations, tag, name)
        }
        Form::Unnamed(types) => tagged_fields(alloc, annotations, types.as_slice(), tag, name),
    }
}

/// The schema of a variant that a tag beside a content tells.
fn adjacent_term(
    alloc: Global,
    tag: &Text,
    content: &Text,
    variant: &Variant,
) -> Result<Term, AllocError>
    ensures { IfOk result (λ t. term_view t
        ≡ variant_term (Tagging.Adjacent tag.now content.now) (variant_view variant.now)) }
{
    let name = &variant.name;
    let keywords = keywords_of(alloc, &variant.annotations)?;
    match &variant.form {
        Form::Unit => tag_alone(alloc, keywords, tag, name),
        Form::Named { .. } | Form::Unnamed(_) => {
            let schema = form_term(alloc, &variant.annotations, &variant.form)?;
            told_beside(alloc, keywords, tag, content, name, schema)
        }
    }
}

/// The schema of a variant.
pub fn variant_term(alloc: Global, tagging: &Tagging, variant: &Variant) -> Result<Term, AllocError>
    ensures { IfOk result (λ t. term_view t ≡ variant_term tagging.now (variant_view variant.now)) }
{
    match tagging {
        Tagging::External => external_term(alloc, variant),
        Tagging::Internal { tag } => internal_term(alloc, tag, variant),
        Tagging::Adjacent { tag, content } => adjacent_term(alloc, tag, content, variant),
        Tagging::Untagged => untagged_term(alloc, variant),
    }
}

/// The schemas of the variants.
pub(crate) fn variant_terms(
    alloc: Global,
    tagging: &Tagging,
    variants: &[Variant],
) -> Result<List<Term>, AllocError>
    ensures { IfOk result (λ items. tree_views leaf_view items
        ≡ schemas_of (map (variant_term tagging.now) (map variant_view variants.now))) }
{
    let mut items = List::new(alloc);
    for variant in variants {
        items.push(variant_term(alloc, tagging, variant)?)?;
    }
    Ok(items)
}
