//! The schema of a place by its type.

ghost use Rattle.std.specs.Prelude.{◌≡◌, IfOk};
ghost use Rattle.schema_trees.specs.Schema.{tree_views};
ghost use Rattle.open_types.specs.Open.{open_view, opens_view};
ghost use Rattle.component.specs.Leaves.{leaf_view, term_view};
ghost use Rattle.schema_trees.specs.Objects.{only_word};
ghost use Rattle.component.specs.Places.{place_view, inside, annotations_at, type_word, leaf_object, tuple_of, list_of, map_object, place, inline_places, declared, argument};

use crate::schemas::{
    annotated, any_object, in_place, leaf_object, list_of, map_object, null_default, only_word,
    or_null, tuple_of,
};
use crate::term::{Term, TermLeaf};
use leaves::Leaf;
use open_types::OpenType;
use schema_trees::{Annotations, SchemaTypeInner, Tree, TypeWord};
use std::alloc::{AllocError, Global};
use texts::{List, Text};

/// What is said of a place beside its type.
#[derive(Clone, Copy)]
pub struct Place<'d> {
    /// Whether null may stand there.
    pub nullable: bool,
    /// Whether the schema of a declaration stands there itself, in place of a reference.
    pub inline: bool,
    pub deprecated: bool,
    pub description: &'d Option<Text>,
}

/// The schema of a declaration: a reference to it, or its schema in place.
fn declared(alloc: Global, at: Place<'_>, ty: &OpenType) -> Result<Term, AllocError>
    ensures { IfOk result (λ s. term_view s ≡ declared (place_view at.entry) (open_view ty.now)) }
{
    let of = ty.copy(alloc)?;
    if at.inline {
        let annotations = Annotations::new();
        let leaf = TermLeaf::Named {
            of,
            inline: true,
            annotations,
        };
        in_place(alloc, at.nullable, at.description, Tree::Leaf(leaf))
    } else {
        let annotations = annotated(alloc, false, at.description)?;
        let leaf = TermLeaf::Named {
            of,
            inline: false,
            annotations,
        };
        or_null(alloc, at.nullable, Tree::Leaf(leaf))
    }
}

/// The schema of the argument for the parameter at a place.
fn argument(alloc: Global, at: Place<'_>, parameter: usize) -> Result<Term, AllocError>
    ensures { IfOk result (λ s. term_view s ≡ argument (place_view at.entry) parameter) }
{
    let leaf = Tree::Leaf(TermLeaf::Param(parameter));
    if at.inline {
        in_place(alloc, at.nullable, at.description, leaf)
    } else {
        or_null(alloc, at.nullable, leaf)
    }
}

/// Annotations of what is said of the place.
fn annotations_at(alloc: Global, at: Place<'_>) -> Result<Annotations, AllocError>
    ensures { IfOk result (λ annotations. annotations ≡ annotations_at (place_view at.entry)) }
{
    annotated(alloc, at.deprecated, at.description)
}

fn leaf_place(alloc: Global, at: Place<'_>, leaf: Leaf) -> Result<Term, AllocError>
    ensures { IfOk result
        (λ s. term_view s
        ≡ leaf_object at.entry.nullable (annotations_at (place_view at.entry)) leaf) }
{
    leaf_object(alloc, at.nullable, annotations_at(alloc, at)?, leaf)
}

fn any_place(alloc: Global, at: Place<'_>) -> Result<Term, AllocError>
    ensures { IfOk result
        (λ s. term_view s ≡ only_word TypeWord.Any (annotations_at (place_view at.entry))) }
{
    only_word(alloc, TypeWord::Any, annotations_at(alloc, at)?)
}

fn object_place(alloc: Global, at: Place<'_>) -> Result<Term, AllocError>
    ensures { IfOk result
        (λ s. term_view s ≡ only_word (type_word at.entry.nullable SchemaTypeInner.Object)
        (annotations_at (place_view at.entry))) }
{
    any_object(alloc, at.nullable, annotations_at(alloc, at)?)
}

fn tuple_place(alloc: Global, at: Place<'_>, items: List<Term>) -> Result<Term, AllocError>
    ensures { IfOk result
        (λ s. term_view s
        ≡ tuple_of at.entry.nullable (annotations_at (place_view at.entry))
        (tree_views leaf_view items)) }
{
    tuple_of(alloc, at.nullable, annotations_at(alloc, at)?, items)
}

fn list_place(alloc: Global, at: Place<'_>, unique: bool, item: Term) -> Result<Term, AllocError>
    ensures { IfOk result
        (λ s. term_view s
        ≡ list_of unique at.entry.nullable (annotations_at (place_view at.entry))
        (term_view item)) }
{
    list_of(alloc, unique, at.nullable, annotations_at(alloc, at)?, item)
}

fn map_place(alloc: Global, at: Place<'_>, names: Term, values: Term) -> Result<Term, AllocError>
    ensures { IfOk result
        (λ s. term_view s
        ≡ map_object at.entry.nullable (annotations_at (place_view at.entry))
        (term_view names) (term_view values)) }
{
    map_object(
        alloc,
        at.nullable,
        annotations_at(alloc, at)?,
        names,
        values,
    )
}

/// The schema of a place of the type.
pub fn place_term(alloc: Global, at: Place<'_>, ty: &OpenType) -> Result<Term, AllocError>
    ensures { IfOk result (λ s. term_view s ≡ place (place_view at.entry) (open_view ty.now)) }
{
    typed_place(alloc, at, ty)
}

/// The schema of a place inside another: an element, a name or a value.
#[cycle(place)]
fn inner_place(alloc: Global, inline: bool, ty: &OpenType) -> Result<Term, AllocError>
    ensures { IfOk result (λ s. term_view s ≡ place (inside inline) (open_view ty.now)) }
{
    let at = Place {
        nullable: false,
        inline,
        deprecated: false,
        description: &None,
    };
    typed_place(alloc, at, ty)
}

#[cycle(place)]
fn typed_place(alloc: Global, at: Place<'_>, ty: &OpenType) -> Result<Term, AllocError>
    ensures { IfOk result (λ s. term_view s ≡ place (place_view at.entry) (open_view ty.now)) }
{
    match ty {
        OpenType::Option(of) => typed_place(
            alloc,
            Place {
                nullable: true,
                ..at
            },
            of,
        ),
        OpenType::Through(_, of) => typed_place(alloc, at, of),
        OpenType::Param(parameter) => argument(alloc, at, *parameter),
        OpenType::Named(_, _) => declared(alloc, at, ty),
        OpenType::Unit => null_default(alloc, &None),
        OpenType::Leaf(leaf) => leaf_place(alloc, at, *leaf),
        OpenType::AnyValue => any_place(alloc, at),
        OpenType::FreeObject => object_place(alloc, at),
        OpenType::Tuple(items) => tuple_place(alloc, at, inline_places(alloc, items.as_slice())?),
        OpenType::Items(_, of) => list_place(alloc, at, false, inner_place(alloc, at.inline, of)?),
        OpenType::Set(_, of) => list_place(alloc, at, true, inner_place(alloc, at.inline, of)?),
        OpenType::Map(_, key, value) => {
            let names = inner_place(alloc, true, key)?;
            let values = inner_place(alloc, at.inline, value)?;
            map_place(alloc, at, names, values)
        }
    }
}

/// The schemas of a tuple's items.
#[cycle(place)]
fn inline_places(alloc: Global, types: &[OpenType]) -> Result<List<Term>, AllocError>
    ensures { IfOk result (λ ss. tree_views leaf_view ss ≡ inline_places (opens_view types.now)) }
{
    let mut items = List::new(alloc);
    for ty in types {
        items.push(inner_place(alloc, true, ty)?)?;
    }
    Ok(items)
}
