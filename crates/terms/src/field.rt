ghost use Rattle.std.specs.Prelude.{◌≡◌, IfOk};
ghost use Rattle.open_types.specs.Open.{open_view};
ghost use Rattle.component.specs.Leaves.{term_view};
ghost use Rattle.component.specs.Places.{place};
ghost use Rattle.shapes.specs.Declarations.{unannotated};
ghost use Rattle.terms.specs.Terms.{keywords_of, value_place, field_term};

use component::{Place, Term, annotated, place_term};
use open_types::OpenType;
use schema_trees::Annotations as SchemaAnnotations;
use shapes::Annotations;
use std::alloc::{AllocError, Global};

/// What is said, as keywords of a schema.
pub(crate) fn keywords_of(
    alloc: Global,
    annotations: &Annotations,
) -> Result<SchemaAnnotations, AllocError>
    ensures { IfOk result (λ keywords. keywords ≡ keywords_of annotations.now) }
{
    annotated(alloc, annotations.deprecated, &annotations.description)
}

/// The schema of a place of the type, where null may be.
pub(crate) fn nullable_term(
    alloc: Global,
    annotations: &Annotations,
    nullable: bool,
    ty: &OpenType,
) -> Result<Term, AllocError>
    ensures { IfOk result
        (λ t. term_view t ≡ place (value_place nullable annotations.now) (open_view ty.now)) }
{
    let at = Place {
        nullable,
        inline: false,
        deprecated: annotations.deprecated,
        description: &annotations.description,
    };
    place_term(alloc, at, ty)
}

/// The schema of a field of the type.
pub fn field_term(
    alloc: Global,
    annotations: &Annotations,
    ty: &OpenType,
) -> Result<Term, AllocError>
    ensures { IfOk result (λ t. term_view t ≡ field_term annotations.now (open_view ty.now)) }
{
    nullable_term(alloc, annotations, false, ty)
}

/// The schema of a field of the type, of which nothing is said.
pub(crate) fn unannotated_term(alloc: Global, ty: &OpenType) -> Result<Term, AllocError>
    ensures { IfOk result (λ t. term_view t ≡ field_term unannotated (open_view ty.now)) }
{
    let nothing = Annotations {
        deprecated: false,
        description: None,
    };
    field_term(alloc, &nothing, ty)
}
