//! The schemas of what is flattened into named fields.

ghost use Rattle.std.specs.Prelude.{◌≡◌, map, IfOk};
ghost use Rattle.open_types.specs.Open.{open_view};
ghost use Rattle.schema_trees.specs.Schema.{tree_views, no_schemas, additional_view};
ghost use Rattle.component.specs.Leaves.{leaf_view, term_view};
ghost use Rattle.shapes.specs.Declarations.{others_of};
ghost use Rattle.shapes.specs.Views.{flattened_view, beside_view};
ghost use Rattle.terms.specs.Terms.{values_term, others_part, flattened_terms};

use crate::field::{field_term, keywords_of, nullable_term, unannotated_term};
use crate::object::boxed;
use component::{Term, TermLeaf, annotated_null, one_of_null};
use open_types::OpenType;
use schema_trees::{Additional, Object, TypeWord};
use shapes::{Annotations, Beside, Flattened, flattened_of};
use std::alloc::{AllocError, Global};
use texts::List;

/// The schema of the values of a flattened map, where null may be, of which this is said.
fn values_term(
    alloc: Global,
    annotations: &Annotations,
    nullable: bool,
    ty: &OpenType,
) -> Result<Term, AllocError>
    ensures { IfOk result (λ t. term_view t
        ≡ values_term annotations.now nullable (open_view ty.now)) }
{
    match ty {
        OpenType::Option(of) => values_term(alloc, annotations, true, of),
        OpenType::Through(_, of) => values_term(alloc, annotations, nullable, of),
        OpenType::Unit => {
            let (deprecated, description) = (annotations.deprecated, &annotations.description);
            let keywords = annotated_null(alloc, deprecated, description)?;
            boxed(alloc, Object::new(alloc, TypeWord::Any, keywords))
        }
        OpenType::Named(_, _) if nullable => {
            let reference = unannotated_term(alloc, ty)?;
            one_of_null(alloc, reference, keywords_of(alloc, annotations)?)
        }
        _ => nullable_term(alloc, annotations, nullable, ty),
    }
}

/// What members other than the properties may be.
pub(crate) fn others_of(
    alloc: Global,
    denies: bool,
    beside: &Option<Box<Beside>>,
) -> Result<Additional<TermLeaf>, AllocError>
    ensures { IfOk result (λ others. additional_view leaf_view others
        ≡ others_part (others_of (beside_view denies beside.now))) }
{
    if denies && flattened_of(beside).is_empty() {
        return Ok(Additional::Truth(false));
    }
    match beside {
        Some(beside) => match &beside.map {
            Some(map) => {
                let values = values_term(alloc, &map.annotations, false, &map.value)?;
                Ok(Additional::Of(values))
            }
            None => Ok(Additional::Absent),
        },
        None => Ok(Additional::Absent),
    }
}

/// The schemas of flattened fields.
pub(crate) fn flattened_terms(
    alloc: Global,
    flattened: &[Flattened],
) -> Result<List<Term>, AllocError>
    ensures { IfOk result (λ items. tree_views leaf_view items
        ≡ flattened_terms (map flattened_view flattened.now) no_schemas) }
{
    let mut items = List::new(alloc);
    for field in flattened {
        items.push(field_term(alloc, &field.annotations, &field.ty)?)?;
    }
    Ok(items)
}
