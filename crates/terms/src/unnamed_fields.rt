//! The schemas of unnamed fields. One field is read as its content, several as a list.

ghost use Rattle.std.specs.Prelude.{◌≡◌, map, IfOk};
ghost use Rattle.open_types.specs.Open.{open_view};
ghost use Rattle.schema_trees.specs.Schema.{tree_views, array_items_view};
ghost use Rattle.component.specs.Leaves.{leaf_view, term_view};
ghost use Rattle.terms.specs.Terms.{are_all, list_of_length, alike_term, field_terms, mixed_term, unnamed_term};

use crate::field::{field_term, unannotated_term};
use component::{Term, TermLeaf, annotated};
use open_types::OpenType;
use schema_trees::{Annotations as SchemaAnnotations, Array, ArrayItems, Bound, Tree};
use shapes::Annotations;
use std::alloc::{AllocError, Global};
use texts::List;

/// Whether the types are all the same.
fn are_all(first: &OpenType, others: &[OpenType]) -> bool
    ensures { result ≡ are_all (open_view first.now) (map open_view others.now) }
{
    for other in others {
        if first != other {
            return false;
        }
    }
    true
}

/// A list of so many elements; the schemas in front accept the first of them by position, the rest accepts the others.
fn list_of_length(
    alloc: Global,
    count: usize,
    keywords: SchemaAnnotations,
    front: List<Term>,
    rest: ArrayItems<TermLeaf>,
) -> Result<Term, AllocError>
    ensures { IfOk result
        (λ s. term_view s ≡ list_of_length count keywords (tree_views leaf_view front)
        (array_items_view leaf_view rest)) }
{
    let array = Array {
        nullable: false,
        items: rest,
        prefix_items: front,
        unique: false,
        max_items: Bound::new(count as i128),
        min_items: Bound::new(count as i128),
        annotations: keywords,
    };
    Ok(Tree::Array(Box::new(alloc, array)?))
}

/// The schema of so many fields of one type.
fn alike_term(
    alloc: Global,
    annotations: &Annotations,
    count: usize,
    ty: &OpenType,
) -> Result<Term, AllocError>
    ensures { IfOk result
        (λ s. term_view s ≡ alike_term annotations.now count (open_view ty.now)) }
{
    let keywords = annotated(alloc, false, &annotations.description)?;
    let each = ArrayItems::Each(field_term(alloc, annotations, ty)?);
    list_of_length(alloc, count, keywords, List::new(alloc), each)
}

/// The schemas of fields of these types, of which nothing is said.
fn field_terms(alloc: Global, types: &[OpenType]) -> Result<List<Term>, AllocError>
    ensures { IfOk result
        (λ ss. tree_views leaf_view ss ≡ field_terms (map open_view types.now)) }
{
    let mut terms = List::new(alloc);
    for ty in types {
        terms.push(unannotated_term(alloc, ty)?)?;
    }
    Ok(terms)
}

/// The schema of fields of these types: a list of just these, in their order.
fn mixed_term(
    alloc: Global,
    annotations: &Annotations,
    types: &[OpenType],
) -> Result<Term, AllocError>
    ensures { IfOk result
        (λ s. term_view s ≡ mixed_term annotations.now (map open_view types.now)) }
{
    let keywords = annotated(alloc, annotations.deprecated, &annotations.description)?;
    let front = field_terms(alloc, types)?;
    list_of_length(alloc, types.len(), keywords, front, ArrayItems::False)
}

/// The schema of unnamed fields of these types.
pub(crate) fn unnamed_term(
    alloc: Global,
    annotations: &Annotations,
    types: &[OpenType],
) -> Result<Term, AllocError>
    ensures { IfOk result
        (λ s. term_view s ≡ unnamed_term annotations.now (map open_view types.now)) }
{
    match types {
        [ty] => field_term(alloc, annotations, ty),
        [first, others @ ..] if are_all(first, others) => {
            alike_term(alloc, annotations, types.len(), first)
        }
        _ => mixed_term(alloc, annotations, types),
    }
}
