//! One of several schemas.

ghost use Rattle.std.specs.Prelude.{◌≡◌, map, All, IfOk};
ghost use Rattle.std.specs.List.{AllZip};
ghost use Rattle.diag.specs.Refusal.{Refuses};
ghost use Rattle.texts.specs.Lists.{Somewhere};
ghost use Rattle.schema_trees.specs.Annotations.{no_annotations};
ghost use Rattle.schema_trees.specs.Schema.{one_of, schemas_of};
ghost use Rattle.component.specs.Leaves.{term_view};

use component::Term;
use diag::DeriveError;
use place_schemas::ToTerm;
use schema_trees::{Annotations, OneOfSchema, Tree};
use std::alloc::{AllocError, Global};
use texts::List;

/// One of the items.
#[derive(Drop)]
pub struct OneOf<'a, T> {
    pub items: &'a [T],
}

impl<'a, T> OneOf<'a, T> {
    /// The `oneOf` of the items, in order.
    pub fn new(items: &'a [T]) -> OneOf<'a, T>
        ensures { result.items.now ≡ items.now }
    {
        OneOf { items }
    }
}

/// The terms of the items, in order.
fn terms_of<T: ToTerm>(alloc: Global, items: &[T]) -> Result<List<Term>, DeriveError>
    requires { All T.is_ready items.now }
    ensures terms { IfOk result (λ ts. AllZip T.has_term items.now (map term_view ts)) }
    ensures refused { Refuses result (λ e. Somewhere (λ x. T.is_refused x e) items.now) }
{
    let mut terms = List::new(alloc);
    for item in items {
        terms.push(item.to_term(alloc)?)?;
    }
    Ok(terms)
}

/// One of the schemas.
fn one_of_terms(alloc: Global, items: List<Term>) -> Result<Term, AllocError>
    ensures { IfOk result (λ t. term_view t
        ≡ one_of no_annotations (schemas_of (map term_view items))) }
{
    let annotations = Annotations::new();
    Ok(Tree::OneOf(Box::new(alloc, OneOfSchema { items, annotations })?))
}

impl<T: ToTerm> ToTerm for OneOf<'_, T> {
    ghost use Rattle.std.specs.Prelude.{◌≡◌, All, List as AnyList};
    ghost use Rattle.std.specs.List.{AllZip};
    ghost use Rattle.texts.specs.Lists.{Somewhere};
    ghost use Rattle.schema_trees.specs.Annotations.{no_annotations};
    ghost use Rattle.schema_trees.specs.Schema.{SchemaOf, one_of, schemas_of};
    ghost use Rattle.component.specs.Leaves.{LeafOf};

    ghost is_ready = { λ o. All T.is_ready o.items.now };

    ghost has_term = { λ o t. (ss : AnyList (SchemaOf LeafOf)) × AllZip T.has_term o.items.now ss
        × (t ≡ one_of no_annotations (schemas_of ss)) };

    ghost is_refused = { λ o e. Somewhere (λ x. T.is_refused x e) o.items.now };

    fn to_term(&self, alloc: Global) -> Result<Term, DeriveError> {
        let items = terms_of(alloc, self.items)?;
        Ok(one_of_terms(alloc, items)?)
    }
}
