//! Members of objects, and objects around them.

ghost use Rattle.std.specs.Prelude.{◌≡◌};

use component::Term;
use diag::DeriveError;
use place_schemas::ToTerm;
use schema_trees::Annotations;
use shapes::Member;
use std::alloc::Global;
use terms::{field_term, requiring};
use texts::Text;

/// A member of named fields, by its name and what stands there.
#[derive(Clone, Copy)]
pub struct Property<'a> {
    pub member: &'a Member,
}

impl<'a> Property<'a> {
    /// The property of the member.
    pub fn new(member: &'a Member) -> Property<'a>
        ensures { result.member.now ≡ member.now }
    {
        Property { member }
    }
}

impl ToTerm for Property<'_> {
    ghost use Rattle.std.specs.Prelude.{◌≡◌};
    ghost use Rattle.open_types.specs.Open.{open_view};
    ghost use Rattle.terms.specs.Terms.{field_term};

    ghost has_term = { λ p t. t ≡ field_term p.member.now.annotations (open_view p.member.now.ty) };

    fn to_term(&self, alloc: Global) -> Result<Term, DeriveError> {
        Ok(field_term(alloc, &self.member.annotations, &self.member.ty)?)
    }
}

/// An object that has an item under the name, and perhaps other members.
#[derive(Drop)]
pub struct ObjectSchema<'a, T> {
    pub name: &'a Text,
    pub item: &'a T,
}

impl<'a, T> ObjectSchema<'a, T> {
    /// The object that requires the member `name`, which is the item.
    pub fn new(name: &'a Text, item: &'a T) -> ObjectSchema<'a, T>
        ensures name { result.name.now ≡ name.now }
        ensures item { result.item.now ≡ item.now }
    {
        ObjectSchema { name, item }
    }
}

impl<T: ToTerm> ToTerm for ObjectSchema<'_, T> {
    ghost use Rattle.std.specs.Prelude.{◌≡◌};
    ghost use Rattle.schema_trees.specs.Annotations.{no_annotations};
    ghost use Rattle.schema_trees.specs.Schema.{SchemaOf};
    ghost use Rattle.component.specs.Leaves.{LeafOf};
    ghost use Rattle.terms.specs.Terms.{requiring};

    ghost is_ready = { λ o. T.is_ready o.item.now };

    ghost has_term = { λ o t. (s : SchemaOf LeafOf) × T.has_term o.item.now s
        × (t ≡ requiring no_annotations o.name.now s) };

    ghost is_refused = { λ o e. T.is_refused o.item.now e };

    fn to_term(&self, alloc: Global) -> Result<Term, DeriveError> {
        let item = self.item.to_term(alloc)?;
        Ok(requiring(alloc, Annotations::new(), self.name, item)?)
    }
}
