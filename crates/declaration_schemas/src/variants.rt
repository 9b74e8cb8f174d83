//! The schemas of variants, one by one, and of names.

ghost use Rattle.std.specs.Prelude.{◌≡◌};

use component::Term;
use diag::DeriveError;
use open_types::OpenType;
use place_schemas::ToTerm;
use schema_trees::Annotations as SchemaAnnotations;
use shapes::{Annotations, Tagging, Variant};
use std::alloc::Global;
use std::slice;
use terms::{tagged_fields, texts_schema, variant_term};
use texts::Text;

/// A variant of an enum of which a variant has fields, and how the enum's values tell it.
#[derive(Clone, Copy)]
pub struct MixedEnumContent<'a> {
    pub tagging: &'a Tagging,
    pub variant: &'a Variant,
}

impl<'a> MixedEnumContent<'a> {
    /// What stands for the variant, which values tell by the tagging.
    pub fn new(tagging: &'a Tagging, variant: &'a Variant) -> MixedEnumContent<'a>
        ensures tagging { result.tagging.now ≡ tagging.now }
        ensures variant { result.variant.now ≡ variant.now }
    {
        MixedEnumContent { tagging, variant }
    }
}

impl ToTerm for MixedEnumContent<'_> {
    ghost use Rattle.std.specs.Prelude.{◌≡◌};
    ghost use Rattle.shapes.specs.Views.{variant_view};
    ghost use Rattle.terms.specs.Terms.{variant_term};

    ghost has_term = { λ c t. t ≡ variant_term c.tagging.now (variant_view c.variant.now) };

    fn to_term(&self, alloc: Global) -> Result<Term, DeriveError> {
        Ok(variant_term(alloc, self.tagging, self.variant)?)
    }
}

/// The content of a variant with one unnamed field, whose tag stands in it or beside it.
#[derive(Clone, Copy)]
pub struct InternallyTaggedUnnamedSchema<'a> {
    pub tag: &'a Text,
    /// The name of the variant, which is the tag's text.
    pub name: &'a Text,
    /// What is said of the variant.
    pub annotations: &'a Annotations,
    pub ty: &'a OpenType,
}

impl<'a> InternallyTaggedUnnamedSchema<'a> {
    /// The internally tagged newtype variant of this name and type, with this tag.
    pub fn new(
        tag: &'a Text,
        name: &'a Text,
        annotations: &'a Annotations,
        ty: &'a OpenType,
    ) -> InternallyTaggedUnnamedSchema<'a>
        ensures tag { result.tag.now ≡ tag.now }
        ensures name { result.name.now ≡ name.now }
        ensures annotations { result.annotations.now ≡ annotations.now }
        ensures ty { result.ty.now ≡ ty.now }
    {
        InternallyTaggedUnnamedSchema {
            tag,
            name,
            annotations,
            ty,
        }
    }
}

impl ToTerm for InternallyTaggedUnnamedSchema<'_> {
    ghost use Rattle.std.specs.Prelude.{◌≡◌, ◌∷◌, []};
    ghost use Rattle.open_types.specs.Open.{open_view};
    ghost use Rattle.shapes.specs.Declarations.{unnamed_fields};
    ghost use Rattle.terms.specs.Terms.{internal_term};

    ghost has_term = { λ c t. t ≡ internal_term c.annotations.now c.tag.now c.name.now
        (unnamed_fields (open_view c.ty.now ∷ [])) };

    fn to_term(&self, alloc: Global) -> Result<Term, DeriveError> {
        let types = slice::from_ref(self.ty);
        Ok(tagged_fields(alloc, self.annotations, types, self.tag, self.name)?)
    }
}

/// One of the names, as a text.
#[derive(Clone, Copy)]
pub struct PlainSchema<'a> {
    pub names: &'a [Text],
}

impl<'a> PlainSchema<'a> {
    /// The schema of a text that is one of the names.
    pub fn new(names: &'a [Text]) -> PlainSchema<'a>
        ensures { result.names.now ≡ names.now }
    {
        PlainSchema { names }
    }
}

impl ToTerm for PlainSchema<'_> {
    ghost use Rattle.std.specs.Prelude.{◌≡◌};
    ghost use Rattle.schema_trees.specs.Annotations.{no_annotations};
    ghost use Rattle.terms.specs.Terms.{texts_schema};

    ghost has_term = { λ p t. t ≡ texts_schema no_annotations p.names.now };

    fn to_term(&self, alloc: Global) -> Result<Term, DeriveError> {
        Ok(texts_schema(alloc, SchemaAnnotations::new(), self.names)?)
    }
}
