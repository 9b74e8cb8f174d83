//! The schemas of enums.

ghost use Rattle.std.specs.Prelude.{map, IfOk};
ghost use Rattle.std.specs.List.{AllByRecursion};
ghost use Rattle.diag.specs.Refusal.{Refuses};
ghost use Rattle.syntax.specs.Items.{variant_view};
ghost use Rattle.syntax.specs.Named.{HaveNames};
ghost use Rattle.declaration_schemas.specs.Made.{IsMadeOf, enum_of, names_of, variants_of, AreRefusedNames, IsRefusedEnum};

use crate::body_schema::BodySchema;
use crate::kinds::{AnyVariants, VariantFields, VariantNames};
use derive_decl::{Root, enum_body, mixed_body, plain_body};
use diag::DeriveError;
use std::alloc::Global;
use syntax::Variant;

/// An enum.
pub type EnumSchema = BodySchema<AnyVariants>;

/// An enum of variants without fields.
pub type PlainEnum = BodySchema<VariantNames>;

/// An enum of which a variant has fields. Its schema is one of those of its variants.
pub type MixedEnum = BodySchema<VariantFields>;

impl BodySchema<AnyVariants> {
    /// The enum of the root with these variants.
    ///
    /// A refusal is of kind `SerdeTag` or `BadValue`, for serde's attributes of the enum, or `SerdeTag` at its name where
    /// they name a content and no tag. Of the variants that are kept it is `MissingRow`, at an identifier whose name is
    /// that of a row that there is not; `DuplicateName`, at the first identifier whose name stands before it; what a struct
    /// of these fields is refused for; `TaggedTuple`, at the variant, where a tag alone should stand among several
    /// unnamed fields, in a tuple or in the unit; or `DuplicateName`, at the variant's identifier, where its tag has the
    /// name of what stands beside it. The names of untagged variants need no row, and may be equal.
    pub fn new(alloc: Global, root: &Root<'_>, variants: &[Variant]) -> Result<Self, DeriveError>
        requires { AllByRecursion (λ v. HaveNames v.fields) (map variant_view variants.now) }
        ensures made { IfOk result (IsMadeOf root.now (enum_of root.now variants.now)) }
        ensures refused { Refuses result (IsRefusedEnum root.now variants.now) }
    {
        BodySchema::annotated(alloc, root, enum_body(alloc, root, variants)?)
    }
}

impl BodySchema<VariantNames> {
    /// The enum of the root with these variants by their names: their fields are not looked at. It is refused as
    /// `EnumSchema::new` is for serde's attributes of the enum and for the names of its variants.
    pub fn new(alloc: Global, root: &Root<'_>, variants: &[Variant]) -> Result<Self, DeriveError>
        ensures made { IfOk result (IsMadeOf root.now (names_of root.now variants.now)) }
        ensures refused { Refuses result (AreRefusedNames root.now variants.now) }
    {
        BodySchema::annotated(alloc, root, plain_body(alloc, root, variants)?)
    }
}

impl BodySchema<VariantFields> {
    /// The enum of the root with these variants by their fields, as if one of them had some. It is refused as
    /// `EnumSchema::new` is.
    pub fn new(alloc: Global, root: &Root<'_>, variants: &[Variant]) -> Result<Self, DeriveError>
        requires { AllByRecursion (λ v. HaveNames v.fields) (map variant_view variants.now) }
        ensures made { IfOk result (IsMadeOf root.now (variants_of root.now variants.now)) }
        ensures refused { Refuses result (IsRefusedEnum root.now variants.now) }
    {
        BodySchema::annotated(alloc, root, mixed_body(alloc, root, variants)?)
    }
}
