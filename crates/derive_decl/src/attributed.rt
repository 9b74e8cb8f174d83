//! Attributes that nothing is derived from.

ghost use Rattle.std.specs.Prelude.{◌≡◌, [], ◌∷◌, ◌++◌, map, IfOk, None, Some};
ghost use Rattle.std.specs.List.{flat_map};
ghost use Rattle.diag.specs.Refusal.{Refuses};
ghost use Rattle.attributes.specs.Attributes.{attribute_view};
ghost use Rattle.syntax.specs.Items.{field_view, fields_view, variant_view, body_view, declaration_view, declarations_view};
ghost use Rattle.derive_decl.specs.Attributed.{fields_in, attributes_on, attributes_inside, attributes_with, attributes_in, attributes_among, is_other, other_of, first_other, first_feature};
ghost use Rattle.derive_decl.specs.Faults.{IsUnderivable, AreUnderivable, AreDerivable};

use crate::feature::{Feature, Other};
use diag::DeriveError;
use std::alloc::Global;
use syntax::{Attribute, Body, Declaration, Declarations, Field, Fields, Variant};

/// Whether the attribute is one of `schema` or `repr`.
fn is_other(attribute: &Attribute) -> bool
    ensures { result ≡ is_other (attribute_view attribute.now) }
{
    attribute.is("schema") || attribute.is("repr")
}

/// What the attribute asks for, and where it stands.
fn other_of(attribute: &Attribute) -> Other
    ensures { result ≡ other_of (attribute_view attribute.now) }
{
    let feature = if attribute.is("schema") {
        Feature::Schema
    } else {
        Feature::Repr
    };
    Other {
        span: attribute.span,
        feature,
    }
}

/// The attribute, if nothing is derived from it.
fn other(attribute: &Attribute) -> Option<Other>
    ensures { result ≡ first_other (attribute_view attribute.now ∷ []) }
{
    if is_other(attribute) {
        Some(other_of(attribute))
    } else {
        None
    }
}

/// The first attribute from which nothing is derived.
fn first_other(attributes: &[Attribute]) -> Option<Other>
    ensures { result ≡ first_other (map attribute_view attributes.now) }
{
    for attribute in attributes {
        if let Some(other) = other(attribute) {
            return Some(other);
        }
    }
    None
}

fn first_on_fields(fields: &[Field]) -> Option<Other>
    ensures { result ≡ first_other (flat_map (λ f. f.attrs) (map field_view fields.now)) }
{
    for field in fields {
        if let Some(other) = first_other(field.attrs.as_slice()) {
            return Some(other);
        }
    }
    None
}

fn fields_of(fields: &Fields) -> &[Field]
    ensures { map field_view result.now ≡ fields_in (fields_view fields.now) }
{
    match fields {
        Fields::Named(fields) => fields.as_slice(),
        Fields::Unnamed(fields) => fields.as_slice(),
        Fields::Unit => &[],
    }
}

#[tactic(auto, using(crate::proofs::First::first_joined))]
fn first_on_variant(variant: &Variant) -> Option<Other>
    ensures { result ≡ first_other ((variant_view variant.now).attrs
        ++ attributes_on (variant_view variant.now).fields) }
{
    let before = first_other(variant.attrs.as_slice());
    let inside = first_on_fields(fields_of(&variant.fields));
    before.or(inside)
}

fn first_on_variants(variants: &[Variant]) -> Option<Other>
    ensures { result ≡ first_other (flat_map (λ v. v.attrs ++ attributes_on v.fields)
        (map variant_view variants.now)) }
{
    for variant in variants {
        if let Some(other) = first_on_variant(variant) {
            return Some(other);
        }
    }
    None
}

fn first_inside(body: &Body) -> Option<Other>
    ensures { result ≡ first_other (attributes_inside (body_view body.now)) }
{
    match body {
        Body::Struct(fields) => first_on_fields(fields_of(fields)),
        Body::Enum(variants) => first_on_variants(variants.as_slice()),
    }
}

#[tactic(auto, using(crate::proofs::First::first_joined))]
fn first_with(attributes: &[Attribute], body: &Body) -> Option<Other>
    ensures { result ≡ first_other
        (attributes_with (map attribute_view attributes.now) (body_view body.now)) }
{
    let before = first_other(attributes);
    let inside = first_inside(body);
    before.or(inside)
}

fn first_in(declaration: &Declaration) -> Option<Other>
    ensures { result ≡ first_other (attributes_in (declaration_view declaration.now)) }
{
    first_with(declaration.attrs.as_slice(), &declaration.body)
}

/// What the first attribute of the declaration asks for from which nothing is derived.
pub fn first_feature(declaration: &Declaration) -> Option<Feature>
    ensures { result ≡ first_feature (declaration_view declaration.now) }
{
    match first_in(declaration) {
        Some(other) => Some(other.feature),
        None => None,
    }
}

fn first_among(declarations: &[Declaration]) -> Option<Other>
    ensures { result ≡ first_other (attributes_among (map declaration_view declarations.now)) }
{
    for declaration in declarations {
        if let Some(other) = first_in(declaration) {
            return Some(other);
        }
    }
    None
}

/// Refuses a declaration of these attributes and this body that has an attribute from which nothing is derived, at the
/// first one.
pub(crate) fn derivable(
    alloc: Global,
    attributes: &[Attribute],
    body: &Body,
) -> Result<(), DeriveError>
    ensures derivable { IfOk result (λ _. first_other
        (attributes_with (map attribute_view attributes.now) (body_view body.now)) ≡ None) }
    ensures refused { Refuses result (IsUnderivable
        (attributes_with (map attribute_view attributes.now) (body_view body.now))) }
{
    match first_with(attributes, body) {
        Some(other) => Err(DeriveError::syntax(alloc, other.span)),
        None => Ok(()),
    }
}

/// Refuses declarations that have an attribute from which nothing is derived: one of `schema` or `repr`. The kind is
/// `Syntax`, at the first of these.
pub fn only_derivable(alloc: Global, declarations: &Declarations) -> Result<(), DeriveError>
    ensures derivable { IfOk result (λ _. AreDerivable (declarations_view declarations.now)) }
    ensures refused { Refuses result (AreUnderivable (declarations_view declarations.now)) }
{
    match first_among(declarations.items.as_slice()) {
        Some(other) => Err(DeriveError::syntax(alloc, other.span)),
        None => Ok(()),
    }
}
