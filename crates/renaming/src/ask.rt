//! The names of declarations that need a row.

ghost use Rattle.std.specs.Prelude.{◌≡◌, [], ◌∷◌, ◌++◌, map, IfOk, OnOk};
ghost use Rattle.std.specs.List.{flat_map};
ghost use Rattle.diag.specs.Refusal.{Refuses, RefusesNone};
ghost use Rattle.attributes.specs.Attributes.{attribute_view, serde_items};
ghost use Rattle.syntax.specs.Items.{field_view, fields_view, variant_view, body_view, declaration_view, declarations_view};
ghost use Rattle.serde_names.specs.Asked.{is_given, asked_for, asked_of_field, asked_of_fields, asked_of_variants, asked_told_by, asked_of_body, asked_of_item, asked_of};
ghost use Rattle.serde_names.specs.Kept.{own};
ghost use Rattle.renaming.specs.Refusals.{AreRefusedFields, AreRefusedVariants, IsRefusedToldBy, IsRefusedBody, IsRefusedItem, AreRefusedItems};

use attributes::Attribute;
use diag::{DeriveError, RenamePlace, RenameRule};
use serde_names::Asked;
use serde_rules::{SerdeEnumRepr, SerdeValue, parse_container, parse_value};
use std::alloc::{AllocError, Global};
use syntax::{Body, Declaration, Declarations, Field, Fields, Ident, Variant};
use texts::{List, Text};

/// Whether the name is given. An empty one is none.
fn is_given(rename: &Option<Text>) -> bool
    ensures { result ≡ is_given rename.now }
{
    match rename {
        Some(name) => !name.as_str().is_empty(),
        None => false,
    }
}

/// Adds the identifier, where a rule says its name and serde's `value` before it gives none.
fn push_name(
    alloc: Global,
    names: &mut List<Asked>,
    place: RenamePlace,
    rule: Option<RenameRule>,
    value: &SerdeValue,
    ident: &Ident,
) -> Result<(), AllocError>
    ensures { OnOk result (names.new ≡ names.old ++ asked_for place rule value.now ident.now) }
{
    let Some(rule) = rule else {
        return Ok(());
    };
    if is_given(&value.rename) {
        return Ok(());
    }
    let ident = ident.copy(alloc)?;
    names.push(Asked { rule, place, ident })
}

/// Adds the name of the field, where serde keeps it and does not flatten it.
fn push_field(
    alloc: Global,
    names: &mut List<Asked>,
    rule: Option<RenameRule>,
    field: &Field,
) -> Result<(), AllocError>
    ensures { OnOk result (names.new
        ≡ names.old ++ flat_map (asked_of_field rule) (own (field_view field.now ∷ []))) }
{
    let value = parse_value(alloc, field.attrs.as_slice())?;
    if value.skip || value.flatten {
        return Ok(());
    }
    match &field.ident {
        Some(ident) => push_name(alloc, names, RenamePlace::Field, rule, &value, ident),
        None => Ok(()),
    }
}

/// Adds the names of the fields that serde keeps and does not flatten.
fn push_named(
    alloc: Global,
    names: &mut List<Asked>,
    rule: Option<RenameRule>,
    fields: &[Field],
) -> Result<(), AllocError>
    ensures { OnOk result (names.new
        ≡ names.old ++ flat_map (asked_of_field rule) (own (map field_view fields.now))) }
{
    for field in fields {
        push_field(alloc, names, rule, field)?;
    }
    Ok(())
}

/// Adds the names of fields, where they have names, behind these attributes of their struct or variant.
fn push_fields(
    alloc: Global,
    names: &mut List<Asked>,
    attributes: &[Attribute],
    fields: &Fields,
) -> Result<(), DeriveError>
    ensures names { OnOk result (names.new ≡ names.old
        ++ asked_of_fields (serde_items (map attribute_view attributes.now)) (fields_view fields.now)) }
    ensures faultless { OnOk result (RefusesNone
        (AreRefusedFields (serde_items (map attribute_view attributes.now)) (fields_view fields.now))) }
    ensures refused { Refuses result
        (AreRefusedFields (serde_items (map attribute_view attributes.now)) (fields_view fields.now)) }
{
    match fields {
        Fields::Named(fields) => {
            let rules = parse_container(alloc, attributes)?;
            Ok(push_named(alloc, names, rules.rename_all, fields.as_slice())?)
        }
        Fields::Unnamed(_) | Fields::Unit => Ok(()),
    }
}

/// Adds the name of the variant and those of its fields, where serde keeps it.
fn push_variant(
    alloc: Global,
    names: &mut List<Asked>,
    rule: Option<RenameRule>,
    variant: &Variant,
) -> Result<(), DeriveError>
    ensures names { OnOk result
        (names.new ≡ names.old ++ asked_of_variants rule (variant_view variant.now ∷ [])) }
    ensures faultless { OnOk result
        (RefusesNone (AreRefusedVariants (variant_view variant.now ∷ []))) }
    ensures refused { Refuses result (AreRefusedVariants (variant_view variant.now ∷ [])) }
{
    let value = parse_value(alloc, variant.attrs.as_slice())?;
    if value.skip {
        return Ok(());
    }
    push_name(
        alloc,
        names,
        RenamePlace::Variant,
        rule,
        &value,
        &variant.ident,
    )?;
    push_fields(alloc, names, variant.attrs.as_slice(), &variant.fields)
}

/// Adds the names of the variants and of their fields.
fn push_variants(
    alloc: Global,
    names: &mut List<Asked>,
    rule: Option<RenameRule>,
    variants: &[Variant],
) -> Result<(), DeriveError>
    ensures names { OnOk result
        (names.new ≡ names.old ++ asked_of_variants rule (map variant_view variants.now)) }
    ensures faultless { OnOk result
        (RefusesNone (AreRefusedVariants (map variant_view variants.now))) }
    ensures refused { Refuses result (AreRefusedVariants (map variant_view variants.now)) }
{
    for variant in variants {
        push_variant(alloc, names, rule, variant)?;
    }
    Ok(())
}

/// Adds the names of the variants that are told so, and of their fields.
fn push_told_by(
    alloc: Global,
    names: &mut List<Asked>,
    repr: &SerdeEnumRepr,
    rule: Option<RenameRule>,
    variants: &[Variant],
) -> Result<(), DeriveError>
    ensures names { OnOk result
        (names.new ≡ names.old ++ asked_told_by repr.now rule (map variant_view variants.now)) }
    ensures faultless { OnOk result
        (RefusesNone (IsRefusedToldBy repr.now (map variant_view variants.now))) }
    ensures refused { Refuses result (IsRefusedToldBy repr.now (map variant_view variants.now)) }
{
    match repr {
        SerdeEnumRepr::ExternallyTagged
        | SerdeEnumRepr::InternallyTagged { .. }
        | SerdeEnumRepr::AdjacentlyTagged { .. } => push_variants(alloc, names, rule, variants),
        SerdeEnumRepr::Untagged => push_variants(alloc, names, None, variants),
        SerdeEnumRepr::UnfinishedAdjacentlyTagged { .. } => Ok(()),
    }
}

/// Adds the names in the body of a declaration behind these attributes.
fn push_body(
    alloc: Global,
    names: &mut List<Asked>,
    attributes: &[Attribute],
    body: &Body,
) -> Result<(), DeriveError>
    ensures names { OnOk result (names.new ≡ names.old
        ++ asked_of_body (serde_items (map attribute_view attributes.now)) (body_view body.now)) }
    ensures faultless { OnOk result (RefusesNone
        (IsRefusedBody (serde_items (map attribute_view attributes.now)) (body_view body.now))) }
    ensures refused { Refuses result
        (IsRefusedBody (serde_items (map attribute_view attributes.now)) (body_view body.now)) }
{
    match body {
        Body::Struct(fields) => push_fields(alloc, names, attributes, fields),
        Body::Enum(variants) => {
            let rules = parse_container(alloc, attributes)?;
            push_told_by(
                alloc,
                names,
                &rules.enum_repr,
                rules.rename_all,
                variants.as_slice(),
            )
        }
    }
}

/// Adds the names of the declaration.
fn push_declaration(
    alloc: Global,
    names: &mut List<Asked>,
    declaration: &Declaration,
) -> Result<(), DeriveError>
    ensures names { OnOk result
        (names.new ≡ names.old ++ asked_of_item (declaration_view declaration.now)) }
    ensures faultless { OnOk result
        (RefusesNone (IsRefusedItem (declaration_view declaration.now))) }
    ensures refused { Refuses result (IsRefusedItem (declaration_view declaration.now)) }
{
    push_body(
        alloc,
        names,
        declaration.attrs.as_slice(),
        &declaration.body,
    )
}

/// The names of the declarations that need a row.
fn names_among(alloc: Global, declarations: &[Declaration]) -> Result<List<Asked>, DeriveError>
    ensures names { IfOk result (λ names. names ≡ asked_of (map declaration_view declarations.now)) }
    ensures faultless { IfOk result
        (λ _. RefusesNone (AreRefusedItems (map declaration_view declarations.now))) }
    ensures refused { Refuses result (AreRefusedItems (map declaration_view declarations.now)) }
{
    let mut names = List::new(alloc);
    for declaration in declarations {
        push_declaration(alloc, &mut names, declaration)?;
    }
    Ok(names)
}

/// The names that need a row, in the order of the source. A refusal is one of `serde_rules::parse_container`, for serde's
/// attributes of a struct with named fields, an enum, or a variant with named fields that serde keeps.
pub fn asked_names(alloc: Global, declarations: &Declarations) -> Result<List<Asked>, DeriveError>
    ensures names { IfOk result (λ names. names ≡ asked_of (declarations_view declarations.now)) }
    ensures faultless { IfOk result
        (λ _. RefusesNone (AreRefusedItems (declarations_view declarations.now))) }
    ensures refused { Refuses result (AreRefusedItems (declarations_view declarations.now)) }
{
    names_among(alloc, declarations.items.as_slice())
}
