//! What is said of a declaration.

ghost use Rattle.std.specs.Prelude.{◌≡◌, ◌<◌, ◌++◌, Some, length, map, option_map, slice_get, IfOk, OnOk};
ghost use Rattle.std.specs.List.{flat_map};
ghost use Rattle.attributes.specs.Attributes.{attribute_view};
ghost use Rattle.written_types.specs.Written.{written_view};
ghost use Rattle.serde_names.specs.Kept.{value_of, is_kept, flattened};
ghost use Rattle.syntax.specs.Items.{field_view, fields_view, variant_view, body_view, declarations_view, DeclaredItem as AnyDeclared};
ghost use Rattle.open_types.specs.Open.{open_view};
ghost use Rattle.warnings.specs.Rules.{warning_view};
ghost use Rattle.warnings.specs.Through.{declarations_of};
ghost use Rattle.warnings.specs.Flat.{flat_view, known};
ghost use Rattle.warnings.specs.Warned.{IsKnown, inside_view, field_place, warnings_of_member, warnings_of_field, flattened_type, flattened_place, warnings_of_flattened, warnings_of_either, warnings_of_named, warnings_of_unnamed, around_fields, warnings_of_fields, have_names, warnings_of_variant, has_named_variant, struct_place, enum_place, warnings_of_body, warnings_of};

use crate::flat::{Flat, Test, flattens, resolved};
use crate::flattened::{asks_always, push_flattened_type};
use crate::items::push_attributes;
use crate::keys::push_keys;
use crate::lookup::Lookup;
use crate::rules::Place;
use crate::types::{is_option, is_required, push_option};
use crate::warning::Warning;
use attributes::Attribute;
use open_types::OpenType;
use scopes::{Container, Places, Scope};
use serde_names::is_flattened;
use serde_rules::{SerdeValue, parse_value, stands_before};
use std::alloc::{AllocError, Global};
use syntax::{Body, Field, Fields, Variant};
use texts::List;
use written_types::WrittenType;

/// Where a declaration is written.
#[derive(Clone, Copy)]
pub(crate) struct Inside<'i> {
    /// Where names are looked up.
    lookup: &'i Lookup<'i>,
    /// What they mean in the declaration.
    container: &'i Container<'i>,
}

/// What stands around a field.
#[derive(Clone, Copy)]
pub(crate) struct Around {
    /// Others are denied beside it.
    denied: bool,
    /// What has it has a `default`.
    default: bool,
    /// Several fields beside each other are flattened.
    several: bool,
}

/// Where serde's items stand before a named field that they say this of.
fn field_place(denied: bool, default: bool, value: &SerdeValue, ty: &WrittenType) -> Place
    ensures { result ≡ field_place denied default value.now (written_view ty.now) }
{
    Place::Field {
        denied,
        option: is_option(ty),
        default: default || value.default,
    }
}

/// Adds what is said of the type of a named field that is kept, in what has a `default` or not.
fn push_member(
    alloc: Global,
    warnings: &mut List<Warning>,
    places: &Places<'_>,
    default: bool,
    value: &SerdeValue,
    ty: &WrittenType,
) -> Result<(), AllocError>
    ensures { OnOk result (map warning_view warnings.new ≡ map warning_view warnings.old
        ++ warnings_of_member (declarations_of places.now) default value.now
        (written_view ty.now)) }
{
    push_option(
        warnings,
        places,
        is_required(value, default),
        value.double_option,
        ty,
    )?;
    push_keys(alloc, warnings, places, ty)
}

/// Adds what is said of a named field that is neither skipped nor flattened, and of which serde's items say this.
fn push_field(
    alloc: Global,
    warnings: &mut List<Warning>,
    places: &Places<'_>,
    around: Around,
    value: &SerdeValue,
    field: &Field,
) -> Result<(), AllocError>
    requires value { value.now ≡ value_of (field_view field.now) }
    ensures { OnOk result (map warning_view warnings.new
        ≡ map warning_view warnings.old ++ warnings_of_field (declarations_of places.now)
        around.denied around.default (field_view field.now)) }
{
    let place = field_place(around.denied, around.default, value, &field.ty);
    push_attributes(warnings, place, field.attrs.as_slice())?;
    if value.skip {
        Ok(())
    } else {
        push_member(alloc, warnings, places, around.default, value, &field.ty)
    }
}

/// Where serde's items stand before a flattened field of this type.
fn flattened_place(flats: &[Flat], denied: bool, of: &Option<OpenType>) -> Place
    ensures { result ≡ flattened_place (map flat_view flats.now) denied
        (option_map open_view of.now) }
{
    let asked = match of {
        Some(of) => asks_always(flats, of),
        None => false,
    };
    Place::Flattened { denied, asked }
}

/// Adds what is said of a flattened field that is not skipped, where its type stands for this.
fn push_flattened_as(
    alloc: Global,
    warnings: &mut List<Warning>,
    inside: &Inside<'_>,
    around: Around,
    field: &Field,
    of: &Option<OpenType>,
) -> Result<(), AllocError>
    ensures { OnOk result (map warning_view warnings.new ≡ map warning_view warnings.old
        ++ warnings_of_flattened (inside_view inside.now) around (field_view field.now)
        (option_map open_view of.now)) }
{
    let place = flattened_place(inside.lookup.flats.as_slice(), around.denied, of);
    push_attributes(warnings, place, field.attrs.as_slice())?;
    match of {
        Some(of) => push_flattened_type(
            alloc,
            warnings,
            inside.lookup,
            around.several,
            &field.ty,
            of,
        ),
        None => Ok(()),
    }
}

/// What the type of a flattened field stands for, where the field is kept.
fn flattened_type(
    alloc: Global,
    container: &Container<'_>,
    kept: bool,
    field: &Field,
) -> Result<Option<OpenType>, AllocError>
    requires { kept ≡ is_kept (field_view field.now) }
    ensures { IfOk result (λ of. option_map open_view of
        ≡ flattened_type (known container.now) (field_view field.now)) }
{
    if kept {
        resolved(alloc, container, &field.ty)
    } else {
        Ok(None)
    }
}

/// Adds what is said of a flattened field that is not skipped.
fn push_flattened(
    alloc: Global,
    warnings: &mut List<Warning>,
    inside: &Inside<'_>,
    around: Around,
    kept: bool,
    field: &Field,
) -> Result<(), AllocError>
    requires { kept ≡ is_kept (field_view field.now) }
    ensures { OnOk result (map warning_view warnings.new ≡ map warning_view warnings.old
        ++ warnings_of_flattened (inside_view inside.now) around (field_view field.now)
        (flattened_type (known inside.now.container.now) (field_view field.now))) }
{
    let of = flattened_type(alloc, inside.container, kept, field)?;
    push_flattened_as(alloc, warnings, inside, around, field, &of)
}

/// Adds what is said of a named field that is not skipped.
fn push_either(
    alloc: Global,
    warnings: &mut List<Warning>,
    inside: &Inside<'_>,
    around: Around,
    field: &Field,
) -> Result<(), AllocError>
    ensures { OnOk result (map warning_view warnings.new ≡ map warning_view warnings.old
        ++ warnings_of_either (inside_view inside.now) around (field_view field.now)) }
{
    let value = parse_value(alloc, field.attrs.as_slice())?;
    if value.flatten {
        push_flattened(alloc, warnings, inside, around, !value.skip, field)
    } else {
        push_field(alloc, warnings, inside.lookup.places, around, &value, field)
    }
}

/// Adds what is said of a named field, unless it is skipped.
fn push_unless_skipped(
    alloc: Global,
    warnings: &mut List<Warning>,
    inside: &Inside<'_>,
    around: Around,
    field: &Field,
) -> Result<(), AllocError>
    ensures { OnOk result (map warning_view warnings.new ≡ map warning_view warnings.old
        ++ warnings_of_named (inside_view inside.now) around (field_view field.now)) }
{
    if stands_before(field.attrs.as_slice(), "skip") {
        Ok(())
    } else {
        push_either(alloc, warnings, inside, around, field)
    }
}

/// Adds what is said of named fields.
fn push_named(
    alloc: Global,
    warnings: &mut List<Warning>,
    inside: &Inside<'_>,
    around: Around,
    fields: &[Field],
) -> Result<(), AllocError>
    ensures { OnOk result (map warning_view warnings.new ≡ map warning_view warnings.old
        ++ flat_map (warnings_of_named (inside_view inside.now) around)
        (map field_view fields.now)) }
{
    for field in fields {
        push_unless_skipped(alloc, warnings, inside, around, field)?;
    }
    Ok(())
}

/// How many of the fields are flattened.
fn count_flattened(alloc: Global, fields: &[Field]) -> Result<usize, AllocError>
    ensures { IfOk result (λ count. count ≡ length (flattened (map field_view fields.now))) }
{
    let mut count: usize = 0;
    for field in fields {
        if is_flattened(alloc, field)? {
            count = count.checked_add(1).ok_or(AllocError)?;
        }
    }
    Ok(count)
}

/// What stands around named fields behind these attributes of their struct or variant.
fn around_fields(
    alloc: Global,
    around: &[Attribute],
    fields: &[Field],
) -> Result<Around, AllocError>
    ensures { IfOk result (λ it. it
        ≡ around_fields (map attribute_view around.now) (map field_view fields.now)) }
{
    let count = count_flattened(alloc, fields)?;
    Ok(Around {
        denied: stands_before(around, "deny_unknown_fields"),
        default: stands_before(around, "default"),
        several: count > 1,
    })
}

/// Adds what is said of unnamed fields.
fn push_unnamed(
    alloc: Global,
    warnings: &mut List<Warning>,
    places: &Places<'_>,
    fields: &[Field],
) -> Result<(), AllocError>
    ensures { OnOk result (map warning_view warnings.new
        ≡ map warning_view warnings.old
        ++ flat_map (warnings_of_unnamed (declarations_of places.now))
        (map field_view fields.now)) }
{
    for field in fields {
        push_attributes(warnings, Place::Unnamed, field.attrs.as_slice())?;
        push_keys(alloc, warnings, places, &field.ty)?;
    }
    Ok(())
}

/// Adds what is said of fields behind these attributes of their struct or variant.
fn push_fields(
    alloc: Global,
    warnings: &mut List<Warning>,
    inside: &Inside<'_>,
    around: &[Attribute],
    fields: &Fields,
) -> Result<(), AllocError>
    ensures { OnOk result (map warning_view warnings.new ≡ map warning_view warnings.old
        ++ warnings_of_fields (inside_view inside.now) (map attribute_view around.now)
        (fields_view fields.now)) }
{
    match fields {
        Fields::Named(fields) => {
            let fields = fields.as_slice();
            let around = around_fields(alloc, around, fields)?;
            push_named(alloc, warnings, inside, around, fields)
        }
        Fields::Unnamed(fields) => {
            push_unnamed(alloc, warnings, inside.lookup.places, fields.as_slice())
        }
        Fields::Unit => Ok(()),
    }
}

/// Whether the fields are named ones.
fn have_names(fields: &Fields) -> bool
    ensures { result ≡ have_names (fields_view fields.now) }
{
    matches!(fields, Fields::Named(_))
}

/// Adds what is said of a variant and of its fields, unless it is skipped.
fn push_variant(
    alloc: Global,
    warnings: &mut List<Warning>,
    inside: &Inside<'_>,
    variant: &Variant,
) -> Result<(), AllocError>
    ensures { OnOk result (map warning_view warnings.new
        ≡ map warning_view warnings.old
        ++ warnings_of_variant (inside_view inside.now) (variant_view variant.now)) }
{
    let attributes = variant.attrs.as_slice();
    if stands_before(attributes, "skip") {
        return Ok(());
    }
    let named = have_names(&variant.fields);
    push_attributes(warnings, Place::Variant { named }, attributes)?;
    push_fields(alloc, warnings, inside, attributes, &variant.fields)
}

/// Adds what is said of variants.
fn push_variants(
    alloc: Global,
    warnings: &mut List<Warning>,
    inside: &Inside<'_>,
    variants: &[Variant],
) -> Result<(), AllocError>
    ensures { OnOk result (map warning_view warnings.new ≡ map warning_view warnings.old
        ++ flat_map (warnings_of_variant (inside_view inside.now))
        (map variant_view variants.now)) }
{
    for variant in variants {
        push_variant(alloc, warnings, inside, variant)?;
    }
    Ok(())
}

/// Whether a variant that is kept has named fields.
fn has_named_variant(alloc: Global, variants: &[Variant]) -> Result<bool, AllocError>
    ensures { IfOk result (λ named. named ≡ has_named_variant (map variant_view variants.now)) }
{
    for variant in variants {
        let value = parse_value(alloc, variant.attrs.as_slice())?;
        if !value.skip && have_names(&variant.fields) {
            return Ok(true);
        }
    }
    Ok(false)
}

/// Where serde's items stand before a struct of these fields.
fn struct_place(
    alloc: Global,
    container: &Container<'_>,
    fields: &Fields,
) -> Result<Place, AllocError>
    ensures { IfOk result
        (λ place. place ≡ struct_place (known container.now) (fields_view fields.now)) }
{
    match fields {
        Fields::Named(fields) => Ok(Place::Struct {
            flattens: flattens(alloc, container, Test::NoMap, fields.as_slice())?,
        }),
        Fields::Unnamed(fields) => Ok(Place::Tuple {
            several: fields.len() > 1,
        }),
        Fields::Unit => Ok(Place::Tuple { several: false }),
    }
}

/// Where serde's items stand before an enum of these variants.
fn enum_place(
    alloc: Global,
    attributes: &[Attribute],
    variants: &[Variant],
) -> Result<Place, AllocError>
    ensures { IfOk result (λ place. place
        ≡ enum_place (map attribute_view attributes.now) (map variant_view variants.now)) }
{
    let content = stands_before(attributes, "content");
    let named = has_named_variant(alloc, variants)?;
    Ok(Place::Enum { content, named })
}

/// Adds what is said of the body of a declaration and of these attributes before it.
fn push_body(
    alloc: Global,
    warnings: &mut List<Warning>,
    inside: &Inside<'_>,
    attributes: &[Attribute],
    body: &Body,
) -> Result<(), AllocError>
    ensures { OnOk result (map warning_view warnings.new ≡ map warning_view warnings.old
        ++ warnings_of_body (inside_view inside.now) (map attribute_view attributes.now)
        (body_view body.now)) }
{
    match body {
        Body::Struct(fields) => {
            let place = struct_place(alloc, inside.container, fields)?;
            push_attributes(warnings, place, attributes)?;
            push_fields(alloc, warnings, inside, attributes, fields)
        }
        Body::Enum(variants) => {
            let place = enum_place(alloc, attributes, variants.as_slice())?;
            push_attributes(warnings, place, attributes)?;
            push_variants(alloc, warnings, inside, variants.as_slice())
        }
    }
}

/// What the declaration at the place is warned of, in the order of the source: of each item of serde's lists, by each rule that
/// it falls under, and of the types of fields.
pub fn warnings_of(
    alloc: Global,
    lookup: &Lookup<'_>,
    at: usize,
) -> Result<List<Warning>, AllocError>
    requires known { IsKnown lookup.now }
    requires within { at < length (declarations_view lookup.now.places.now.declarations.now) }
    ensures { IfOk result (λ ws. (d : AnyDeclared)
        × (slice_get (declarations_view lookup.now.places.now.declarations.now) at ≡ Some d)
        × (map warning_view ws ≡ warnings_of lookup.now.config.now
        (declarations_view lookup.now.places.now.declarations.now) d)) }
{
    let declaration = &lookup.places.declarations.items.as_slice()[at];
    let scope = Scope::new(alloc, lookup.places, at)?;
    let container = Container {
        scope: &scope,
        config: lookup.config,
    };
    let inside = Inside {
        lookup,
        container: &container,
    };
    let mut warnings = List::new(alloc);
    push_body(
        alloc,
        &mut warnings,
        &inside,
        declaration.attrs.as_slice(),
        &declaration.body,
    )?;
    Ok(warnings)
}
