//! What declarations are where a field of their type is flattened.

ghost use Rattle.std.specs.Prelude.{◌≡◌, map, option_map, IfOk};
ghost use Rattle.std.specs.List.{list_any};
ghost use Rattle.attributes.specs.Attributes.{attribute_view};
ghost use Rattle.written_types.specs.Written.{written_view};
ghost use Rattle.syntax.specs.Items.{field_view, fields_view, variant_view, body_view, declaration_view};
ghost use Rattle.open_types.specs.Open.{open_view};
ghost use Rattle.resolving.specs.Resolved.{resolved_type};
ghost use Rattle.warnings.specs.Through.{only_field};
ghost use Rattle.warnings.specs.Flat.{known, is_any, binds, may_be_object, is_map, is_optional, passes, is_resolved, asks, is_flattened_as, flattens, beside_message, struct_message, is_unfit, has_unfit, fields_bind, variants_bind, tagged_message, untagged_message, external_message, enum_message, said_view, flat_view, body_asks, body_message, content_of, flat_of};

use crate::through::only_field;
use crate::types::is_required;
use diag::DeriveError;
use open_types::OpenType;
use resolving::resolution_is_exact;
use scopes::{Container, resolve};
use serde_names::is_flattened;
use serde_rules::{parse_value, stands_before};
use std::alloc::{AllocError, Global};
use syntax::{Attribute, Body, Declaration, Field, Fields, Variant};
use written_types::WrittenType;

/// What is said of a flattened type that denies others.
pub const DENYING: &str =
    "the type has `deny_unknown_fields`: serde and the schema differ on members beside its own";

/// What is said of a flattened type that flattens a map of other values than any.
pub const BINDING: &str =
    "the type flattens a map: the schema of its values binds the members of others, too";

/// What is said of a flattened type whose values are no objects.
pub const NO_OBJECT: &str =
    "serde flattens structs, maps and enums alone; no value fits the schema";

/// What is said of a flattened enum without a tag that has a unit variant.
pub const NO_UNIT: &str =
    "serde flattens a unit variant as a member, or not at all; the schema asks for a text";

/// What is said of a flattened untagged enum that has a variant whose values are no objects.
pub const NO_OBJECT_UNTAGGED: &str =
    "serde flattens no variant that is no object; the schema asks for its value";

/// What a declaration is where a field of its type is flattened.
#[derive(Drop)]
pub struct Flat {
    /// What its only unnamed field stands for.
    pub content: Option<OpenType>,
    /// Whether its schema asks for a member, or for no object.
    pub asks: bool,
    /// What is said of it.
    pub message: Option<&'static str>,
}

/// A test of types.
#[derive(Clone, Copy)]
pub(crate) enum Test {
    /// It is no map.
    NoMap,
    /// It is an `Option`.
    Optional,
    /// It is a map of other values than any.
    Binding,
    /// Its values may be objects.
    Object,
}

/// Whether the type is that of any JSON value, behind pointers perhaps.
pub(crate) fn is_any(ty: &OpenType) -> bool
    ensures { result ≡ is_any (open_view ty.now) }
{
    match ty {
        OpenType::AnyValue => true,
        OpenType::Through(_, of) => is_any(of),
        _ => false,
    }
}

/// Whether the type is a map whose schema says more of its values than that they are JSON.
pub(crate) fn binds(ty: &OpenType) -> bool
    ensures { result ≡ binds (open_view ty.now) }
{
    match ty {
        OpenType::Map(_, _, value) => !is_any(value),
        OpenType::Option(of) => binds(of),
        OpenType::Through(_, of) => binds(of),
        _ => false,
    }
}

/// Whether a JSON value of the type may be an object.
fn may_be_object(ty: &OpenType) -> bool
    ensures { result ≡ may_be_object (open_view ty.now) }
{
    match ty {
        OpenType::AnyValue
        | OpenType::FreeObject
        | OpenType::Map(..)
        | OpenType::Param(_)
        | OpenType::Named(..) => true,
        OpenType::Through(_, of) => may_be_object(of),
        _ => false,
    }
}

/// Whether the type is a map as it stands.
pub(crate) fn is_map(ty: &OpenType) -> bool
    ensures { result ≡ is_map (open_view ty.now) }
{
    matches!(ty, OpenType::Map(..))
}

fn is_optional(ty: &OpenType) -> bool
    ensures { result ≡ is_optional (open_view ty.now) }
{
    matches!(ty, OpenType::Option(_))
}

/// Whether the type passes the test.
fn passes(test: Test, ty: &OpenType) -> bool
    ensures { result ≡ passes test (open_view ty.now) }
{
    match test {
        Test::NoMap => !is_map(ty),
        Test::Optional => is_optional(ty),
        Test::Binding => binds(ty),
        Test::Object => may_be_object(ty),
    }
}

/// What the written type stands for, if it stands for something.
pub(crate) fn resolved(
    alloc: Global,
    container: &Container<'_>,
    ty: &WrittenType,
) -> Result<Option<OpenType>, AllocError>
    ensures { IfOk result (λ of. option_map open_view of
        ≡ resolved_type (known container.now) (written_view ty.now)) }
{
    resolution_is_exact();
    match resolve(alloc, container.scope, ty, container.config) {
        Ok(of) => Ok(Some(of)),
        Err(DeriveError::Memory) => Err(AllocError),
        Err(DeriveError::Refused(_)) => Ok(None),
    }
}

/// Whether what the written type stands for passes the test.
fn is_resolved(
    alloc: Global,
    container: &Container<'_>,
    test: Test,
    ty: &WrittenType,
) -> Result<bool, AllocError>
    ensures { IfOk result
        (λ is. is ≡ is_resolved test (known container.now) (written_view ty.now)) }
{
    match resolved(alloc, container, ty)? {
        Some(of) => Ok(passes(test, &of)),
        None => Ok(false),
    }
}

/// Whether the schema asks for the member of the field, where what has it has a `default` or not.
fn field_asks(
    alloc: Global,
    container: &Container<'_>,
    default: bool,
    field: &Field,
) -> Result<bool, AllocError>
    ensures { IfOk result
        (λ is. is ≡ asks (known container.now) default (field_view field.now)) }
{
    let value = parse_value(alloc, field.attrs.as_slice())?;
    if value.skip {
        return Ok(false);
    }
    if value.flatten {
        return is_resolved(alloc, container, Test::NoMap, &field.ty);
    }
    if !is_required(&value, default) {
        return Ok(false);
    }
    Ok(!is_resolved(alloc, container, Test::Optional, &field.ty)?)
}

/// Whether the schema asks for the member of one of the fields.
fn fields_ask(
    alloc: Global,
    container: &Container<'_>,
    default: bool,
    fields: &[Field],
) -> Result<bool, AllocError>
    ensures { IfOk result (λ is. is
        ≡ list_any (asks (known container.now) default) (map field_view fields.now)) }
{
    for field in fields {
        if field_asks(alloc, container, default, field)? {
            return Ok(true);
        }
    }
    Ok(false)
}

/// Whether the field is flattened, and what its type stands for passes the test.
fn is_flattened_as(
    alloc: Global,
    container: &Container<'_>,
    test: Test,
    field: &Field,
) -> Result<bool, AllocError>
    ensures { IfOk result (λ is. is ≡ is_flattened_as test (known container.now) (field_view field.now)) }
{
    if is_flattened(alloc, field)? {
        is_resolved(alloc, container, test, &field.ty)
    } else {
        Ok(false)
    }
}

/// Whether a field is flattened whose type passes the test.
pub(crate) fn flattens(
    alloc: Global,
    container: &Container<'_>,
    test: Test,
    fields: &[Field],
) -> Result<bool, AllocError>
    ensures { IfOk result
        (λ is. is ≡ flattens test (known container.now) (map field_view fields.now)) }
{
    for field in fields {
        if is_flattened_as(alloc, container, test, field)? {
            return Ok(true);
        }
    }
    Ok(false)
}

/// What is said of members that stand among those of others, where these are denied or not, and the schema of a map binds them
/// or not.
fn beside_message(denied: bool, bind: bool) -> Option<&'static str>
    ensures { said_view result ≡ beside_message denied bind }
{
    if denied {
        Some(DENYING)
    } else if bind {
        Some(BINDING)
    } else {
        None
    }
}

/// What is said of a struct of these fields.
fn struct_message(
    alloc: Global,
    container: &Container<'_>,
    around: &[Attribute],
    fields: &Fields,
) -> Result<Option<&'static str>, AllocError>
    ensures { IfOk result (λ message. said_view message
        ≡ struct_message (known container.now) (map attribute_view around.now)
        (fields_view fields.now)) }
{
    match fields {
        Fields::Named(fields) => {
            let denied = stands_before(around, "deny_unknown_fields");
            let bind = flattens(alloc, container, Test::Binding, fields.as_slice())?;
            Ok(beside_message(denied, bind))
        }
        Fields::Unnamed(fields) if fields.len() > 1 => Ok(Some(NO_OBJECT)),
        Fields::Unnamed(_) | Fields::Unit => Ok(None),
    }
}

/// Whether serde flattens no variant of these fields, in an enum that is untagged or has no tag.
fn is_unfit(
    alloc: Global,
    container: &Container<'_>,
    untagged: bool,
    fields: &Fields,
) -> Result<bool, AllocError>
    ensures { IfOk result
        (λ is. is ≡ is_unfit (known container.now) untagged (fields_view fields.now)) }
{
    match fields {
        Fields::Unit => Ok(true),
        Fields::Named(_) => Ok(false),
        Fields::Unnamed(fields) => match fields.as_slice() {
            [field] if untagged => Ok(!is_resolved(alloc, container, Test::Object, &field.ty)?),
            _ => Ok(untagged),
        },
    }
}

/// Whether a variant that is kept is such a one.
fn has_unfit(
    alloc: Global,
    container: &Container<'_>,
    untagged: bool,
    variants: &[Variant],
) -> Result<bool, AllocError>
    ensures { IfOk result (λ is. is
        ≡ has_unfit (known container.now) untagged (map variant_view variants.now)) }
{
    for variant in variants {
        let value = parse_value(alloc, variant.attrs.as_slice())?;
        if !value.skip && is_unfit(alloc, container, untagged, &variant.fields)? {
            return Ok(true);
        }
    }
    Ok(false)
}

/// Whether the schema of a map among the members of a variant of these fields binds others.
fn fields_bind(
    alloc: Global,
    container: &Container<'_>,
    fields: &Fields,
) -> Result<bool, AllocError>
    ensures { IfOk result (λ is. is ≡ fields_bind (known container.now) (fields_view fields.now)) }
{
    match fields {
        Fields::Named(fields) => flattens(alloc, container, Test::Binding, fields.as_slice()),
        Fields::Unnamed(fields) => match fields.as_slice() {
            [field] => is_resolved(alloc, container, Test::Binding, &field.ty),
            _ => Ok(false),
        },
        Fields::Unit => Ok(false),
    }
}

/// Whether a variant that is kept is such a one.
fn variants_bind(
    alloc: Global,
    container: &Container<'_>,
    variants: &[Variant],
) -> Result<bool, AllocError>
    ensures { IfOk result
        (λ is. is ≡ variants_bind (known container.now) (map variant_view variants.now)) }
{
    for variant in variants {
        let value = parse_value(alloc, variant.attrs.as_slice())?;
        if !value.skip && fields_bind(alloc, container, &variant.fields)? {
            return Ok(true);
        }
    }
    Ok(false)
}

/// What is said of an enum whose variants have their members beside a tag, or alone.
fn tagged_message(
    alloc: Global,
    container: &Container<'_>,
    around: &[Attribute],
    variants: &[Variant],
) -> Result<Option<&'static str>, AllocError>
    ensures { IfOk result (λ message. said_view message
        ≡ tagged_message (known container.now) (map attribute_view around.now)
        (map variant_view variants.now)) }
{
    let denied = stands_before(around, "deny_unknown_fields");
    let bind = variants_bind(alloc, container, variants)?;
    Ok(beside_message(denied, bind))
}

/// What is said of an untagged enum.
fn untagged_message(
    alloc: Global,
    container: &Container<'_>,
    around: &[Attribute],
    variants: &[Variant],
) -> Result<Option<&'static str>, AllocError>
    ensures { IfOk result (λ message. said_view message
        ≡ untagged_message (known container.now) (map attribute_view around.now)
        (map variant_view variants.now)) }
{
    if has_unfit(alloc, container, true, variants)? {
        Ok(Some(NO_OBJECT_UNTAGGED))
    } else {
        tagged_message(alloc, container, around, variants)
    }
}

/// What is said of an externally tagged enum.
fn external_message(
    alloc: Global,
    container: &Container<'_>,
    variants: &[Variant],
) -> Result<Option<&'static str>, AllocError>
    ensures { IfOk result (λ message. said_view message
        ≡ external_message (known container.now) (map variant_view variants.now)) }
{
    if has_unfit(alloc, container, false, variants)? {
        Ok(Some(NO_UNIT))
    } else {
        Ok(None)
    }
}

/// What is said of an enum of these variants.
fn enum_message(
    alloc: Global,
    container: &Container<'_>,
    around: &[Attribute],
    variants: &[Variant],
) -> Result<Option<&'static str>, AllocError>
    ensures { IfOk result (λ message. said_view message
        ≡ enum_message (known container.now) (map attribute_view around.now)
        (map variant_view variants.now)) }
{
    if stands_before(around, "content") {
        Ok(None)
    } else if stands_before(around, "tag") {
        tagged_message(alloc, container, around, variants)
    } else if stands_before(around, "untagged") {
        untagged_message(alloc, container, around, variants)
    } else {
        external_message(alloc, container, variants)
    }
}

/// Whether the schema of the body asks for a member, or for no object.
fn body_asks(
    alloc: Global,
    container: &Container<'_>,
    around: &[Attribute],
    body: &Body,
) -> Result<bool, AllocError>
    ensures { IfOk result (λ is. is ≡ body_asks (known container.now)
        (map attribute_view around.now) (body_view body.now)) }
{
    match body {
        Body::Struct(Fields::Named(fields)) => {
            let default = stands_before(around, "default");
            fields_ask(alloc, container, default, fields.as_slice())
        }
        Body::Struct(Fields::Unit) => Ok(false),
        _ => Ok(true),
    }
}

fn body_message(
    alloc: Global,
    container: &Container<'_>,
    around: &[Attribute],
    body: &Body,
) -> Result<Option<&'static str>, AllocError>
    ensures { IfOk result (λ message. said_view message
        ≡ body_message (known container.now) (map attribute_view around.now)
        (body_view body.now)) }
{
    match body {
        Body::Struct(fields) => struct_message(alloc, container, around, fields),
        Body::Enum(variants) => enum_message(alloc, container, around, variants.as_slice()),
    }
}

/// What the only unnamed field of a struct stands for.
fn content_of(
    alloc: Global,
    container: &Container<'_>,
    body: &Body,
) -> Result<Option<OpenType>, AllocError>
    ensures { IfOk result (λ of. option_map open_view of
        ≡ content_of (known container.now) (body_view body.now)) }
{
    match only_field(body) {
        Some(field) => resolved(alloc, container, &field.ty),
        None => Ok(None),
    }
}

/// What the declaration is where a field of its type is flattened.
pub(crate) fn flat_of(
    alloc: Global,
    container: &Container<'_>,
    declaration: &Declaration,
) -> Result<Flat, AllocError>
    ensures { IfOk result (λ flat. flat_view flat
        ≡ flat_of (known container.now) (declaration_view declaration.now)) }
{
    let (around, body) = (declaration.attrs.as_slice(), &declaration.body);
    Ok(Flat {
        content: content_of(alloc, container, body)?,
        asks: body_asks(alloc, container, around, body)?,
        message: body_message(alloc, container, around, body)?,
    })
}
