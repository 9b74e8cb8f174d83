//! What is said of flattened fields by their types, which are looked through as serde does: behind pointers and structs with
//! one unnamed field.

ghost use Rattle.std.specs.Prelude.{◌≡◌, ◌++◌, map, option_map, slice_get, OnOk};
ghost use Rattle.written_types.specs.Written.{written_view, segment_view};
ghost use Rattle.open_types.specs.Open.{open_view};
ghost use Rattle.warnings.specs.Rules.{warning_view};
ghost use Rattle.warnings.specs.Through.{declarations_of};
ghost use Rattle.warnings.specs.Flat.{said_view, flat_view};
ghost use Rattle.warnings.specs.Flattened.{next_type, whole, asks_members, asks_always, option_message, whole_message, flattened_message, is_number_type, message_if, warning_if, referred, key_span, inner_warnings, warnings_of_inner, warnings_of_map, key_warnings_of, warnings_of_flattened_type};

use crate::applications::push_in_arguments;
use crate::flat::{Flat, NO_OBJECT, binds, is_any, is_map};
use crate::keys::{push_applications, push_keys};
use crate::lookup::Lookup;
use crate::through::{DEPTH, first_argument, last_of};
use crate::types::span_of;
use crate::warning::Warning;
use leaves::LeafKind;
use open_types::OpenType;
use std::alloc::{AllocError, Global};
use texts::{List, Span};
use written_types::{PathSegment, WrittenType};

/// What is said of an `Option` of a type that asks for members.
pub const NOTHING_FOR_NONE: &str =
    "serde writes no member for None; the schema asks for those of the type, or for null";

/// What is said of a map of other values than any, where others have members beside its own.
pub const VALUES_BIND: &str = "the schema of the map's values binds the members of others, too";

/// What is said of keys that are numbers or truth values, in a flattened map.
pub const UNREAD_KEYS: &str = "serde does not read such keys of a flattened map";

/// What the declaration at the place is.
fn flat_at(flats: &[Flat], place: usize) -> Option<&Flat>
    ensures { option_map (λ f. flat_view f.now) result
        ≡ slice_get (map flat_view flats.now) place }
{
    flats.get(place)
}

/// What the type stands for, if serde passes over it.
fn next_type<'a>(flats: &'a [Flat], ty: &'a OpenType) -> Option<&'a OpenType>
    ensures { option_map (λ t. open_view t.now) result
        ≡ next_type (map flat_view flats.now) (open_view ty.now) }
{
    match ty {
        OpenType::Through(_, of) => Some(of),
        OpenType::Named(place, _) => flat_at(flats, *place)?.content.as_ref(),
        _ => None,
    }
}

/// What the type stands for, behind all that serde passes over, `DEPTH` of them at most.
fn whole<'a>(flats: &'a [Flat], ty: &'a OpenType) -> &'a OpenType
    ensures { open_view result.now ≡ whole (map flat_view flats.now) (open_view ty.now) }
{
    let mut of = ty;
    for _passed in 0..DEPTH {
        match next_type(flats, of) {
            Some(inner) => of = inner,
            None => return of,
        }
    }
    of
}

/// Whether the schema of such a type asks for a member, or for no object.
fn asks_members(flats: &[Flat], ty: &OpenType) -> bool
    ensures { result ≡ asks_members (map flat_view flats.now) (open_view ty.now) }
{
    match ty {
        OpenType::Named(place, _) => match flat_at(flats, *place) {
            Some(flat) => flat.asks,
            None => true,
        },
        OpenType::AnyValue | OpenType::FreeObject | OpenType::Unit | OpenType::Map(..) => false,
        _ => true,
    }
}

/// Whether the schema asks for what serde may leave out of a value of what the type stands for.
pub(crate) fn asks_always(flats: &[Flat], ty: &OpenType) -> bool
    ensures { result ≡ asks_always (map flat_view flats.now)
        (whole (map flat_view flats.now) (open_view ty.now)) }
{
    let of = whole(flats, ty);
    match of {
        OpenType::Named(..) => asks_members(flats, of),
        OpenType::Param(_) => true,
        _ => false,
    }
}

fn message_if(said: bool, message: &'static str) -> Option<&'static str>
    ensures { said_view result ≡ message_if said message.now }
{
    if said { Some(message) } else { None }
}

/// What is said of an `Option` of such a type.
fn option_message(flats: &[Flat], ty: &OpenType) -> Option<&'static str>
    ensures { said_view result
        ≡ option_message (map flat_view flats.now) (open_view ty.now) }
{
    match ty {
        OpenType::Map(_, _, value) => message_if(!is_any(value), VALUES_BIND),
        _ if asks_members(flats, ty) => Some(NOTHING_FOR_NONE),
        OpenType::Named(place, _) => flat_at(flats, *place)?.message,
        _ => None,
    }
}

/// What is said of an `Option` of this type.
fn message_behind(flats: &[Flat], ty: &OpenType) -> Option<&'static str>
    ensures { said_view result ≡ option_message (map flat_view flats.now)
        (whole (map flat_view flats.now) (open_view ty.now)) }
{
    option_message(flats, whole(flats, ty))
}

/// What is said of what a flattened type stands for.
fn whole_message(flats: &[Flat], ty: &OpenType) -> Option<&'static str>
    ensures { said_view result
        ≡ whole_message (map flat_view flats.now) (open_view ty.now) }
{
    match ty {
        OpenType::Option(of) => message_behind(flats, of),
        OpenType::Map(_, _, value) => message_if(!is_any(value), VALUES_BIND),
        OpenType::Named(place, _) => flat_at(flats, *place)?.message,
        OpenType::Leaf(_) | OpenType::Tuple(_) | OpenType::Items(..) | OpenType::Set(..) => {
            Some(NO_OBJECT)
        }
        _ => None,
    }
}

/// What is said of a flattened type, where several fields are flattened or not.
fn flattened_message(flats: &[Flat], several: bool, ty: &OpenType) -> Option<&'static str>
    ensures { said_view result
        ≡ flattened_message (map flat_view flats.now) several (open_view ty.now) }
{
    if is_map(ty) {
        message_if(several && binds(ty), VALUES_BIND)
    } else {
        whole_message(flats, whole(flats, ty))
    }
}

/// Whether the type is that of numbers, or of the truth values.
fn is_number_type(ty: &OpenType) -> bool
    ensures { result ≡ is_number_type (open_view ty.now) }
{
    match ty {
        OpenType::Leaf(leaf) => leaf.kind() != LeafKind::Text,
        _ => false,
    }
}

/// Adds the warning, if there is one.
fn push_if(
    warnings: &mut List<Warning>,
    span: Span,
    message: Option<&'static str>,
) -> Result<(), AllocError>
    ensures { OnOk result (map warning_view warnings.new ≡ map warning_view warnings.old
        ++ warning_if span (said_view message.entry)) }
{
    match message {
        Some(message) => warnings.push(Warning { span, message }),
        None => Ok(()),
    }
}

/// The type without the references around it.
fn referred(ty: &WrittenType) -> &WrittenType
    ensures { written_view result.now ≡ referred (written_view ty.now) }
{
    match ty {
        WrittenType::Reference(of) => referred(of),
        _ => ty,
    }
}

/// The bytes of the first type argument, or else of the type.
fn key_span(ty: &WrittenType) -> Span
    ensures { result ≡ key_span (written_view ty.now) }
{
    match first_argument(referred(ty)) {
        Some(key) => span_of(key),
        None => span_of(ty),
    }
}

/// Adds what is said of the keys in the arguments of the segment.
fn push_inner(
    alloc: Global,
    warnings: &mut List<Warning>,
    lookup: &Lookup<'_>,
    segment: &PathSegment,
) -> Result<(), AllocError>
    ensures { OnOk result (map warning_view warnings.new ≡ map warning_view warnings.old
        ++ inner_warnings (declarations_of lookup.now.places.now) (segment_view segment.now)) }
{
    let Some(arguments) = &segment.arguments else {
        return Ok(());
    };
    let mut applications = List::new(alloc);
    push_in_arguments(&mut applications, arguments.as_slice())?;
    push_applications(alloc, warnings, lookup.places, applications.as_slice())
}

/// Adds what is said of the keys in the arguments of the type.
fn push_inner_of(
    alloc: Global,
    warnings: &mut List<Warning>,
    lookup: &Lookup<'_>,
    ty: &WrittenType,
) -> Result<(), AllocError>
    ensures { OnOk result (map warning_view warnings.new ≡ map warning_view warnings.old
        ++ warnings_of_inner (declarations_of lookup.now.places.now) (written_view ty.now)) }
{
    match last_of(referred(ty)) {
        Some(segment) => push_inner(alloc, warnings, lookup, segment),
        None => Ok(()),
    }
}

/// Adds what is said of the keys in a flattened map, whose own are of this type: they are names of members.
fn push_map(
    alloc: Global,
    warnings: &mut List<Warning>,
    lookup: &Lookup<'_>,
    ty: &WrittenType,
    key: &OpenType,
) -> Result<(), AllocError>
    ensures { OnOk result (map warning_view warnings.new ≡ map warning_view warnings.old
        ++ warnings_of_map (map flat_view lookup.now.flats)
        (declarations_of lookup.now.places.now) (written_view ty.now) (open_view key.now)) }
{
    let unread = is_number_type(whole(lookup.flats.as_slice(), key));
    push_if(warnings, key_span(ty), message_if(unread, UNREAD_KEYS))?;
    push_inner_of(alloc, warnings, lookup, ty)
}

/// Adds what is said of the keys in the flattened type, which stands for this.
fn push_keys_of(
    alloc: Global,
    warnings: &mut List<Warning>,
    lookup: &Lookup<'_>,
    ty: &WrittenType,
    of: &OpenType,
) -> Result<(), AllocError>
    ensures { OnOk result (map warning_view warnings.new ≡ map warning_view warnings.old
        ++ key_warnings_of (map flat_view lookup.now.flats)
        (declarations_of lookup.now.places.now) (written_view ty.now) (open_view of.now)) }
{
    match of {
        OpenType::Map(_, key, _) => push_map(alloc, warnings, lookup, ty, key),
        _ => push_keys(alloc, warnings, lookup.places, ty),
    }
}

/// Adds what is said of the type of a flattened field, which stands for this, where several fields are flattened or not.
pub(crate) fn push_flattened_type(
    alloc: Global,
    warnings: &mut List<Warning>,
    lookup: &Lookup<'_>,
    several: bool,
    ty: &WrittenType,
    of: &OpenType,
) -> Result<(), AllocError>
    ensures { OnOk result (map warning_view warnings.new ≡ map warning_view warnings.old
        ++ warnings_of_flattened_type (map flat_view lookup.now.flats)
        (declarations_of lookup.now.places.now) several (written_view ty.now)
        (open_view of.now)) }
{
    let message = flattened_message(lookup.flats.as_slice(), several, of);
    push_if(warnings, span_of(ty), message)?;
    push_keys_of(alloc, warnings, lookup, ty, of)
}
