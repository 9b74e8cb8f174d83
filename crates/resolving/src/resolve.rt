//! Written types resolved.

ghost use Rattle.std.specs.Prelude.{◌≡◌, ◌∷◌, IfOk, Some};
ghost use Rattle.diag.specs.Refusal.{Refuses};
ghost use Rattle.open_types.specs.declared.open_type.ListHead.TheVariants as lists;
ghost use Rattle.open_types.specs.Open.{open_view, opens_view, items};
ghost use Rattle.written_types.specs.Written.{written_view, path_view, segment_view, arguments_view, writtens_view};
ghost use Rattle.resolving.specs.Known.{known};
ghost use Rattle.resolving.specs.Names.{nameless, names_in, names_in_path, names_in_segment, names_in_arguments, names_in_types};
ghost use Rattle.resolving.specs.Resolved.{type_of, fitting_type, resolved_type, path_type, segment_type, argument_types, all_types, tuple_of, IsFaultIn, IsFault, IsRefusedFor, Fault as AnyFault};
ghost use Rattle.resolving.specs.Reading.{IsAtFault, AreAtFault, segment_arguments};

use crate::aliases::expand_type;
use crate::arguments::meant;
use crate::bad::are_bad;
use crate::constant::is_constant;
use crate::known::KnownNames;
use crate::meaning::{Meaning, segment_meaning};
use crate::refusal::{arity, bad_argument, type_size, unknown_type};
use crate::size::{left_after, span_of};
use diag::DeriveError;
use open_types::{ListHead, OpenType};
use std::alloc::{AllocError, Global};
use texts::{List, Span, Text};
use written_types::{GenericArgument, Ident, Path, PathSegment, WrittenType};

/// How many names a type may have.
pub const MAX_NAMES: usize = 256;

/// What the written type stands for, where `names` are known.
///
/// References, lifetimes, constants and all but the last segment of a path are dropped. A name without type arguments
/// that is an alias stands for the alias's type, until no name is one; what that type holds has the span of the name.
/// The name of a container counts as such only with an argument list. A refusal is of kind `UnknownType`, `Arity` or
/// `BadArgument`, at the name, or `TypeSize`, at the type without the references around it.
pub fn resolve_type(
    alloc: Global,
    names: &KnownNames<'_>,
    ty: &WrittenType,
) -> Result<OpenType, DeriveError>
    ensures resolved { IfOk result (λ t. resolved_type (known names.now) (written_view ty.now)
        ≡ Some (open_view t)) }
    ensures refused { Refuses result
        (λ e. ((fault : AnyFault) × IsFault (known names.now) (written_view ty.now) fault
        × IsRefusedFor fault e)) }
{
    if names.alias_types.is_empty() {
        return resolve_fitting(alloc, names, ty);
    }
    let expanded = expand_type(alloc, names, ty)?;
    resolve_fitting(alloc, names, &expanded)
}

/// What the type stands for, where it has at most `MAX_NAMES` names, none of which is replaced.
fn resolve_fitting(
    alloc: Global,
    names: &KnownNames<'_>,
    ty: &WrittenType,
) -> Result<OpenType, DeriveError>
    ensures resolved { IfOk result (λ t. fitting_type (known names.now) (written_view ty.now)
        ≡ Some (open_view t)) }
    ensures refused { Refuses result
        (λ e. ((fault : AnyFault) × IsFaultIn (known names.now) (written_view ty.now) fault
        × IsRefusedFor fault e)) }
{
    match left_after(names, ty, MAX_NAMES) {
        None => Err(type_size(alloc, span_of(ty))),
        Some(_) => resolve_whole(alloc, names, ty),
    }
}

#[cycle(resolve)]
fn resolve_whole(
    alloc: Global,
    names: &KnownNames<'_>,
    ty: &WrittenType,
) -> Result<OpenType, DeriveError>
    ensures resolved { IfOk result (λ t. type_of (known names.now) (written_view ty.now)
        ≡ Some (open_view t)) }
    ensures refused { Refuses result
        (AreAtFault (known names.now) (names_in (known names.now) (written_view ty.now))) }
{
    match ty {
        WrittenType::Path(path) | WrittenType::TraitObject(path, _) => {
            resolve_path(alloc, names, path)
        }
        WrittenType::Reference(of) => resolve_whole(alloc, names, of),
        WrittenType::Tuple(items, _) => {
            let items = resolve_types(alloc, names, items.as_slice())?;
            Ok(tuple_of(items))
        }
        WrittenType::Slice(item, _) | WrittenType::Array(item, _) => {
            let item = resolve_whole(alloc, names, item)?;
            Ok(array_of(alloc, item)?)
        }
    }
}

fn array_of(alloc: Global, item: OpenType) -> Result<OpenType, AllocError>
    ensures { IfOk result (λ t. open_view t ≡ items lists.Array (open_view item)) }
{
    Ok(OpenType::Items(ListHead::Array, Box::new(alloc, item)?))
}

fn tuple_of(items: List<OpenType>) -> OpenType
    ensures { open_view result ≡ tuple_of (opens_view items) }
{
    if items.is_empty() {
        OpenType::Unit
    } else {
        OpenType::Tuple(items)
    }
}

/// What the path's last segment stands for.
#[cycle(resolve)]
fn resolve_path(alloc: Global, names: &KnownNames<'_>, path: &Path) -> Result<OpenType, DeriveError>
    ensures resolved { IfOk result (λ t. path_type (known names.now) (path_view path.now)
        ≡ Some (open_view t)) }
    ensures refused { Refuses result
        (AreAtFault (known names.now) (names_in_path (known names.now) (path_view path.now))) }
{
    match path.segments.as_slice() {
        [.., segment] => resolve_segment(alloc, names, segment),
        [] => resolve_nameless(alloc, names, path.span),
    }
}

/// What a path without segments stands for.
fn resolve_nameless(
    alloc: Global,
    names: &KnownNames<'_>,
    span: Span,
) -> Result<OpenType, DeriveError>
    ensures resolved { IfOk result (λ t. segment_type (known names.now) (nameless span)
        ≡ Some (open_view t)) }
    ensures refused { Refuses result (IsAtFault (known names.now) (nameless span)) }
{
    let segment = PathSegment {
        ident: Ident {
            text: Text::new(alloc, "")?,
            raw: false,
            span,
        },
        arguments: None,
    };
    resolve_name(alloc, names, &segment, List::new(alloc))
}

#[cycle(resolve)]
fn resolve_segment(
    alloc: Global,
    names: &KnownNames<'_>,
    segment: &PathSegment,
) -> Result<OpenType, DeriveError>
    ensures resolved { IfOk result
        (λ t. segment_type (known names.now) (segment_view segment.now)
        ≡ Some (open_view t)) }
    ensures refused { Refuses result
        (AreAtFault (known names.now)
        (segment_view segment.now
        ∷ names_in_segment (known names.now) (segment_view segment.now))) }
{
    let arguments = match &segment.arguments {
        None => List::new(alloc),
        Some(arguments) => resolve_arguments(alloc, names, arguments.as_slice())?,
    };
    resolve_name(alloc, names, segment, arguments)
}

/// What the segment's name stands for with its type arguments.
fn resolve_name(
    alloc: Global,
    names: &KnownNames<'_>,
    segment: &PathSegment,
    arguments: List<OpenType>,
) -> Result<OpenType, DeriveError>
    requires { segment_arguments (known names.now) (segment_view segment.now)
        ≡ Some (opens_view arguments) }
    ensures resolved { IfOk result
        (λ t. segment_type (known names.now) (segment_view segment.now)
        ≡ Some (open_view t)) }
    ensures refused { Refuses result
        (IsAtFault (known names.now) (segment_view segment.now)) }
{
    if are_bad(names, segment) {
        return Err(bad_argument(alloc, &segment.ident));
    }
    let meaning = segment_meaning(names, segment);
    match meant(alloc, names, meaning, arguments)? {
        Some(ty) => Ok(ty),
        None => match meaning {
            Meaning::Unknown => Err(unknown_type(alloc, &segment.ident)),
            _ => Err(arity(alloc, &segment.ident)),
        },
    }
}

/// What the types among the arguments stand for, in order.
#[cycle(resolve)]
fn resolve_arguments(
    alloc: Global,
    names: &KnownNames<'_>,
    arguments: &[GenericArgument],
) -> Result<List<OpenType>, DeriveError>
    ensures resolved { IfOk result
        (λ ts. argument_types (known names.now) (arguments_view arguments.now)
        ≡ Some (opens_view ts)) }
    ensures refused { Refuses result
        (AreAtFault (known names.now)
        (names_in_arguments (known names.now) (arguments_view arguments.now))) }
{
    let mut types = List::new(alloc);
    for argument in arguments {
        match argument {
            GenericArgument::Ty(ty) => {
                if !is_constant(names, ty) {
                    types.push(resolve_whole(alloc, names, ty)?)?;
                }
            }
            GenericArgument::Lifetime(_) => {}
            GenericArgument::Constant(_) => {}
        }
    }
    Ok(types)
}

#[cycle(resolve)]
fn resolve_types(
    alloc: Global,
    names: &KnownNames<'_>,
    types: &[WrittenType],
) -> Result<List<OpenType>, DeriveError>
    ensures resolved { IfOk result
        (λ ts. all_types (known names.now) (writtens_view types.now)
        ≡ Some (opens_view ts)) }
    ensures refused { Refuses result
        (AreAtFault (known names.now)
        (names_in_types (known names.now) (writtens_view types.now))) }
{
    let mut resolved = List::new(alloc);
    for ty in types {
        resolved.push(resolve_whole(alloc, names, ty)?)?;
    }
    Ok(resolved)
}
