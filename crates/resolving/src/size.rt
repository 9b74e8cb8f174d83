//! How many names make up a type.

ghost use Rattle.std.specs.Prelude.{◌≡◌, ◌<◌, ◌+◌, MatchOption};
ghost use Rattle.written_types.specs.Written.{written_view, path_view, segment_view, arguments_view, writtens_view};
ghost use Rattle.resolving.specs.Known.{known};
ghost use Rattle.resolving.specs.Names.{size, path_size, segment_size, arguments_size, sizes, span_of};

use crate::constant::is_constant;
use crate::known::KnownNames;
use texts::Span;
use written_types::{GenericArgument, Path, PathSegment, WrittenType};

/// The bytes of a type without the references around it.
pub(crate) fn span_of(ty: &WrittenType) -> Span
    ensures { result ≡ span_of (written_view ty.now) }
{
    match ty {
        WrittenType::Path(path) => path.span,
        WrittenType::Reference(of) => span_of(of),
        WrittenType::Tuple(_, span)
        | WrittenType::Slice(_, span)
        | WrittenType::Array(_, span)
        | WrittenType::TraitObject(_, span) => *span,
    }
}

/// How many of `left` names are left after those of the type; nothing where it has more.
#[cycle(size)]
pub(crate) fn left_after(names: &KnownNames<'_>, ty: &WrittenType, left: usize) -> Option<usize>
    ensures { MatchOption result (left < size (known names.now) (written_view ty.now))
        (λ rest. rest + size (known names.now) (written_view ty.now) ≡ left) }
{
    match ty {
        WrittenType::Path(path) | WrittenType::TraitObject(path, _) => left_after_path(
            names, path, left,
        ),
        WrittenType::Reference(of) => left_after(names, of, left),
        WrittenType::Tuple(items, _) => left_after_types(
            names,
            items.as_slice(),
            left.checked_sub(1)?,
        ),
        WrittenType::Slice(item, _) | WrittenType::Array(item, _) => {
            left_after(names, item, left.checked_sub(1)?)
        }
    }
}

#[cycle(size)]
fn left_after_path(names: &KnownNames<'_>, path: &Path, left: usize) -> Option<usize>
    ensures { MatchOption result (left < path_size (known names.now) (path_view path.now))
        (λ rest. rest + path_size (known names.now) (path_view path.now) ≡ left) }
{
    let left = left.checked_sub(1)?;
    match path.segments.as_slice() {
        [] => Some(left),
        [.., segment] => left_after_segment(names, segment, left),
    }
}

#[cycle(size)]
fn left_after_segment(names: &KnownNames<'_>, segment: &PathSegment, left: usize) -> Option<usize>
    ensures { MatchOption result (left < segment_size (known names.now) (segment_view segment.now))
        (λ rest. rest + segment_size (known names.now) (segment_view segment.now) ≡ left) }
{
    match &segment.arguments {
        None => Some(left),
        Some(arguments) => left_after_arguments(names, arguments.as_slice(), left),
    }
}

#[cycle(size)]
fn left_after_arguments(
    names: &KnownNames<'_>,
    arguments: &[GenericArgument],
    left: usize,
) -> Option<usize>
    ensures { MatchOption result
        (left < arguments_size (known names.now) (arguments_view arguments.now))
        (λ rest. rest + arguments_size (known names.now) (arguments_view arguments.now) ≡ left) }
{
    let mut rest = left;
    for argument in arguments {
        if let GenericArgument::Ty(ty) = argument {
            if !is_constant(names, ty) {
                rest = left_after(names, ty, rest)?;
            }
        }
    }
    Some(rest)
}

#[cycle(size)]
fn left_after_types(names: &KnownNames<'_>, types: &[WrittenType], left: usize) -> Option<usize>
    ensures { MatchOption result (left < sizes (known names.now) (writtens_view types.now))
        (λ rest. rest + sizes (known names.now) (writtens_view types.now) ≡ left) }
{
    let mut rest = left;
    for ty in types {
        rest = left_after(names, ty, rest)?;
    }
    Some(rest)
}
