//! Types that cannot be arguments of a declared type.

ghost use Rattle.std.specs.Prelude.{◌≡◌};
ghost use Rattle.written_types.specs.Written.{written_view, path_view, segment_view, arguments_view};
ghost use Rattle.resolving.specs.Known.{known};
ghost use Rattle.resolving.specs.Bad.{holds_bad, path_holds_bad, segment_holds_bad, arguments_hold_bad, are_bad};

use crate::known::KnownNames;
use crate::meaning::{Meaning, segment_meaning};
use written_types::{GenericArgument, Path, PathSegment, WrittenType};

/// Whether a tuple, the unit, an array or a slice stands in the type, at any depth.
#[cycle(bad)]
fn holds_bad(ty: &WrittenType) -> bool
    ensures { result ≡ holds_bad (written_view ty.now) }
{
    match ty {
        WrittenType::Path(path) | WrittenType::TraitObject(path, _) => path_holds_bad(path),
        WrittenType::Reference(of) => holds_bad(of),
        WrittenType::Tuple(_, _) | WrittenType::Slice(_, _) | WrittenType::Array(_, _) => true,
    }
}

#[cycle(bad)]
fn path_holds_bad(path: &Path) -> bool
    ensures { result ≡ path_holds_bad (path_view path.now) }
{
    match path.segments.as_slice() {
        [] => false,
        [.., segment] => segment_holds_bad(segment),
    }
}

#[cycle(bad)]
fn segment_holds_bad(segment: &PathSegment) -> bool
    ensures { result ≡ segment_holds_bad (segment_view segment.now) }
{
    match &segment.arguments {
        None => false,
        Some(arguments) => arguments_hold_bad(arguments.as_slice()),
    }
}

#[cycle(bad)]
fn arguments_hold_bad(arguments: &[GenericArgument]) -> bool
    ensures { result ≡ arguments_hold_bad (arguments_view arguments.now) }
{
    for argument in arguments {
        if let GenericArgument::Ty(ty) = argument {
            if holds_bad(ty) {
                return true;
            }
        }
    }
    false
}

/// Whether the segment names a declaration, and a type argument cannot be one of a declared type.
pub(crate) fn are_bad(names: &KnownNames<'_>, segment: &PathSegment) -> bool
    ensures { result ≡ are_bad (known names.now) (segment_view segment.now) }
{
    if !segment_holds_bad(segment) {
        return false;
    }
    match segment_meaning(names, segment) {
        Meaning::Declared(_) => true,
        _ => false,
    }
}
