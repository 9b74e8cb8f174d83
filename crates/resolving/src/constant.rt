//! Type arguments that are constants.

ghost use Rattle.std.specs.Prelude.{◌≡◌};
ghost use Rattle.written_types.specs.Written.{written_view, path_view, segment_view};
ghost use Rattle.resolving.specs.Known.{known};
ghost use Rattle.resolving.specs.Names.{constant_segment, constant_path, is_constant_type};

use crate::known::KnownNames;
use written_types::{Path, PathSegment, WrittenType};

fn is_constant_segment(names: &KnownNames<'_>, segment: &PathSegment) -> bool
    ensures { result ≡ constant_segment (known names.now) (segment_view segment.now) }
{
    match &segment.arguments {
        None => names.is_constant(segment.ident.text.as_str()),
        Some(_) => false,
    }
}

fn is_constant_path(names: &KnownNames<'_>, path: &Path) -> bool
    ensures { result ≡ constant_path (known names.now) (path_view path.now) }
{
    if path.leading {
        return false;
    }
    match path.segments.as_slice() {
        [segment] => is_constant_segment(names, segment),
        _ => false,
    }
}

/// Whether the type is one identifier, and it names a constant parameter.
pub(crate) fn is_constant(names: &KnownNames<'_>, ty: &WrittenType) -> bool
    ensures { result ≡ is_constant_type (known names.now) (written_view ty.now) }
{
    match ty {
        WrittenType::Path(path) => is_constant_path(names, path),
        _ => false,
    }
}
