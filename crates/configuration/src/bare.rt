//! Types without what nothing is resolved from.

ghost use Rattle.std.specs.Prelude.{◌≡◌, map, IfOk};
ghost use Rattle.written_types.specs.Written.{written_view, writtens_view, path_view, segment_view, segments_view, arguments_view};
ghost use Rattle.configuration.specs.Aliases.{bare, all_bare, bare_path, last_bare, bare_segment, types_among};

use std::alloc::{AllocError, Global};
use texts::List;
use written_types::{GenericArgument, Path, PathSegment, WrittenType};

/// The types without what nothing is resolved from.
pub fn bare_types(alloc: Global, types: &[WrittenType]) -> Result<List<WrittenType>, AllocError>
    ensures { IfOk result
        (λ found. map written_view found ≡ map (λ t. bare (written_view t)) types.now) }
{
    let mut found = List::new(alloc);
    for ty in types {
        found.push(bare_type(alloc, ty)?)?;
    }
    Ok(found)
}

/// The type without what nothing is resolved from.
#[cycle(bare)]
pub fn bare_type(alloc: Global, ty: &WrittenType) -> Result<WrittenType, AllocError>
    ensures { IfOk result (λ found. written_view found ≡ bare (written_view ty.now)) }
{
    match ty {
        WrittenType::Path(path) => Ok(WrittenType::Path(bare_path(alloc, path)?)),
        WrittenType::Reference(of) => {
            let of = bare_type(alloc, of)?;
            Ok(WrittenType::Reference(Box::new(alloc, of)?))
        }
        WrittenType::Tuple(items, span) => {
            Ok(WrittenType::Tuple(all_bare(alloc, items.as_slice())?, *span))
        }
        WrittenType::Slice(of, span) => {
            let of = bare_type(alloc, of)?;
            Ok(WrittenType::Slice(Box::new(alloc, of)?, *span))
        }
        WrittenType::Array(of, span) => {
            let of = bare_type(alloc, of)?;
            Ok(WrittenType::Array(Box::new(alloc, of)?, *span))
        }
        WrittenType::TraitObject(path, span) => {
            Ok(WrittenType::TraitObject(bare_path(alloc, path)?, *span))
        }
    }
}

#[cycle(bare)]
fn all_bare(alloc: Global, types: &[WrittenType]) -> Result<List<WrittenType>, AllocError>
    ensures { IfOk result (λ found. writtens_view found ≡ all_bare (writtens_view types.now)) }
{
    let mut found = List::new(alloc);
    for ty in types {
        found.push(bare_type(alloc, ty)?)?;
    }
    Ok(found)
}

/// The last segment alone, behind `::` where the path begins with it or other segments stood before.
#[cycle(bare)]
fn bare_path(alloc: Global, path: &Path) -> Result<Path, AllocError>
    ensures { IfOk result (λ found. path_view found ≡ bare_path (path_view path.now)) }
{
    Ok(Path {
        leading: path.leading || path.segments.len() > 1,
        segments: last_bare(alloc, path.segments.as_slice())?,
        span: path.span,
    })
}

#[cycle(bare)]
fn last_bare(alloc: Global, segments: &[PathSegment]) -> Result<List<PathSegment>, AllocError>
    ensures { IfOk result (λ found. segments_view found ≡ last_bare (segments_view segments.now)) }
{
    let mut found = List::new(alloc);
    match segments {
        [] => Ok(found),
        [.., last] => {
            found.push(bare_segment(alloc, last)?)?;
            Ok(found)
        }
    }
}

#[cycle(bare)]
fn bare_segment(alloc: Global, segment: &PathSegment) -> Result<PathSegment, AllocError>
    ensures { IfOk result (λ found. segment_view found ≡ bare_segment (segment_view segment.now)) }
{
    let ident = segment.ident.copy(alloc)?;
    match &segment.arguments {
        None => Ok(PathSegment {
            ident,
            arguments: None,
        }),
        Some(arguments) => Ok(PathSegment {
            ident,
            arguments: Some(types_among(alloc, arguments.as_slice())?),
        }),
    }
}

/// The types among the arguments.
#[cycle(bare)]
fn types_among(
    alloc: Global,
    arguments: &[GenericArgument],
) -> Result<List<GenericArgument>, AllocError>
    ensures { IfOk result
        (λ found. arguments_view found ≡ types_among (arguments_view arguments.now)) }
{
    let mut found = List::new(alloc);
    for argument in arguments {
        match argument {
            GenericArgument::Ty(ty) => found.push(GenericArgument::Ty(bare_type(alloc, ty)?))?,
            GenericArgument::Lifetime(_) => {}
            GenericArgument::Constant(_) => {}
        }
    }
    Ok(found)
}
