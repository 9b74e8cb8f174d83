//! The names that stand last in the paths of types.

ghost use Rattle.std.specs.Prelude.{◌≡◌, ◌++◌, IfOk, OnOk};
ghost use Rattle.written_types.specs.Written.{written_view, writtens_view, path_view, segments_view, arguments_view};
ghost use Rattle.configuration.specs.Aliases.{last_name, last_names, types_last_names, path_last_names, segments_last_names, arguments_last_names};

use std::alloc::{AllocError, Global};
use texts::{List, Text};
use written_types::{GenericArgument, Path, PathSegment, WrittenType};

/// The names that stand last in the paths of the type, those in arguments among them.
pub fn last_names(alloc: Global, ty: &WrittenType) -> Result<List<Text>, AllocError>
    ensures { IfOk result (λ names. names ≡ last_names (written_view ty.now)) }
{
    let mut names = List::new(alloc);
    push_names(alloc, ty, &mut names)?;
    Ok(names)
}

/// Adds the names that stand last in the paths of the type.
#[cycle(names)]
fn push_names(alloc: Global, ty: &WrittenType, names: &mut List<Text>) -> Result<(), AllocError>
    ensures { OnOk result (names.new ≡ names.old ++ last_names (written_view ty.now)) }
{
    match ty {
        WrittenType::Path(path) | WrittenType::TraitObject(path, _) => {
            push_in_path(alloc, path, names)
        }
        WrittenType::Reference(of) => push_names(alloc, of, names),
        WrittenType::Slice(of, _) | WrittenType::Array(of, _) => push_names(alloc, of, names),
        WrittenType::Tuple(items, _) => push_in_types(alloc, items.as_slice(), names),
    }
}

#[cycle(names)]
fn push_in_types(
    alloc: Global,
    types: &[WrittenType],
    names: &mut List<Text>,
) -> Result<(), AllocError>
    ensures { OnOk result (names.new ≡ names.old ++ types_last_names (writtens_view types.now)) }
{
    for ty in types {
        push_names(alloc, ty, names)?;
    }
    Ok(())
}

#[cycle(names)]
fn push_in_path(alloc: Global, path: &Path, names: &mut List<Text>) -> Result<(), AllocError>
    ensures { OnOk result (names.new ≡ names.old ++ path_last_names (path_view path.now)) }
{
    let segments = path.segments.as_slice();
    push_last(alloc, segments, names)?;
    push_in_segments(alloc, segments, names)
}

/// Adds the name of the last segment.
fn push_last(
    alloc: Global,
    segments: &[PathSegment],
    names: &mut List<Text>,
) -> Result<(), AllocError>
    ensures { OnOk result (names.new ≡ names.old ++ last_name (segments_view segments.now)) }
{
    if let [.., last] = segments {
        names.push(last.ident.text.copy(alloc)?)?;
    }
    Ok(())
}

#[cycle(names)]
fn push_in_segments(
    alloc: Global,
    segments: &[PathSegment],
    names: &mut List<Text>,
) -> Result<(), AllocError>
    ensures { OnOk result (names.new ≡ names.old
        ++ segments_last_names (segments_view segments.now)) }
{
    for segment in segments {
        match &segment.arguments {
            None => {}
            Some(arguments) => push_in_arguments(alloc, arguments.as_slice(), names)?,
        }
    }
    Ok(())
}

#[cycle(names)]
fn push_in_arguments(
    alloc: Global,
    arguments: &[GenericArgument],
    names: &mut List<Text>,
) -> Result<(), AllocError>
    ensures { OnOk result (names.new
        ≡ names.old ++ arguments_last_names (arguments_view arguments.now)) }
{
    for argument in arguments {
        match argument {
            GenericArgument::Ty(ty) => push_names(alloc, ty, names)?,
            GenericArgument::Lifetime(_) => {}
            GenericArgument::Constant(_) => {}
        }
    }
    Ok(())
}
