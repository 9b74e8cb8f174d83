//! The applications in types: names with arguments, as `HashMap<u32, bool>`.

ghost use Rattle.std.specs.Prelude.{◌≡◌, ◌++◌, map, IfOk, OnOk};
ghost use Rattle.serde_names.specs.Kept.{kept};
ghost use Rattle.written_types.specs.Written.{written_view, writtens_view, path_view, segment_view, arguments_view};
ghost use Rattle.syntax.specs.Items.{field_view, fields_view, variant_view, body_view};
ghost use Rattle.warnings.specs.Applications.{applications_view, applications_in, applications_in_path, applications_in_segment, applications_in_arguments, applications_in_types, in_each, in_fields, in_variants, applications_of};

use serde_rules::parse_value;
use std::alloc::{AllocError, Global};
use syntax::{Body, Field, Fields, Variant};
use texts::List;
use written_types::{GenericArgument, Path, PathSegment, WrittenType};

/// Adds the applications in the type, at any depth.
#[cycle(types)]
pub(crate) fn push_in_type<'a>(
    found: &mut List<&'a PathSegment>,
    ty: &'a WrittenType,
) -> Result<(), AllocError>
    ensures { OnOk result (applications_view found.new
        ≡ applications_view found.old ++ applications_in (written_view ty.now)) }
{
    match ty {
        WrittenType::Path(path) | WrittenType::TraitObject(path, _) => push_in_path(found, path),
        WrittenType::Reference(of) => push_in_type(found, of),
        WrittenType::Tuple(items, _) => push_in_types(found, items.as_slice()),
        WrittenType::Slice(item, _) | WrittenType::Array(item, _) => push_in_type(found, item),
    }
}

#[cycle(types)]
fn push_in_types<'a>(
    found: &mut List<&'a PathSegment>,
    types: &'a [WrittenType],
) -> Result<(), AllocError>
    ensures { OnOk result (applications_view found.new
        ≡ applications_view found.old ++ applications_in_types (writtens_view types.now)) }
{
    for ty in types {
        push_in_type(found, ty)?;
    }
    Ok(())
}

#[cycle(types)]
fn push_in_path<'a>(found: &mut List<&'a PathSegment>, path: &'a Path) -> Result<(), AllocError>
    ensures { OnOk result (applications_view found.new
        ≡ applications_view found.old ++ applications_in_path (path_view path.now)) }
{
    for segment in path.segments.as_slice() {
        push_in_segment(found, segment)?;
    }
    Ok(())
}

#[cycle(types)]
fn push_in_segment<'a>(
    found: &mut List<&'a PathSegment>,
    segment: &'a PathSegment,
) -> Result<(), AllocError>
    ensures { OnOk result (applications_view found.new
        ≡ applications_view found.old ++ applications_in_segment (segment_view segment.now)) }
{
    match &segment.arguments {
        None => Ok(()),
        Some(arguments) => {
            found.push(segment)?;
            push_in_arguments(found, arguments.as_slice())
        }
    }
}

#[cycle(types)]
pub(crate) fn push_in_arguments<'a>(
    found: &mut List<&'a PathSegment>,
    arguments: &'a [GenericArgument],
) -> Result<(), AllocError>
    ensures { OnOk result (applications_view found.new
        ≡ applications_view found.old ++ applications_in_arguments (arguments_view arguments.now)) }
{
    for argument in arguments {
        if let GenericArgument::Ty(ty) = argument {
            push_in_type(found, ty)?;
        }
    }
    Ok(())
}

/// Adds the applications in the types of named fields that are kept.
fn push_in_named<'a>(
    alloc: Global,
    found: &mut List<&'a PathSegment>,
    fields: &'a [Field],
) -> Result<(), AllocError>
    ensures { OnOk result (applications_view found.new
        ≡ applications_view found.old ++ in_each (kept (map field_view fields.now))) }
{
    for field in fields {
        let value = parse_value(alloc, field.attrs.as_slice())?;
        if !value.skip {
            push_in_type(found, &field.ty)?;
        }
    }
    Ok(())
}

/// Adds the applications in the types of unnamed fields.
fn push_in_unnamed<'a>(
    found: &mut List<&'a PathSegment>,
    fields: &'a [Field],
) -> Result<(), AllocError>
    ensures { OnOk result (applications_view found.new
        ≡ applications_view found.old ++ in_each (map field_view fields.now)) }
{
    for field in fields {
        push_in_type(found, &field.ty)?;
    }
    Ok(())
}

/// Adds the applications in the types of the fields.
fn push_in_fields<'a>(
    alloc: Global,
    found: &mut List<&'a PathSegment>,
    fields: &'a Fields,
) -> Result<(), AllocError>
    ensures { OnOk result (applications_view found.new
        ≡ applications_view found.old ++ in_fields (fields_view fields.now)) }
{
    match fields {
        Fields::Named(fields) => push_in_named(alloc, found, fields.as_slice()),
        Fields::Unnamed(fields) => push_in_unnamed(found, fields.as_slice()),
        Fields::Unit => Ok(()),
    }
}

/// Adds the applications in the types of the fields of variants that are kept.
fn push_in_variants<'a>(
    alloc: Global,
    found: &mut List<&'a PathSegment>,
    variants: &'a [Variant],
) -> Result<(), AllocError>
    ensures { OnOk result (applications_view found.new
        ≡ applications_view found.old ++ in_variants (map variant_view variants.now)) }
{
    for variant in variants {
        let value = parse_value(alloc, variant.attrs.as_slice())?;
        if !value.skip {
            push_in_fields(alloc, found, &variant.fields)?;
        }
    }
    Ok(())
}

/// The applications in the types of the fields that a body has, without named fields and variants that serde skips.
pub(crate) fn applications_of(alloc: Global, body: &Body) -> Result<List<&PathSegment>, AllocError>
    ensures { IfOk result
        (λ found. applications_view found ≡ applications_of (body_view body.now)) }
{
    let mut found = List::new(alloc);
    match body {
        Body::Struct(fields) => push_in_fields(alloc, &mut found, fields)?,
        Body::Enum(variants) => push_in_variants(alloc, &mut found, variants.as_slice())?,
    }
    Ok(found)
}
