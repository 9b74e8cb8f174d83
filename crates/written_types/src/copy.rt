//! Copies, with the same texts and spans.

ghost use Rattle.std.specs.Prelude.{◌≡◌, IfOk};
ghost use Rattle.written_types.specs.Written.{written_view, path_view, segment_view, segments_view, argument_view, arguments_view, writtens_view};

use crate::written::{GenericArgument, Ident, Path, PathSegment, WrittenType};
use std::alloc::{AllocError, Global};
use texts::List;
use tokens::copy_trees;

impl Ident {
    /// Another name with the same text and span.
    pub fn copy(&self, alloc: Global) -> Result<Ident, AllocError>
        ensures { IfOk result (λ copy. copy ≡ self.now) }
    {
        Ok(Ident {
            text: self.text.copy(alloc)?,
            raw: self.raw,
            span: self.span,
        })
    }
}

impl WrittenType {
    /// Another type with the same texts and spans.
    pub fn copy(&self, alloc: Global) -> Result<WrittenType, AllocError>
        ensures { IfOk result (λ t. written_view t ≡ written_view self.now) }
    {
        copy_type(alloc, self)
    }
}

impl Path {
    /// Another path with the same texts and spans.
    pub fn copy(&self, alloc: Global) -> Result<Path, AllocError>
        ensures { IfOk result (λ p. path_view p ≡ path_view self.now) }
    {
        copy_path(alloc, self)
    }
}

impl PathSegment {
    /// Another segment with the same texts and spans.
    pub fn copy(&self, alloc: Global) -> Result<PathSegment, AllocError>
        ensures { IfOk result (λ s. segment_view s ≡ segment_view self.now) }
    {
        copy_segment(alloc, self)
    }
}

impl GenericArgument {
    /// Another argument with the same texts and spans.
    pub fn copy(&self, alloc: Global) -> Result<GenericArgument, AllocError>
        ensures { IfOk result (λ a. argument_view a ≡ argument_view self.now) }
    {
        copy_argument(alloc, self)
    }
}

#[cycle(copy)]
fn copy_type(alloc: Global, ty: &WrittenType) -> Result<WrittenType, AllocError>
    ensures { IfOk result (λ t. written_view t ≡ written_view ty.now) }
{
    match ty {
        WrittenType::Path(path) => Ok(WrittenType::Path(copy_path(alloc, path)?)),
        WrittenType::Reference(of) => Ok(WrittenType::Reference(Box::new(
            alloc,
            copy_type(alloc, of)?,
        )?)),
        WrittenType::Tuple(items, span) => Ok(WrittenType::Tuple(
            copy_types(alloc, items.as_slice())?,
            *span,
        )),
        WrittenType::Slice(of, span) => Ok(WrittenType::Slice(
            Box::new(alloc, copy_type(alloc, of)?)?,
            *span,
        )),
        WrittenType::Array(of, span) => Ok(WrittenType::Array(
            Box::new(alloc, copy_type(alloc, of)?)?,
            *span,
        )),
        WrittenType::TraitObject(path, span) => {
            Ok(WrittenType::TraitObject(copy_path(alloc, path)?, *span))
        }
    }
}

#[cycle(copy)]
fn copy_types(alloc: Global, types: &[WrittenType]) -> Result<List<WrittenType>, AllocError>
    ensures { IfOk result (λ copies. writtens_view copies ≡ writtens_view types.now) }
{
    let mut copies = List::new(alloc);
    for ty in types {
        copies.push(copy_type(alloc, ty)?)?;
    }
    Ok(copies)
}

#[cycle(copy)]
fn copy_path(alloc: Global, path: &Path) -> Result<Path, AllocError>
    ensures { IfOk result (λ p. path_view p ≡ path_view path.now) }
{
    Ok(Path {
        leading: path.leading,
        segments: copy_segments(alloc, path.segments.as_slice())?,
        span: path.span,
    })
}

#[cycle(copy)]
fn copy_segments(alloc: Global, segments: &[PathSegment]) -> Result<List<PathSegment>, AllocError>
    ensures { IfOk result (λ ss. segments_view ss ≡ segments_view segments.now) }
{
    let mut copies = List::new(alloc);
    for segment in segments {
        copies.push(copy_segment(alloc, segment)?)?;
    }
    Ok(copies)
}

#[cycle(copy)]
fn copy_segment(alloc: Global, segment: &PathSegment) -> Result<PathSegment, AllocError>
    ensures { IfOk result (λ s. segment_view s ≡ segment_view segment.now) }
{
    let ident = segment.ident.copy(alloc)?;
    match &segment.arguments {
        None => Ok(PathSegment {
            ident,
            arguments: None,
        }),
        Some(arguments) => Ok(PathSegment {
            ident,
            arguments: Some(copy_arguments(alloc, arguments.as_slice())?),
        }),
    }
}

#[cycle(copy)]
fn copy_arguments(
    alloc: Global,
    arguments: &[GenericArgument],
) -> Result<List<GenericArgument>, AllocError>
    ensures { IfOk result (λ xs. arguments_view xs ≡ arguments_view arguments.now) }
{
    let mut copies = List::new(alloc);
    for argument in arguments {
        copies.push(copy_argument(alloc, argument)?)?;
    }
    Ok(copies)
}

#[cycle(copy)]
fn copy_argument(alloc: Global, argument: &GenericArgument) -> Result<GenericArgument, AllocError>
    ensures { IfOk result (λ a. argument_view a ≡ argument_view argument.now) }
{
    match argument {
        GenericArgument::Lifetime(ident) => Ok(GenericArgument::Lifetime(ident.copy(alloc)?)),
        GenericArgument::Constant(trees) => Ok(GenericArgument::Constant(copy_trees(
            alloc,
            trees.as_slice(),
        )?)),
        GenericArgument::Ty(ty) => Ok(GenericArgument::Ty(copy_type(alloc, ty)?)),
    }
}
