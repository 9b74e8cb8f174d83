//! Copies.

ghost use Rattle.std.specs.Prelude.{◌≡◌, IfOk};
ghost use Rattle.open_types.specs.Open.{open_view, opens_view};

use crate::open_type::OpenType;
use std::alloc::{AllocError, Global};
use texts::List;

impl OpenType {
    /// Another value for the same type.
    pub fn copy(&self, alloc: Global) -> Result<OpenType, AllocError>
        ensures { IfOk result (λ copy. open_view copy ≡ open_view self.now) }
    {
        copy_type(alloc, self)
    }
}

#[cycle(copy)]
fn copy_type(alloc: Global, ty: &OpenType) -> Result<OpenType, AllocError>
    ensures { IfOk result (λ copy. open_view copy ≡ open_view ty.now) }
{
    match ty {
        OpenType::Leaf(leaf) => Ok(OpenType::Leaf(*leaf)),
        OpenType::AnyValue => Ok(OpenType::AnyValue),
        OpenType::FreeObject => Ok(OpenType::FreeObject),
        OpenType::Unit => Ok(OpenType::Unit),
        OpenType::Tuple(items) => Ok(OpenType::Tuple(copy_types(alloc, items.as_slice())?)),
        OpenType::Items(head, item) => Ok(OpenType::Items(
            *head,
            Box::new(alloc, copy_type(alloc, item)?)?,
        )),
        OpenType::Set(head, item) => Ok(OpenType::Set(
            *head,
            Box::new(alloc, copy_type(alloc, item)?)?,
        )),
        OpenType::Map(head, key, value) => Ok(OpenType::Map(
            *head,
            Box::new(alloc, copy_type(alloc, key)?)?,
            Box::new(alloc, copy_type(alloc, value)?)?,
        )),
        OpenType::Option(of) => Ok(OpenType::Option(Box::new(alloc, copy_type(alloc, of)?)?)),
        OpenType::Through(head, of) => Ok(OpenType::Through(
            *head,
            Box::new(alloc, copy_type(alloc, of)?)?,
        )),
        OpenType::Param(place) => Ok(OpenType::Param(*place)),
        OpenType::Named(place, arguments) => Ok(OpenType::Named(
            *place,
            copy_types(alloc, arguments.as_slice())?,
        )),
    }
}

#[cycle(copy)]
fn copy_types(alloc: Global, types: &[OpenType]) -> Result<List<OpenType>, AllocError>
    ensures { IfOk result (λ copies. opens_view copies ≡ opens_view types.now) }
{
    let mut copies = List::new(alloc);
    for ty in types {
        copies.push(copy_type(alloc, ty)?)?;
    }
    Ok(copies)
}
