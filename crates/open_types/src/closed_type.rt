//! Types without parameters.

ghost use Rattle.std.specs.Prelude.{◌≡◌, ◌<◌, IfOk, length};
ghost use Rattle.open_types.specs.Open.{named, no_types, open_view, opens_view, IsClosed, AreClosed, IsOverFirst, AreOverFirst, argument_at, substituted, all_substituted};

use crate::open_type::OpenType;
use std::alloc::{AllocError, Global};
use std::marker::Model;
use texts::List;

/// An open type without parameters.
#[derive(Debug, Drop)]
pub struct ClosedType {
    ty: OpenType,
}

impl Model for ClosedType {
    ghost use Rattle.open_types.specs.declared.open_type.OpenType.{OpenType};
    ghost use Rattle.open_types.specs.Open.{open_view, IsClosed};
    ghost use Rattle.open_types.specs.contracts.open_type.OpenType as opened;

    ghost Value = { OpenType };

    ghost coded = { opened.the_row.coded };

    ghost view = { λ c. c.ty };

    ghost invariant = { λ c. IsClosed (open_view c.ty) };
}

impl ClosedType {
    /// The type, which has no parameters. It takes no memory.
    pub fn new(ty: OpenType) -> ClosedType
        requires { IsClosed (open_view ty) }
        ensures { result ≡ ty }
    {
        ClosedType { ty }
    }

    /// The declaration at a place of the source, without arguments. It takes no memory.
    pub fn declared(alloc: Global, place: usize) -> ClosedType
        ensures { open_view result ≡ named place no_types }
    {
        ClosedType {
            ty: OpenType::Named(place, List::new(alloc)),
        }
    }

    /// The type, as an open one.
    pub fn as_open(&self) -> &OpenType
        ensures same { result.now ≡ self.now }
        ensures closed { IsClosed (open_view result.now) }
    {
        &self.ty
    }

    /// Another value for the same type.
    pub fn copy(&self, alloc: Global) -> Result<ClosedType, AllocError>
        ensures { IfOk result (λ copy. open_view copy ≡ open_view self.now) }
    {
        let ty = self.ty.copy(alloc)?;
        Ok(ClosedType { ty })
    }
}

/// The type with the arguments put in the places of its parameters.
pub fn substitute(
    alloc: Global,
    ty: &OpenType,
    arguments: &[ClosedType],
) -> Result<ClosedType, AllocError>
    requires { IsOverFirst (length arguments.now) (open_view ty.now) }
    ensures { IfOk result
        (λ t. open_view t ≡ substituted (opens_view arguments.now) (open_view ty.now)) }
{
    let ty = substitute_type(alloc, ty, arguments)?;
    Ok(ClosedType { ty })
}

/// The type with the arguments put in the places of its first parameters. A parameter that has no argument stays, counted
/// from the end of the arguments.
pub fn substitute_first(
    alloc: Global,
    ty: &OpenType,
    arguments: &[ClosedType],
) -> Result<OpenType, AllocError>
    ensures { IfOk result
        (λ t. open_view t ≡ substituted (opens_view arguments.now) (open_view ty.now)) }
{
    substitute_type(alloc, ty, arguments)
}

fn argument(alloc: Global, arguments: &[ClosedType], place: usize) -> Result<OpenType, AllocError>
    ensures value { IfOk result (λ t. open_view t ≡ argument_at (opens_view arguments.now) place) }
    ensures closed { IfOk result (λ t. place < length arguments.now → IsClosed (open_view t)) }
{
    if place < arguments.len() {
        arguments[place].as_open().copy(alloc)
    } else {
        Ok(OpenType::Param(place - arguments.len()))
    }
}

#[cycle(substitute)]
fn substitute_type(
    alloc: Global,
    ty: &OpenType,
    arguments: &[ClosedType],
) -> Result<OpenType, AllocError>
    ensures value { IfOk result
        (λ t. open_view t ≡ substituted (opens_view arguments.now) (open_view ty.now)) }
    ensures closed { IfOk result (λ t. IsOverFirst (length arguments.now) (open_view ty.now)
        → IsClosed (open_view t)) }
{
    match ty {
        OpenType::Leaf(leaf) => Ok(OpenType::Leaf(*leaf)),
        OpenType::AnyValue => Ok(OpenType::AnyValue),
        OpenType::FreeObject => Ok(OpenType::FreeObject),
        OpenType::Unit => Ok(OpenType::Unit),
        OpenType::Tuple(items) => {
            let items = substitute_types(alloc, items.as_slice(), arguments)?;
            Ok(OpenType::Tuple(items))
        }
        OpenType::Items(head, item) => Ok(OpenType::Items(
            *head,
            Box::new(alloc, substitute_type(alloc, item, arguments)?)?,
        )),
        OpenType::Set(head, item) => Ok(OpenType::Set(
            *head,
            Box::new(alloc, substitute_type(alloc, item, arguments)?)?,
        )),
        OpenType::Map(head, key, value) => Ok(OpenType::Map(
            *head,
            Box::new(alloc, substitute_type(alloc, key, arguments)?)?,
            Box::new(alloc, substitute_type(alloc, value, arguments)?)?,
        )),
        OpenType::Option(of) => Ok(OpenType::Option(Box::new(
            alloc,
            substitute_type(alloc, of, arguments)?,
        )?)),
        OpenType::Through(head, of) => Ok(OpenType::Through(
            *head,
            Box::new(alloc, substitute_type(alloc, of, arguments)?)?,
        )),
        OpenType::Param(place) => argument(alloc, arguments, *place),
        OpenType::Named(place, items) => {
            let items = substitute_types(alloc, items.as_slice(), arguments)?;
            Ok(OpenType::Named(*place, items))
        }
    }
}

#[cycle(substitute)]
fn substitute_types(
    alloc: Global,
    types: &[OpenType],
    arguments: &[ClosedType],
) -> Result<List<OpenType>, AllocError>
    ensures value { IfOk result
        (λ ts. opens_view ts ≡ all_substituted (opens_view arguments.now) (opens_view types.now)) }
    ensures closed { IfOk result (λ ts. AreOverFirst (length arguments.now) (opens_view types.now)
        → AreClosed (opens_view ts)) }
{
    let mut made = List::new(alloc);
    for ty in types {
        made.push(substitute_type(alloc, ty, arguments)?)?;
    }
    Ok(made)
}
