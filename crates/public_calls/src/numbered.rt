//! Types with arguments put in, how they read, and types by number.

ghost use Rattle.std.specs.Prelude.{◌≡◌, ◌<◌, length, IfOk};
ghost use Rattle.open_types.specs.Open.{open_view, items, leaf, named, no_types, more_types, param};
ghost use Rattle.open_types.specs.declared.open_type.ListHead.TheVariants.{Vec as AnyVec};

use diag::DeriveError;
use open_types::{ClosedType, Leaf, ListHead, OpenType, substitute};
use scopes::type_text;
use std::alloc::{AllocError, Global};
use syntax::{Declarations, parse_declarations};
use texts::{List, Text};
use type_tree::{TypeId, Types};

/// A `Vec` of the type.
fn list_of(alloc: Global, item: OpenType) -> Result<OpenType, AllocError>
    ensures { IfOk result (λ t. open_view t ≡ items AnyVec (open_view item)) }
{
    Ok(OpenType::Items(ListHead::Vec, Box::new(alloc, item)?))
}

/// The first declaration with a `Vec` of the first parameter as its argument.
fn first_of_parameter(alloc: Global) -> Result<OpenType, AllocError>
    ensures { IfOk result
        (λ t. open_view t ≡ named 0 (more_types (items AnyVec (param 0)) no_types)) }
{
    let item = list_of(alloc, OpenType::Param(0))?;
    let mut arguments = List::new(alloc);
    arguments.push(item)?;
    Ok(OpenType::Named(0, arguments))
}

/// A copy of the first declaration with a `Vec` of the second as its argument.
fn first_of_seconds(alloc: Global) -> Result<ClosedType, AllocError>
    ensures { IfOk result
        (λ t. open_view t ≡ named 0 (more_types (items AnyVec (named 1 no_types)) no_types)) }
{
    let arguments = [ClosedType::declared(alloc, 1)];
    let ty = substitute(alloc, &first_of_parameter(alloc)?, arguments.as_slice())?;
    ty.copy(alloc)
}

/// How the first of the declarations reads with a `Vec` of the second as its argument.
fn first_text(alloc: Global, declarations: &Declarations) -> Result<Text, AllocError> {
    if declarations.items.len() < 2 {
        return Text::new(alloc, "fewer than two declarations");
    }
    let ty = first_of_seconds(alloc)?;
    type_text(alloc, declarations, &ty)
}

fn read_text(alloc: Global) -> Result<Text, DeriveError> {
    let declarations = parse_declarations(alloc, "struct P<T> { t: T } struct U;")?;
    Ok(first_text(alloc, &declarations)?)
}

/// The `Vec` of `bool`.
fn list(alloc: Global) -> Result<ClosedType, AllocError>
    ensures { IfOk result (λ t. open_view t ≡ items AnyVec (leaf Leaf.Bool)) }
{
    Ok(ClosedType::new(list_of(alloc, OpenType::Leaf(Leaf::Bool))?))
}

/// The number of `Vec<T>` at `bool`.
fn substituted(alloc: Global, types: &mut Types) -> Result<TypeId, AllocError>
    ensures { IfOk result (λ id. id < length types.new) }
{
    let open = list_of(alloc, OpenType::Param(0))?;
    let item = types.intern(&ClosedType::new(OpenType::Leaf(Leaf::Bool)))?;
    types.substitute(&open, &[item])
}

/// Whether the type of the number is `Vec<bool>`.
fn is_list(alloc: Global, types: &Types, id: TypeId) -> Result<bool, AllocError>
    requires { id < length types.now }
{
    let (list, back) = (list(alloc)?, types.type_of(alloc, id)?);
    Ok(back.as_open().is_same(list.as_open()))
}

/// The number of `Vec<T>` at `bool`, of how many types, and whether it is that of `Vec<bool>`.
fn number_text(alloc: Global, types: &mut Types) -> Result<String, AllocError> {
    let put = substituted(alloc, types)?;
    let is_list = is_list(alloc, &*types, put)?;
    format!(in alloc; "{} of {} {is_list}", put.number(), types.len())
}

pub(crate) fn told(alloc: Global) -> Result<String, DeriveError> {
    let mut types = Types::new(alloc);
    let numbers = number_text(alloc, &mut types)?;
    Ok(format!(in alloc; "number {numbers}, text {}", read_text(alloc)?.as_str())?)
}
