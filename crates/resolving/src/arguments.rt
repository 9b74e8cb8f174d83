//! Names with their resolved type arguments.

ghost use Rattle.std.specs.Prelude.{◌≡◌, map, IfOk, option_map};
ghost use Rattle.open_types.specs.Open.{open_view, opens_view};
ghost use Rattle.resolving.specs.Known.{known};
ghost use Rattle.resolving.specs.Free.{declared_with};
ghost use Rattle.resolving.specs.Resolved.{list_of, of_one, of_two, contained, alone, first_parameters, own_type, meant};

use crate::free::hold_free;
use crate::known::KnownNames;
use crate::meaning::Meaning;
use open_types::{Head, ListHead, OpenType};
use std::alloc::{AllocError, Global};
use texts::List;

/// The list of the item. `SmallVec` has an array or slice, whose item is its own.
fn list_of(alloc: Global, head: ListHead, item: OpenType) -> Result<Option<OpenType>, AllocError>
    ensures { IfOk result (λ t. option_map open_view t ≡ list_of head (open_view item)) }
{
    match head {
        ListHead::SmallVec => match item {
            OpenType::Items(ListHead::Array, item) => {
                Ok(Some(OpenType::Items(ListHead::SmallVec, item)))
            }
            _ => Ok(None),
        },
        _ => Ok(Some(OpenType::Items(head, Box::new(alloc, item)?))),
    }
}

fn of_one(alloc: Global, head: Head, of: OpenType) -> Result<Option<OpenType>, AllocError>
    ensures { IfOk result (λ t. option_map open_view t ≡ of_one head (open_view of)) }
{
    match head {
        Head::List(head) => list_of(alloc, head, of),
        Head::Set(head) => Ok(Some(OpenType::Set(head, Box::new(alloc, of)?))),
        Head::Map(_) => Ok(None),
        Head::Option => Ok(Some(OpenType::Option(Box::new(alloc, of)?))),
        Head::Through(head) => Ok(Some(OpenType::Through(head, Box::new(alloc, of)?))),
    }
}

fn of_two(
    alloc: Global,
    head: Head,
    key: OpenType,
    value: OpenType,
) -> Result<Option<OpenType>, AllocError>
    ensures { IfOk result
        (λ t. option_map open_view t ≡ of_two head (open_view key) (open_view value)) }
{
    match head {
        Head::Map(head) => Ok(Some(OpenType::Map(
            head,
            Box::new(alloc, key)?,
            Box::new(alloc, value)?,
        ))),
        _ => Ok(None),
    }
}

/// The container of its type arguments, where their number is right.
fn contained(
    alloc: Global,
    head: Head,
    mut arguments: List<OpenType>,
) -> Result<Option<OpenType>, AllocError>
    ensures { IfOk result (λ t. option_map open_view t ≡ contained head (opens_view arguments)) }
{
    if arguments.len() == 1 {
        of_one(alloc, head, arguments.remove(0))
    } else if arguments.len() == 2 {
        let key = arguments.remove(0);
        of_two(alloc, head, key, arguments.remove(0))
    } else {
        Ok(None)
    }
}

/// The type, where there are no type arguments.
fn alone(ty: OpenType, arguments: &[OpenType]) -> Option<OpenType>
    ensures { option_map open_view result ≡ alone (open_view ty) (opens_view arguments.now) }
{
    if arguments.is_empty() { Some(ty) } else { None }
}

/// The declared type, where it takes as many arguments; with an argument that holds the free object, the free object.
fn declared_with(
    names: &KnownNames<'_>,
    place: usize,
    arguments: List<OpenType>,
) -> Option<OpenType>
    ensures { option_map open_view result
        ≡ declared_with (known names.now) place (opens_view arguments) }
{
    if arguments.len() != names.parameters_at(place) {
        return None;
    }
    if hold_free(arguments.as_slice()) {
        return Some(OpenType::FreeObject);
    }
    Some(OpenType::Named(place, arguments))
}

/// The type parameters of the declaration in which the type is written, in order.
fn own_parameters(alloc: Global, names: &KnownNames<'_>) -> Result<List<OpenType>, AllocError>
    ensures { IfOk result
        (λ ts. map open_view ts ≡ first_parameters (known names.now).parameters) }
{
    let mut parameters = List::new(alloc);
    for place in 0..names.count {
        parameters.push(OpenType::Param(place))?;
    }
    Ok(parameters)
}

/// The declaration in which the type is written, with its own type parameters, where there are no type arguments.
fn own_type(
    alloc: Global,
    names: &KnownNames<'_>,
    place: usize,
    arguments: &[OpenType],
) -> Result<Option<OpenType>, AllocError>
    ensures { IfOk result (λ t. option_map open_view t
        ≡ own_type (known names.now) place (opens_view arguments.now)) }
{
    if arguments.is_empty() {
        Ok(declared_with(names, place, own_parameters(alloc, names)?))
    } else {
        Ok(None)
    }
}

/// What the name stands for with its type arguments, where it takes these.
pub(crate) fn meant(
    alloc: Global,
    names: &KnownNames<'_>,
    meaning: Meaning,
    arguments: List<OpenType>,
) -> Result<Option<OpenType>, AllocError>
    ensures { IfOk result (λ t. option_map open_view t
        ≡ meant (known names.now) meaning (opens_view arguments)) }
{
    match meaning {
        Meaning::Container(head) => contained(alloc, head, arguments),
        Meaning::Leaf(leaf) => Ok(alone(OpenType::Leaf(leaf), arguments.as_slice())),
        Meaning::Value => Ok(alone(OpenType::AnyValue, arguments.as_slice())),
        Meaning::Object => Ok(alone(OpenType::FreeObject, arguments.as_slice())),
        Meaning::Parameter(place) => Ok(alone(OpenType::Param(place), arguments.as_slice())),
        Meaning::Own(place) => own_type(alloc, names, place, arguments.as_slice()),
        Meaning::Declared(place) => Ok(declared_with(names, place, arguments)),
        Meaning::Alias | Meaning::Unknown => Ok(None),
    }
}
