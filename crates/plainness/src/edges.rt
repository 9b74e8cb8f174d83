//! The instances that stand in the places of instances, by number.

ghost use Rattle.std.specs.Prelude.{◌≡◌, ◌<◌, ◌++◌, length, map, IfOk, OnOk};
ghost use Rattle.open_types.specs.Open.{open_view, opens_of, opens_view, substituted};
ghost use Rattle.shapes.specs.Declarations.{AreFitting};
ghost use Rattle.shapes.specs.Views.{declaration_view};
ghost use Rattle.instances.specs.Lists.{AreInstances, instance_at};
ghost use Rattle.plainness.specs.Edges.{numbers_in, numbers_among, edges_at, edges_of};

use instances::Reach;
use open_types::{ClosedType, OpenType, substitute_first};
use shapes::Declaration;
use std::alloc::{AllocError, Global};
use texts::List;

/// Adds the numbers of the instances that stand in the type, arguments included. It recurses as deep as the type nests.
#[cycle(edges)]
fn push_numbers(reach: &Reach, found: &mut List<usize>, ty: &OpenType) -> Result<(), AllocError>
    ensures { OnOk result (found.new ≡ found.old ++ numbers_in reach.now (open_view ty.now)) }
{
    match ty {
        OpenType::Items(_, of) => push_numbers(reach, found, of),
        OpenType::Set(_, of) => push_numbers(reach, found, of),
        OpenType::Option(of) => push_numbers(reach, found, of),
        OpenType::Through(_, of) => push_numbers(reach, found, of),
        OpenType::Map(_, key, value) => {
            push_numbers(reach, found, key)?;
            push_numbers(reach, found, value)
        }
        OpenType::Tuple(items) => push_among(reach, found, items.as_slice()),
        OpenType::Named(_, arguments) => {
            if let Some(number) = reach.number(ty) {
                found.push(number)?;
            }
            push_among(reach, found, arguments.as_slice())
        }
        OpenType::Leaf(_)
        | OpenType::AnyValue
        | OpenType::FreeObject
        | OpenType::Unit
        | OpenType::Param(_) => Ok(()),
    }
}

/// Adds those of the types.
#[cycle(edges)]
fn push_among(reach: &Reach, found: &mut List<usize>, types: &[OpenType]) -> Result<(), AllocError>
    ensures { OnOk result (found.new
        ≡ found.old ++ numbers_among reach.now (opens_of (map open_view types.now))) }
{
    for ty in types {
        push_numbers(reach, found, ty)?;
    }
    Ok(())
}

/// Adds those of the instances that stand in the type with the arguments in the places of its parameters.
fn push_place(
    alloc: Global,
    reach: &Reach,
    found: &mut List<usize>,
    ty: &OpenType,
    arguments: &[ClosedType],
) -> Result<(), AllocError>
    ensures { OnOk result (found.new ≡ found.old
        ++ numbers_in reach.now (substituted (opens_view arguments.now) (open_view ty.now))) }
{
    let put = substitute_first(alloc, ty, arguments)?;
    push_numbers(reach, found, &put)
}

/// The numbers of the instances that stand in the places of that of the number.
fn edges_at(
    alloc: Global,
    declared: &[Declaration],
    reach: &Reach,
    number: usize,
) -> Result<List<usize>, AllocError>
    requires fitting { AreFitting (map declaration_view declared.now) }
    requires instances { AreInstances (map declaration_view declared.now) reach.now }
    requires number { number < length reach.now }
    ensures { IfOk result (λ numbers. numbers ≡ edges_at (map declaration_view declared.now)
        reach.now (instance_at reach.now number)) }
{
    instances::reachable_fit();
    let arguments = reach.arguments(alloc, number)?;
    let types = declared[reach.declaration(number)].types(alloc)?;
    let mut found = List::new(alloc);
    for ty in &types {
        push_place(alloc, reach, &mut found, ty, arguments.as_slice())?;
    }
    Ok(found)
}

/// Of each instance those of the ones in its places.
pub(crate) fn edges_of(
    alloc: Global,
    declared: &[Declaration],
    reach: &Reach,
) -> Result<List<List<usize>>, AllocError>
    requires fitting { AreFitting (map declaration_view declared.now) }
    requires instances { AreInstances (map declaration_view declared.now) reach.now }
    ensures { IfOk result
        (λ edges. edges ≡ edges_of (map declaration_view declared.now) reach.now) }
{
    let mut edges = List::new(alloc);
    for number in 0..reach.len() {
        edges.push(edges_at(alloc, declared, reach, number)?)?;
    }
    Ok(edges)
}
