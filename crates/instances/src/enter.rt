//! Types of a table that are entered, with the instances that stand in them.

ghost use Rattle.std.specs.Prelude.{◌≡◌, ◌<◌, ◌≤◌, ℕ, [], ◌∷◌, Bool, false, Some, length, map, get_or, OnOk, IfErr};
ghost use Rattle.type_table.specs.Types.{type_at, AllBelow, declaration_of, parts_of};
ghost use Rattle.type_table.specs.Types.{number_in as numbers_of};
ghost use Rattle.shapes.specs.Views.{declaration_view};
ghost use Rattle.instances.specs.Walk.{IsWalkError};
ghost use Rattle.instances.specs.Entering.{IsMarked, AreAllReached, AreHeld, AreFound, AreFoundMore};

use crate::bounds::Bounds;
use crate::walk::WalkError;
use shapes::Declaration;
use std::alloc::AllocError;
use texts::List;
use type_table::{TypeId, Types};

/// What a walk has found.
#[derive(Drop)]
pub(crate) struct Found {
    /// Of each type of the table, whether it and what stands in it was entered.
    pub(crate) entered: Vec<bool>,
    pub(crate) instances: List<TypeId>,
}

/// Adds marks that are not set, up to so many.
pub(crate) fn grow(marks: &mut Vec<bool>, many: usize) -> Result<(), AllocError>
    requires { length marks.old.items ≤ many }
    ensures many { OnOk result (length marks.new.items ≡ many) }
    ensures same { OnOk result ((n : ℕ)
        → get_or marks.new.items n false ≡ get_or marks.old.items n false) }
{
    while marks.len() < many {
        marks.push(false)?;
    }
    Ok(())
}

/// Enters the type, behind its parts. The declarations are for contracts alone. It recurses as deep as the type nests.
#[cycle(enter)]
pub(crate) fn enter(
    declared: &[Declaration],
    types: &Types,
    bounds: Bounds,
    found: &mut Found,
    id: TypeId,
) -> Result<(), WalkError>
    requires within { id < length types.now }
    requires room { length found.old.entered.items ≡ length types.now }
    requires found { AreFound (map declaration_view declared.now) types.now bounds found.old }
    requires reached { AreAllReached (map declaration_view declared.now)
        (map (type_at types.now) (id ∷ [])) }
    ensures found { OnOk result
        (AreFound (map declaration_view declared.now) types.now bounds found.new) }
    ensures more { OnOk result (AreFoundMore found.old found.new (id ∷ [])) }
    ensures beyond { IfErr result
        (IsWalkError (map declaration_view declared.now) bounds.limit bounds.most) }
{
    if found.entered[id.number()] {
        return Ok(());
    }
    let (first, second) = types.parts(id);
    enter_part(declared, types, bounds, found, first)?;
    enter_part(declared, types, bounds, found, second)?;
    enter_whole(declared, types, bounds, found, id)
}

/// Enters a part, where there is one.
#[cycle(enter)]
fn enter_part(
    declared: &[Declaration],
    types: &Types,
    bounds: Bounds,
    found: &mut Found,
    part: Option<TypeId>,
) -> Result<(), WalkError>
    requires within { AllBelow (length types.now) (numbers_of part) }
    requires room { length found.old.entered.items ≡ length types.now }
    requires found { AreFound (map declaration_view declared.now) types.now bounds found.old }
    requires reached { AreAllReached (map declaration_view declared.now)
        (map (type_at types.now) (numbers_of part)) }
    ensures found { OnOk result
        (AreFound (map declaration_view declared.now) types.now bounds found.new) }
    ensures more { OnOk result (AreFoundMore found.old found.new (numbers_of part)) }
    ensures beyond { IfErr result
        (IsWalkError (map declaration_view declared.now) bounds.limit bounds.most) }
{
    match part {
        Some(id) => enter(declared, types, bounds, found, id),
        None => Ok(()),
    }
}

/// Enters a type whose parts are entered.
fn enter_whole(
    declared: &[Declaration],
    types: &Types,
    bounds: Bounds,
    found: &mut Found,
    id: TypeId,
) -> Result<(), WalkError>
    requires within { id < length types.now }
    requires room { length found.old.entered.items ≡ length types.now }
    requires found { AreFound (map declaration_view declared.now) types.now bounds found.old }
    requires reached { AreAllReached (map declaration_view declared.now)
        (map (type_at types.now) (id ∷ [])) }
    requires fresh { ¬ IsMarked found.old.entered.items id }
    requires parts { AreHeld (parts_of (type_at types.now id))
        (map (type_at types.now) found.old.instances) }
    ensures found { OnOk result
        (AreFound (map declaration_view declared.now) types.now bounds found.new) }
    ensures more { OnOk result (AreFoundMore found.old found.new (id ∷ [])) }
    ensures beyond { IfErr result
        (IsWalkError (map declaration_view declared.now) bounds.limit bounds.most) }
{
    match types.declaration(id) {
        Some(place) => enter_instance(declared, types, bounds, found, id, place),
        None => {
            type_table::instances_stand_by_parts();
            found.entered[id.number()] = true;
            Ok(())
        }
    }
}

/// Enters an instance of the declaration at the place, where its parts are entered.
fn enter_instance(
    declared: &[Declaration],
    types: &Types,
    bounds: Bounds,
    found: &mut Found,
    id: TypeId,
    place: usize,
) -> Result<(), WalkError>
    requires within { id < length types.now }
    requires room { length found.old.entered.items ≡ length types.now }
    requires found { AreFound (map declaration_view declared.now) types.now bounds found.old }
    requires reached { AreAllReached (map declaration_view declared.now)
        (map (type_at types.now) (id ∷ [])) }
    requires fresh { ¬ IsMarked found.old.entered.items id }
    requires parts { AreHeld (parts_of (type_at types.now id))
        (map (type_at types.now) found.old.instances) }
    requires place { declaration_of (type_at types.now id) ≡ Some place }
    ensures found { OnOk result
        (AreFound (map declaration_view declared.now) types.now bounds found.new) }
    ensures more { OnOk result (AreFoundMore found.old found.new (id ∷ [])) }
    ensures beyond { IfErr result
        (IsWalkError (map declaration_view declared.now) bounds.limit bounds.most) }
{
    type_table::instances_stand_by_parts();
    types.stand_apart();
    if types.size(id) > bounds.most {
        return Err(WalkError::TooLarge(place));
    }
    if found.instances.len() >= bounds.limit {
        return Err(WalkError::TooMany(place));
    }
    found.instances.push(id)?;
    found.entered[id.number()] = true;
    Ok(())
}
