//! The walk over instances.

ghost use Rattle.std.specs.Prelude.{◌≡◌, ◌<◌, ◌-◌, ◌^◌, [], ◌∷◌, length, map, IfOk, OnOk, IfErr, IsTrue};
ghost use Rattle.open_types.specs.Open.{open_view, IsOverFirst, substituted};
ghost use Rattle.open_types.specs.Instances.{declared_place};
ghost use Rattle.type_table.specs.Types.{type_at, types_at, AllBelow};
ghost use Rattle.shapes.specs.Instances.{places_at};
ghost use Rattle.shapes.specs.InstanceShape.{IsReachable};
ghost use Rattle.shapes.specs.Declarations.{AreFitting};
ghost use Rattle.shapes.specs.Views.{declaration_view};
ghost use Rattle.instances.specs.Lists.{IsWhole};
ghost use Rattle.instances.specs.Walk.{AreReached, IsWalkError};
ghost use Rattle.instances.specs.Entering.{AreAllReached, AreFound, HoldsNone, IsWalked, root_at, roots_among};

use crate::bounds::Bounds;
use crate::enter::{Found, enter, grow};
use crate::law::reachable_fit;
use crate::reach::Reach;
use open_types::{ClosedType, OpenType};
use shapes::Declaration;
use std::alloc::{AllocError, Global};
use texts::List;
use type_table::{TypeId, Types};

/// Why a walk ends before all instances are found.
#[derive(Debug)]
pub enum WalkError {
    /// Memory is wanted.
    Memory,
    /// More instances are reachable than may be; the place of the declaration of one.
    TooMany(usize),
    /// An instance has more names than may be; the place of its declaration.
    TooLarge(usize),
}

impl From<AllocError> for WalkError {
    ghost use Rattle.std.specs.Prelude.{◌≡◌};
    ghost use Rattle.instances.specs.declared.walk.WalkError.TheVariants.{Memory};

    ghost from_gives = { λ _ error. error ≡ Memory };

    fn from(_error: AllocError) -> WalkError {
        WalkError::Memory
    }
}

/// The reachable instances of the declarations: the roots in the order of their declarations, and behind them what stands in
/// the places of those before. Parts of a type stand before it, and its first part before the second. It recurses as deep as
/// types nest.
pub fn reach_of(
    alloc: Global,
    declared: &[Declaration],
    limit: usize,
    most: usize,
) -> Result<Reach, WalkError>
    requires fitting { AreFitting (map declaration_view declared.now) }
    requires most { most < usize.MAX }
    ensures reached { IfOk result (AreReached (map declaration_view declared.now) limit most) }
    ensures beyond { IfErr result (IsWalkError (map declaration_view declared.now) limit most) }
{
    let bounds = Bounds { limit, most };
    let mut types = Types::new(alloc);
    let mut found = Found {
        entered: Vec::new(alloc),
        instances: List::new(alloc),
    };
    enter_all(alloc, declared, &mut types, bounds, &mut found)?;
    Ok(Reach::new(alloc, types, found.instances)?)
}

/// Enters the roots, and by number what stands in the places of the instances.
fn enter_all(
    alloc: Global,
    declared: &[Declaration],
    types: &mut Types,
    bounds: Bounds,
    found: &mut Found,
) -> Result<(), WalkError>
    requires fitting { AreFitting (map declaration_view declared.now) }
    requires found { AreFound (map declaration_view declared.now) types.old bounds found.old }
    ensures found { OnOk result
        (AreFound (map declaration_view declared.now) types.new bounds found.new) }
    ensures whole { OnOk result
        (IsWhole (map declaration_view declared.now) (map (type_at types.new) found.new.instances)) }
    ensures beyond { IfErr result
        (IsWalkError (map declaration_view declared.now) bounds.limit bounds.most) }
{
    enter_roots(alloc, declared, types, bounds, found)?;
    let mut number = 0;
    while number < found.instances.len() {
        let id = found.instances.as_slice()[number];
        enter_places(alloc, declared, types, bounds, found, id)?;
        number += 1;
    }
    Ok(())
}

/// Enters each declaration that has no parameters.
fn enter_roots(
    alloc: Global,
    declared: &[Declaration],
    types: &mut Types,
    bounds: Bounds,
    found: &mut Found,
) -> Result<(), WalkError>
    requires { AreFound (map declaration_view declared.now) types.old bounds found.old }
    ensures walked { OnOk result (IsWalked (map declaration_view declared.now) bounds
        types.old found.old.instances types.new found.new
        (roots_among (map declaration_view declared.now) (length declared.now))) }
    ensures beyond { IfErr result
        (IsWalkError (map declaration_view declared.now) bounds.limit bounds.most) }
{
    for place in 0..declared.len() {
        enter_root(alloc, declared, types, bounds, found, place)?;
    }
    Ok(())
}

/// Enters the declaration at the place, where it has no parameters.
fn enter_root(
    alloc: Global,
    declared: &[Declaration],
    types: &mut Types,
    bounds: Bounds,
    found: &mut Found,
    place: usize,
) -> Result<(), WalkError>
    requires place { place < length declared.now }
    requires found { AreFound (map declaration_view declared.now) types.old bounds found.old }
    ensures walked { OnOk result (IsWalked (map declaration_view declared.now) bounds
        types.old found.old.instances types.new found.new
        (root_at (map declaration_view declared.now) place)) }
    ensures beyond { IfErr result
        (IsWalkError (map declaration_view declared.now) bounds.limit bounds.most) }
{
    if declared[place].parameters != 0 {
        return Ok(());
    }
    let root = ClosedType::declared(alloc, place);
    enter_place(declared, types, bounds, found, root.as_open(), &[])
}

/// Enters what stands in the places of the instance.
fn enter_places(
    alloc: Global,
    declared: &[Declaration],
    types: &mut Types,
    bounds: Bounds,
    found: &mut Found,
    id: TypeId,
) -> Result<(), WalkError>
    requires fitting { AreFitting (map declaration_view declared.now) }
    requires within { id < length types.old }
    requires found { AreFound (map declaration_view declared.now) types.old bounds found.old }
    requires reached { IsReachable (map declaration_view declared.now) (type_at types.old id) }
    ensures walked { OnOk result (IsWalked (map declaration_view declared.now) bounds
        types.old found.old.instances types.new found.new
        (places_at (map declaration_view declared.now) (type_at types.old id))) }
    ensures beyond { IfErr result
        (IsWalkError (map declaration_view declared.now) bounds.limit bounds.most) }
{
    reachable_fit();
    let place = declared_place(types, id);
    let ids = types.arguments(alloc, id)?;
    let arguments = ids.as_slice();
    let places = declared[place].types(alloc)?;
    for ty in &places {
        enter_place(declared, types, bounds, found, ty, arguments)?;
    }
    Ok(())
}

/// The place of the declaration, where the type is an instance; or else 0.
fn declared_place(types: &Types, id: TypeId) -> usize
    requires { id < length types.now }
    ensures { result ≡ declared_place (type_at types.now id) }
{
    match types.declaration(id) {
        Some(place) => place,
        None => 0,
    }
}

/// Enters what stands in the type with the arguments in the places of its parameters. Of a type around another it is this that
/// is entered. It recurses as deep as types nest.
#[cycle(place)]
fn enter_place(
    declared: &[Declaration],
    types: &mut Types,
    bounds: Bounds,
    found: &mut Found,
    ty: &OpenType,
    arguments: &[TypeId],
) -> Result<(), WalkError>
    requires over { IsOverFirst (length arguments.now) (open_view ty.now) }
    requires numbers { AllBelow (length types.old) arguments.now }
    requires found { AreFound (map declaration_view declared.now) types.old bounds found.old }
    requires reached { AreAllReached (map declaration_view declared.now)
        (substituted (types_at types.old arguments.now) (open_view ty.now) ∷ []) }
    ensures walked { OnOk result (IsWalked (map declaration_view declared.now) bounds
        types.old found.old.instances types.new found.new
        (substituted (types_at types.old arguments.now) (open_view ty.now) ∷ [])) }
    ensures beyond { IfErr result
        (IsWalkError (map declaration_view declared.now) bounds.limit bounds.most) }
{
    match ty {
        OpenType::Items(_, of) => enter_place(declared, types, bounds, found, of, arguments),
        OpenType::Set(_, of) => enter_place(declared, types, bounds, found, of, arguments),
        OpenType::Option(of) => enter_place(declared, types, bounds, found, of, arguments),
        OpenType::Through(_, of) => enter_place(declared, types, bounds, found, of, arguments),
        _ => enter_type(declared, types, bounds, found, ty, arguments),
    }
}

/// Enters the type with the arguments in the places of its parameters.
fn enter_type(
    declared: &[Declaration],
    types: &mut Types,
    bounds: Bounds,
    found: &mut Found,
    ty: &OpenType,
    arguments: &[TypeId],
) -> Result<(), WalkError>
    requires over { IsOverFirst (length arguments.now) (open_view ty.now) }
    requires numbers { AllBelow (length types.old) arguments.now }
    requires found { AreFound (map declaration_view declared.now) types.old bounds found.old }
    requires reached { AreAllReached (map declaration_view declared.now)
        (substituted (types_at types.old arguments.now) (open_view ty.now) ∷ []) }
    ensures walked { OnOk result (IsWalked (map declaration_view declared.now) bounds
        types.old found.old.instances types.new found.new
        (substituted (types_at types.old arguments.now) (open_view ty.now) ∷ [])) }
    ensures beyond { IfErr result
        (IsWalkError (map declaration_view declared.now) bounds.limit bounds.most) }
{
    if holds_none(ty) {
        return Ok(());
    }
    let id = types.substitute(ty, arguments)?;
    enter_grown(declared, types, bounds, found, id)
}

/// True only where no instance stands in the type, whatever its parameters are. Of a type with a tuple it is false without a
/// look into it. It recurses as deep as types nest.
#[cycle(holds)]
fn holds_none(ty: &OpenType) -> bool
    ensures { IsTrue result → HoldsNone (open_view ty.now) }
{
    match ty {
        OpenType::Leaf(_) | OpenType::AnyValue | OpenType::FreeObject | OpenType::Unit => true,
        OpenType::Items(_, item) => holds_none(item),
        OpenType::Set(_, item) => holds_none(item),
        OpenType::Option(item) => holds_none(item),
        OpenType::Through(_, item) => holds_none(item),
        OpenType::Map(_, key, value) => holds_none(key) && holds_none(value),
        OpenType::Tuple(_) | OpenType::Param(_) | OpenType::Named(_, _) => false,
    }
}

/// Enters the type of the number in a table that may have grown.
fn enter_grown(
    declared: &[Declaration],
    types: &Types,
    bounds: Bounds,
    found: &mut Found,
    id: TypeId,
) -> Result<(), WalkError>
    requires within { id < length types.now }
    requires found { AreFound (map declaration_view declared.now) types.now bounds found.old }
    requires reached { AreAllReached (map declaration_view declared.now)
        (map (type_at types.now) (id ∷ [])) }
    ensures walked { OnOk result (IsWalked (map declaration_view declared.now) bounds
        types.now found.old.instances types.now found.new (map (type_at types.now) (id ∷ []))) }
    ensures beyond { IfErr result
        (IsWalkError (map declaration_view declared.now) bounds.limit bounds.most) }
{
    grow(&mut found.entered, types.len())?;
    enter(declared, types, bounds, found, id)
}
