//! Types that are put into the table, with arguments in the places of their parameters.

ghost use Rattle.std.specs.Prelude.{◌≡◌, ◌<◌, length, IfOk};
ghost use Rattle.open_types.specs.Open.{tuple, map_of, param, open_view, opens_view, IsOverFirst, AreOverFirst, substituted, all_substituted};
ghost use Rattle.type_table.specs.Types.{type_at, types_at, IsFront, AllBelow};

use crate::node::Node;
use crate::types::{TypeId, Types};
use open_types::{ClosedType, MapHead, OpenType, types_stay_without_arguments};
use std::alloc::AllocError;

impl Types {
    /// The number of the type. A type that is not there is added at the end, behind its parts; a refused call may leave parts.
    /// It recurses as deep as the type nests.
    pub fn intern(&mut self, ty: &ClosedType) -> Result<TypeId, AllocError>
        ensures within { IfOk result (λ id. id < length self.new) }
        ensures value { IfOk result (λ id. type_at self.new id ≡ open_view ty.now) }
        ensures front { IsFront self.old self.new }
    {
        types_stay_without_arguments();
        substitute_type(self, ty.as_open(), &[])
    }

    /// The number of the type with the arguments in the places of its parameters, as for `intern`.
    pub fn substitute(&mut self, ty: &OpenType, arguments: &[TypeId]) -> Result<TypeId, AllocError>
        requires over { IsOverFirst (length arguments.now) (open_view ty.now) }
        requires numbers { AllBelow (length self.old) arguments.now }
        ensures within { IfOk result (λ id. id < length self.new) }
        ensures value { IfOk result (λ id. type_at self.new id
            ≡ substituted (types_at self.old arguments.now) (open_view ty.now)) }
        ensures front { IsFront self.old self.new }
    {
        substitute_type(self, ty, arguments)
    }
}

/// The number of the argument in the place.
fn argument(types: &Types, arguments: &[TypeId], place: usize) -> TypeId
    requires numbers { AllBelow (length types.now) arguments.now }
    requires within { place < length arguments.now }
    ensures within { result < length types.now }
    ensures value { type_at types.now result
        ≡ substituted (types_at types.now arguments.now) (param place) }
{
    arguments[place]
}

/// The number of the type with the arguments in the places of its parameters.
#[cycle(substitute)]
#[tactic(auto, using(crate::proofs::Fronts::below_front, crate::proofs::Fronts::types_front, crate::proofs::Fronts::type_front, crate::proofs::Fronts::front_itself, crate::proofs::Fronts::front_twice))]
fn substitute_type(
    types: &mut Types,
    ty: &OpenType,
    arguments: &[TypeId],
) -> Result<TypeId, AllocError>
    requires over { IsOverFirst (length arguments.now) (open_view ty.now) }
    requires numbers { AllBelow (length types.old) arguments.now }
    ensures within { IfOk result (λ id. id < length types.new) }
    ensures value { IfOk result (λ id. type_at types.new id
        ≡ substituted (types_at types.old arguments.now) (open_view ty.now)) }
    ensures front { IsFront types.old types.new }
    ensures numbers { AllBelow (length types.new) arguments.now }
    ensures same { types_at types.new arguments.now ≡ types_at types.old arguments.now }
{
    match ty {
        OpenType::Leaf(leaf) => types.add(Node::Leaf(*leaf)),
        OpenType::AnyValue => types.add(Node::AnyValue),
        OpenType::FreeObject => types.add(Node::FreeObject),
        OpenType::Unit => types.add(Node::Unit),
        OpenType::Tuple(items) => substitute_types(types, items.as_slice(), arguments),
        OpenType::Items(head, item) => {
            let item = substitute_type(types, item, arguments)?;
            types.add(Node::Items(*head, item))
        }
        OpenType::Set(head, item) => {
            let item = substitute_type(types, item, arguments)?;
            types.add(Node::Set(*head, item))
        }
        OpenType::Map(head, key, value) => {
            let key = substitute_type(types, key, arguments)?;
            substitute_map(types, *head, key, value, arguments)
        }
        OpenType::Option(of) => {
            let of = substitute_type(types, of, arguments)?;
            types.add(Node::Option(of))
        }
        OpenType::Through(head, of) => {
            let of = substitute_type(types, of, arguments)?;
            types.add(Node::Through(*head, of))
        }
        OpenType::Param(place) => Ok(argument(types, arguments, *place)),
        OpenType::Named(place, items) => {
            let items = substitute_types(types, items.as_slice(), arguments)?;
            types.add(Node::Named(*place, items))
        }
    }
}

/// The number of the map from the key to the type with the arguments.
#[cycle(substitute)]
#[tactic(auto, using(crate::proofs::Fronts::within_front, crate::proofs::Fronts::below_front, crate::proofs::Fronts::types_front, crate::proofs::Fronts::front_twice))]
fn substitute_map(
    types: &mut Types,
    head: MapHead,
    key: TypeId,
    value: &OpenType,
    arguments: &[TypeId],
) -> Result<TypeId, AllocError>
    requires key { key < length types.old }
    requires over { IsOverFirst (length arguments.now) (open_view value.now) }
    requires numbers { AllBelow (length types.old) arguments.now }
    ensures within { IfOk result (λ id. id < length types.new) }
    ensures value { IfOk result (λ id. type_at types.new id ≡ map_of head (type_at types.old key)
        (substituted (types_at types.old arguments.now) (open_view value.now))) }
    ensures front { IsFront types.old types.new }
    ensures numbers { AllBelow (length types.new) arguments.now }
    ensures same { types_at types.new arguments.now ≡ types_at types.old arguments.now }
{
    let value = substitute_type(types, value, arguments)?;
    types.add(Node::Map(head, key, value))
}

/// The number of the tuple of the types, with the arguments. It is made from the last on, since a tuple stands behind that of
/// the items after its first.
#[cycle(substitute)]
#[tactic(auto, using(crate::proofs::Fronts::below_front, crate::proofs::Fronts::types_front, crate::proofs::Fronts::front_twice))]
fn substitute_types(
    types: &mut Types,
    items: &[OpenType],
    arguments: &[TypeId],
) -> Result<TypeId, AllocError>
    requires over { AreOverFirst (length arguments.now) (opens_view items.now) }
    requires numbers { AllBelow (length types.old) arguments.now }
    ensures within { IfOk result (λ id. id < length types.new) }
    ensures value { IfOk result (λ id. type_at types.new id
        ≡ tuple (all_substituted (types_at types.old arguments.now) (opens_view items.now))) }
    ensures front { IsFront types.old types.new }
    ensures numbers { AllBelow (length types.new) arguments.now }
    ensures same { types_at types.new arguments.now ≡ types_at types.old arguments.now }
{
    let mut list = types.add(Node::NoItems)?;
    let mut left = items.len();
    while left > 0 {
        left -= 1;
        let first = substitute_type(types, &items[left], arguments)?;
        list = types.add(Node::Item(first, list))?;
    }
    Ok(list)
}
