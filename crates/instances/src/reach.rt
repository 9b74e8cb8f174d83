//! Reachable instances, by number.

ghost use Rattle.std.specs.Prelude.{◌≡◌, ◌<◌, ◌↔◌, ℕ, IfOk, IsTrue, length, map, get_or, None};
ghost use Rattle.open_types.specs.Open.{open_view, opens_view};
ghost use Rattle.open_types.specs.Instances.{declared_place, arguments_of};
ghost use Rattle.type_table.specs.Types.{type_at, types_at, AllBelow};
ghost use Rattle.instances.specs.Lists.{IsOneOf, instance_at, number_in};
ghost use Rattle.instances.specs.Numbers.{place_among};

use open_types::{ClosedType, OpenType};
use std::alloc::{AllocError, Global};
use std::marker::Model;
use texts::List;
use type_table::{TypeId, Types};

/// Instances of declarations, by number. Contracts see them as a list, in which the number of an instance is its place.
#[derive(Drop)]
pub struct Reach {
    types: Types,
    /// The type of each instance.
    instances: List<TypeId>,
    /// Of each type, its number among the instances, where it is one.
    numbers: Vec<Option<usize>>,
}

impl Model for Reach {
    ghost use Rattle.std.specs.Prelude.{List as Items, map};
    ghost use Rattle.std.specs.Coded.{coded_list};
    ghost use Rattle.open_types.specs.Open.{Open};
    ghost use Rattle.open_types.specs.proved.OpenCode.{coded_open};

    ghost Value = { Items Open };

    ghost coded = { coded_list coded_open };

    ghost use Rattle.type_table.specs.Types.{type_at};
    ghost use Rattle.instances.specs.Numbers.{AreNumbered};

    ghost view = { λ reach. map (type_at reach.types) reach.instances };

    ghost invariant = { λ reach. AreNumbered reach.types reach.instances reach.numbers.items };
}

/// Of each type of the table, its first place among the instances.
fn numbers_of(
    alloc: Global,
    types: &Types,
    instances: &[TypeId],
) -> Result<Vec<Option<usize>>, AllocError>
    requires { AllBelow (length types.now) instances.now }
    ensures many { IfOk result (λ numbers. length numbers.items ≡ length types.now) }
    ensures placed { IfOk result (λ numbers. (n : ℕ) → n < length types.now
        → get_or numbers.items n None ≡ place_among instances.now n) }
{
    let mut numbers = vec![in alloc; None; types.len()]?;
    let mut left = instances.len();
    while left > 0 {
        left -= 1;
        numbers[instances[left].number()] = Some(left);
    }
    Ok(numbers)
}

impl Reach {
    /// The instances that are types of the table.
    pub(crate) fn new(
        alloc: Global,
        types: Types,
        instances: List<TypeId>,
    ) -> Result<Reach, AllocError>
        requires { AllBelow (length types) instances }
        ensures { IfOk result (λ reach. reach ≡ map (type_at types) instances) }
    {
        let numbers = numbers_of(alloc, &types, instances.as_slice())?;
        Ok(Reach {
            types,
            instances,
            numbers,
        })
    }

    /// How many instances there are.
    pub fn len(&self) -> usize
        ensures { result ≡ length self.now }
    {
        self.instances.len()
    }

    /// The number of the instance, where it is there. It recurses as deep as the type nests, and takes no memory.
    pub fn number(&self, ty: &OpenType) -> Option<usize>
        ensures { result ≡ number_in self.now (open_view ty.now) }
    {
        open_types::same_types_are_equal();
        self.types.stand_apart();
        let id = self.types.find(ty)?;
        self.numbers[id.number()]
    }

    /// The number of an instance that is there, as for `number`.
    pub fn number_of(&self, ty: &OpenType) -> usize
        requires { IsOneOf (open_view ty.now) self.now }
        ensures within { result < length self.now }
        ensures is { instance_at self.now result ≡ open_view ty.now }
    {
        open_types::same_types_are_equal();
        match self.number(ty) {
            Some(number) => number,
            None => unreachable!(),
        }
    }

    /// Whether the instance is there, as for `number`.
    pub fn contains(&self, ty: &OpenType) -> bool
        ensures { IsTrue result ↔ IsOneOf (open_view ty.now) self.now }
    {
        open_types::same_types_are_equal();
        self.number(ty).is_some()
    }

    /// The place of the declaration of which it is an instance.
    pub fn declaration(&self, number: usize) -> usize
        requires { number < length self.now }
        ensures { result ≡ declared_place (instance_at self.now number) }
    {
        match self.types.declaration(self.instances.as_slice()[number]) {
            Some(place) => place,
            None => 0,
        }
    }

    /// The instance as a type.
    pub fn type_of(&self, alloc: Global, number: usize) -> Result<ClosedType, AllocError>
        requires { number < length self.now }
        ensures { IfOk result (λ ty. open_view ty ≡ instance_at self.now number) }
    {
        self.types.type_of(alloc, self.instances.as_slice()[number])
    }

    /// The arguments of the instance.
    pub fn arguments(&self, alloc: Global, number: usize) -> Result<List<ClosedType>, AllocError>
        requires { number < length self.now }
        ensures { IfOk result
            (λ arguments. opens_view arguments ≡ arguments_of (instance_at self.now number)) }
    {
        let ids = self
            .types
            .arguments(alloc, self.instances.as_slice()[number])?;
        let mut arguments = List::new(alloc);
        for id in ids.as_slice() {
            arguments.push(self.types.type_of(alloc, *id)?)?;
        }
        Ok(arguments)
    }
}
