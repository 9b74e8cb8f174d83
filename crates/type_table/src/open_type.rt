//! Types that are taken out of the table.

ghost use Rattle.std.specs.Prelude.{◌≡◌, ◌<◌, length, IfOk};
ghost use Rattle.open_types.specs.Open.{open_view, opens_view};
ghost use Rattle.type_table.specs.Nodes.{items_of, IsTuple};
ghost use Rattle.type_table.specs.Types.{type_at};

use crate::node::Node;
use crate::types::{TypeId, Types};
use open_types::{ClosedType, OpenType};
use std::alloc::{AllocError, Global};
use texts::List;

impl Types {
    /// The type of the number. It recurses as deep as the type nests, and copies each part as often as it stands there.
    pub fn type_of(&self, alloc: Global, id: TypeId) -> Result<ClosedType, AllocError>
        requires { id < length self.now }
        ensures { IfOk result (λ ty. open_view ty ≡ type_at self.now id) }
    {
        self.stand_apart();
        let ty = open_type(self, alloc, id)?;
        Ok(ClosedType::new(ty))
    }
}

#[cycle(type_of)]
fn open_type(types: &Types, alloc: Global, id: TypeId) -> Result<OpenType, AllocError>
    requires { id < length types.now }
    ensures { IfOk result (λ ty. open_view ty ≡ type_at types.now id) }
{
    match types.node(id) {
        Node::Leaf(leaf) => Ok(OpenType::Leaf(leaf)),
        Node::AnyValue => Ok(OpenType::AnyValue),
        Node::FreeObject => Ok(OpenType::FreeObject),
        Node::Unit => Ok(OpenType::Unit),
        Node::NoItems => Ok(OpenType::Tuple(List::new(alloc))),
        Node::Item(_, _) => Ok(OpenType::Tuple(open_types(types, alloc, id)?)),
        Node::Items(head, item) => {
            let item = open_type(types, alloc, item)?;
            Ok(OpenType::Items(head, Box::new(alloc, item)?))
        }
        Node::Set(head, item) => {
            let item = open_type(types, alloc, item)?;
            Ok(OpenType::Set(head, Box::new(alloc, item)?))
        }
        Node::Map(head, key, value) => {
            let key = Box::new(alloc, open_type(types, alloc, key)?)?;
            let value = Box::new(alloc, open_type(types, alloc, value)?)?;
            Ok(OpenType::Map(head, key, value))
        }
        Node::Option(of) => {
            let of = open_type(types, alloc, of)?;
            Ok(OpenType::Option(Box::new(alloc, of)?))
        }
        Node::Through(head, of) => {
            let of = open_type(types, alloc, of)?;
            Ok(OpenType::Through(head, Box::new(alloc, of)?))
        }
        Node::Named(place, arguments) => {
            let arguments = open_types(types, alloc, arguments)?;
            Ok(OpenType::Named(place, arguments))
        }
    }
}

/// The items of the tuple of the number.
#[cycle(type_of)]
fn open_types(types: &Types, alloc: Global, tuple: TypeId) -> Result<List<OpenType>, AllocError>
    requires within { tuple < length types.now }
    requires tuple { IsTuple (type_at types.now tuple) }
    ensures { IfOk result (λ items. opens_view items ≡ items_of (type_at types.now tuple)) }
{
    let numbers = types.items(alloc, tuple)?;
    let mut items = List::new(alloc);
    for number in numbers.as_slice() {
        items.push(open_type(types, alloc, *number)?)?;
    }
    Ok(items)
}
