//! Types that are looked up.

ghost use Rattle.open_types.specs.Open.{tuple, open_view, opens_view};
ghost use Rattle.type_table.specs.Types.{IsFound};

use crate::node::Node;
use crate::types::{TypeId, Types};
use open_types::OpenType;

impl Types {
    /// The number of the type, or `None` where the table has no such type. It recurses as deep as the type nests, and takes no
    /// memory.
    pub fn find(&self, ty: &OpenType) -> Option<TypeId>
        ensures { IsFound self.now (open_view ty.now) result }
    {
        find_type(self, ty)
    }
}

#[cycle(find)]
fn find_type(types: &Types, ty: &OpenType) -> Option<TypeId>
    ensures { IsFound types.now (open_view ty.now) result }
{
    types.stand_apart();
    match ty {
        OpenType::Leaf(leaf) => types.find_node(&Node::Leaf(*leaf)),
        OpenType::AnyValue => types.find_node(&Node::AnyValue),
        OpenType::FreeObject => types.find_node(&Node::FreeObject),
        OpenType::Unit => types.find_node(&Node::Unit),
        OpenType::Tuple(items) => find_types(types, items.as_slice()),
        OpenType::Items(head, item) => {
            let item = find_type(types, item)?;
            types.find_node(&Node::Items(*head, item))
        }
        OpenType::Set(head, item) => {
            let item = find_type(types, item)?;
            types.find_node(&Node::Set(*head, item))
        }
        OpenType::Map(head, key, value) => {
            let key = find_type(types, key)?;
            let value = find_type(types, value)?;
            types.find_node(&Node::Map(*head, key, value))
        }
        OpenType::Option(of) => {
            let of = find_type(types, of)?;
            types.find_node(&Node::Option(of))
        }
        OpenType::Through(head, of) => {
            let of = find_type(types, of)?;
            types.find_node(&Node::Through(*head, of))
        }
        OpenType::Param(_) => None,
        OpenType::Named(place, items) => {
            let items = find_types(types, items.as_slice())?;
            types.find_node(&Node::Named(*place, items))
        }
    }
}

/// The number of the tuple of the types, from the last on, or `None`.
#[cycle(find)]
fn find_types(types: &Types, items: &[OpenType]) -> Option<TypeId>
    ensures { IsFound types.now (tuple (opens_view items.now)) result }
{
    types.stand_apart();
    let mut list = types.find_node(&Node::NoItems)?;
    let mut left = items.len();
    while left > 0 {
        left -= 1;
        let first = find_type(types, &items[left])?;
        list = types.find_node(&Node::Item(first, list))?;
    }
    Some(list)
}
