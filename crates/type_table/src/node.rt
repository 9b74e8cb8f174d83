//! Nodes: types by their parts.

ghost use Rattle.std.specs.Prelude.{◌≡◌};
ghost use Rattle.open_types.specs.Same.{list_place, set_place, map_place, through_place};
ghost use Rattle.type_table.specs.Keys.{leaf_place, key_of};

use crate::types::TypeId;
use open_types::{Leaf, ListHead, MapHead, SetHead, ThroughHead};

/// A type by its parts, which are named by their numbers. Items and arguments are a chain: the first, and the number of the
/// tuple of the others.
#[derive(Clone, Copy)]
pub(crate) enum Node {
    Leaf(Leaf),
    AnyValue,
    FreeObject,
    Unit,
    /// The tuple without items, where a chain ends. It is not the unit.
    NoItems,
    Item(TypeId, TypeId),
    Items(ListHead, TypeId),
    Set(SetHead, TypeId),
    Map(MapHead, TypeId, TypeId),
    Option(TypeId),
    Through(ThroughHead, TypeId),
    Named(usize, TypeId),
}

/// Three numbers, by which a node is looked up. What tells most nodes apart stands first.
pub(crate) type Key = (usize, usize, usize);

fn leaf_place(leaf: Leaf) -> usize
    ensures { result ≡ leaf_place leaf }
{
    match leaf {
        Leaf::String => 0,
        Leaf::Str => 1,
        Leaf::Char => 2,
        Leaf::Bool => 3,
        Leaf::I8 => 4,
        Leaf::I16 => 5,
        Leaf::I32 => 6,
        Leaf::I64 => 7,
        Leaf::I128 => 8,
        Leaf::Isize => 9,
        Leaf::U8 => 10,
        Leaf::U16 => 11,
        Leaf::U32 => 12,
        Leaf::U64 => 13,
        Leaf::U128 => 14,
        Leaf::Usize => 15,
        Leaf::F32 => 16,
        Leaf::F64 => 17,
    }
}

fn list_place(head: ListHead) -> usize
    ensures { result ≡ list_place head }
{
    match head {
        ListHead::Vec => 0,
        ListHead::LinkedList => 1,
        ListHead::SmallVec => 2,
        ListHead::Array => 3,
    }
}

fn set_place(head: SetHead) -> usize
    ensures { result ≡ set_place head }
{
    match head {
        SetHead::BTreeSet => 0,
        SetHead::HashSet => 1,
    }
}

fn map_place(head: MapHead) -> usize
    ensures { result ≡ map_place head }
{
    match head {
        MapHead::HashMap => 0,
        MapHead::BTreeMap => 1,
        MapHead::Map => 2,
        MapHead::IndexMap => 3,
    }
}

fn through_place(head: ThroughHead) -> usize
    ensures { result ≡ through_place head }
{
    match head {
        ThroughHead::Cow => 0,
        ThroughHead::Box => 1,
        ThroughHead::RefCell => 2,
        ThroughHead::Arc => 3,
        ThroughHead::Rc => 4,
    }
}

impl Node {
    /// The place of a leaf or a declaration, or else the first part; the second part, or where there is none the place of the
    /// head; the kind of node.
    pub(crate) fn key(&self) -> Key
        ensures { result ≡ key_of self.now }
    {
        match *self {
            Node::Leaf(leaf) => (leaf_place(leaf), 0, 0),
            Node::AnyValue => (0, 0, 1),
            Node::FreeObject => (0, 0, 2),
            Node::Unit => (0, 0, 3),
            Node::NoItems => (0, 0, 4),
            Node::Item(first, rest) => (first.number(), rest.number(), 5),
            Node::Option(of) => (of.number(), 0, 6),
            Node::Named(place, arguments) => (place, arguments.number(), 7),
            Node::Items(head, item) => (item.number(), list_place(head), 8),
            Node::Set(head, item) => (item.number(), set_place(head), 9),
            Node::Through(head, of) => (of.number(), through_place(head), 10),
            Node::Map(head, key, value) => (key.number(), value.number(), 11 + map_place(head)),
        }
    }
}
