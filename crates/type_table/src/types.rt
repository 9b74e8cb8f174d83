//! The table: its types, their numbers, their parts and their sizes.

ghost use Rattle.std.specs.Prelude.{◌≡◌, ◌<◌, [], length, IfOk, None, map};
ghost use Rattle.open_types.specs.Instances.{arguments_of, list_size, type_size};
ghost use Rattle.type_table.specs.Nodes.{items_of, node_type, node_parts, HasParts, IsTuple};
ghost use Rattle.type_table.specs.Types.{type_at, types_at, IsFront, AllBelow, IsFound, declaration_of, in_word, parts_of, numbers_in, AreDistinctTypes};

use crate::node::{Key, Node};
use open_types::ListHead;
use std::alloc::{AllocError, Global};
use std::collections::BTreeMap;
use std::marker::Model;
use texts::List;

/// The number of a type in a table. Of one table, equal numbers are those of equal types, and the reverse.
#[derive(Clone, Copy, Debug, PartialEq, Eq)]
pub struct TypeId {
    number: usize,
}

impl Model for TypeId {
    ghost use Rattle.std.specs.Prelude.{ℕ};

    ghost Value = { ℕ };

    ghost view = { λ id. id.number };

    ghost inverse = { λ n. record { number = n } };
}

impl TypeId {
    /// The number, from 0 on, by the order in which types were added.
    pub fn number(self) -> usize
        ensures { result ≡ self }
    {
        self.number
    }
}

/// A type by its parts, and its size.
#[derive(Clone, Copy)]
pub(crate) struct Entry {
    node: Node,
    size: usize,
}

/// Closed types, of which each stands once. Contracts see them as a list, in which the number of a type is its place.
#[derive(Drop)]
pub struct Types {
    entries: Vec<Entry>,
    index: BTreeMap<Key, usize>,
}

impl Model for Types {
    ghost use Rattle.std.specs.Prelude.{List};
    ghost use Rattle.std.specs.Coded.{coded_list};
    ghost use Rattle.open_types.specs.Open.{Open};
    ghost use Rattle.open_types.specs.proved.OpenCode.{coded_open};

    ghost Value = { List Open };

    ghost coded = { coded_list coded_open };

    ghost use Rattle.std.specs.BTreeMap.{get};
    ghost use Rattle.type_table.specs.Keys.{key_cmp};
    ghost use Rattle.type_table.specs.Nodes.{entry_types, AreEntries};

    ghost view = { λ types. entry_types types.entries.items };

    ghost invariant = { λ types. AreEntries (get key_cmp types.index) types.entries.items };
}

impl Types {
    /// The table without types. It takes no memory.
    pub fn new(alloc: Global) -> Types
        ensures { result ≡ [] }
    {
        Types {
            entries: Vec::new(alloc),
            index: BTreeMap::new(alloc),
        }
    }

    /// How many types there are.
    pub fn len(&self) -> usize
        ensures { result ≡ length self.now }
    {
        self.entries.len()
    }

    /// Types of different numbers differ, none has a parameter, and each stands behind its parts.
    pub fn stand_apart(&self)
        ensures { AreDistinctTypes self.now }
    {
        let _ = self.entries.len();
    }

    /// The declaration that the type is an instance of, by its place in the source, where it is one. It takes no memory.
    pub fn declaration(&self, id: TypeId) -> Option<usize>
        requires { id < length self.now }
        ensures { result ≡ declaration_of (type_at self.now id) }
    {
        match self.node(id) {
            Node::Named(place, _) => Some(place),
            _ => None,
        }
    }

    /// The numbers of what makes up the type: of a tuple with items the first and the tuple of the others, of an instance the
    /// tuple of its arguments, of a map its key and its value, of a list, a set, an option or a smart pointer what it holds.
    /// They are below the type's own, so a walk down parts ends. It takes no memory.
    pub fn parts(&self, id: TypeId) -> (Option<TypeId>, Option<TypeId>)
        requires { id < length self.now }
        ensures parts { map (type_at self.now) (numbers_in result) ≡ parts_of (type_at self.now id) }
        ensures below { AllBelow id (numbers_in result) }
    {
        match self.node(id) {
            Node::Item(first, rest) => (Some(first), Some(rest)),
            Node::Map(_, key, value) => (Some(key), Some(value)),
            Node::Items(_, of) | Node::Set(_, of) | Node::Through(_, of) => (Some(of), None),
            Node::Option(of) | Node::Named(_, of) => (Some(of), None),
            _ => (None, None),
        }
    }

    /// The numbers of the arguments of an instance, in order; of another type, none.
    pub fn arguments(&self, alloc: Global, id: TypeId) -> Result<List<TypeId>, AllocError>
        requires { id < length self.now }
        ensures arguments { IfOk result
            (λ ns. types_at self.now ns ≡ arguments_of (type_at self.now id)) }
        ensures below { IfOk result (λ ns. AllBelow id ns) }
    {
        match self.node(id) {
            Node::Named(_, arguments) => {
                let items = self.items(alloc, arguments)?;
                Ok(items)
            }
            _ => Ok(List::new(alloc)),
        }
    }

    /// How many names, tuples, units, arrays and slices make up the type; `usize::MAX` where they are more. It takes no memory.
    pub fn size(&self, id: TypeId) -> usize
        requires { id < length self.now }
        ensures { result ≡ in_word (type_size (type_at self.now id)) }
    {
        self.entries[id.number].size
    }

    /// The type by its parts, behind which it stands.
    pub(crate) fn node(&self, id: TypeId) -> Node
        requires { id < length self.now }
        ensures is { type_at self.now id ≡ node_type self.now result }
        ensures parts { HasParts self.now result }
        ensures below { AllBelow id (node_parts result) }
    {
        self.entries[id.number].node
    }

    /// The numbers of the items of a tuple, in order.
    pub(crate) fn items(&self, alloc: Global, tuple: TypeId) -> Result<List<TypeId>, AllocError>
        requires within { tuple < length self.now }
        requires tuple { IsTuple (type_at self.now tuple) }
        ensures items { IfOk result
            (λ ns. types_at self.now ns ≡ items_of (type_at self.now tuple)) }
        ensures below { IfOk result (λ ns. AllBelow tuple ns) }
    {
        let mut items = List::new(alloc);
        let mut rest = tuple;
        while let Node::Item(first, behind) = self.node(rest) {
            items.push(first)?;
            rest = behind;
        }
        Ok(items)
    }

    /// The number of the node's type, where it is there.
    pub(crate) fn find_node(&self, node: &Node) -> Option<TypeId>
        requires { HasParts self.now node.now }
        ensures { IsFound self.now (node_type self.now node.now) result }
    {
        match self.index.get(&node.key()) {
            Some(number) => Some(TypeId { number: *number }),
            None => None,
        }
    }

    /// The number of the node's type. A type that is not there is added at the end; a refused call changes nothing.
    pub(crate) fn add(&mut self, node: Node) -> Result<TypeId, AllocError>
        requires { HasParts self.old node }
        ensures within { IfOk result (λ id. id < length self.new) }
        ensures found { IfOk result (λ id. type_at self.new id ≡ node_type self.old node) }
        ensures front { IsFront self.old self.new }
    {
        match self.find_node(&node) {
            Some(id) => Ok(id),
            None => self.push(node),
        }
    }

    /// Adds the node's type, which is not there, at the end. A refused call changes nothing.
    fn push(&mut self, node: Node) -> Result<TypeId, AllocError>
        requires parts { HasParts self.old node }
        requires missing { IsFound self.old (node_type self.old node) None }
        ensures within { IfOk result (λ id. id < length self.new) }
        ensures found { IfOk result (λ id. type_at self.new id ≡ node_type self.old node) }
        ensures front { IsFront self.old self.new }
    {
        let key = node.key();
        let size = self.node_size(&node);
        let number = self.entries.len();
        self.entries.push(Entry { node, size })?;
        match self.index.insert(key, number) {
            Ok(_) => Ok(TypeId { number }),
            Err(_) => {
                self.entries.pop();
                Err(AllocError)
            }
        }
    }

    /// The size of the node's type.
    fn node_size(&self, node: &Node) -> usize
        requires { HasParts self.now node.now }
        ensures { result ≡ in_word (type_size (node_type self.now node.now)) }
    {
        match *node {
            Node::Item(first, rest) => self.size(first).saturating_add(self.size(rest)),
            Node::Map(_, key, value) => {
                let parts = self.size(key).saturating_add(self.size(value));
                parts.saturating_add(1)
            }
            Node::Items(head, item) => self.size(item).saturating_add(list_size(head)),
            Node::Set(_, of) | Node::Option(of) | Node::Through(_, of) => {
                self.size(of).saturating_add(1)
            }
            Node::Named(_, arguments) => self.size(arguments),
            _ => 1,
        }
    }
}

/// The size of a list but for its item: a `SmallVec` has an array or slice in it.
fn list_size(head: ListHead) -> usize
    ensures { result ≡ list_size head }
{
    match head {
        ListHead::SmallVec => 2,
        _ => 1,
    }
}
