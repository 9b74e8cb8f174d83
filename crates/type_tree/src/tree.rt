ghost use Rattle.std.specs.Prelude.{◌≡◌};
ghost use Rattle.type_tree.specs.TypeTrees.{container_kind};

use crate::path::SchemaPath;
use open_types::{Head, ListHead, ThroughHead};
use texts::Span;

/// What the values of a type are: those of a built-in name, of anything else, of a tuple, or any value.
#[derive(Clone, Copy, Debug, PartialEq, Eq)]
pub enum ValueType {
    Primitive,
    Object,
    Tuple,
    Value,
}

/// The kind of a container.
#[derive(Clone, Copy, Debug, PartialEq, Eq)]
pub enum GenericType {
    Vec,
    LinkedList,
    Set,
    SmallVec,
    Map,
    Option,
    Cow,
    Box,
    RefCell,
    Arc,
    Rc,
}

impl GenericType {
    /// The kind of the container.
    pub(crate) fn of(head: Head) -> GenericType
        ensures { result ≡ container_kind head }
    {
        match head {
            Head::List(ListHead::Vec) | Head::List(ListHead::Array) => GenericType::Vec,
            Head::List(ListHead::LinkedList) => GenericType::LinkedList,
            Head::List(ListHead::SmallVec) => GenericType::SmallVec,
            Head::Set(_) => GenericType::Set,
            Head::Map(_) => GenericType::Map,
            Head::Option => GenericType::Option,
            Head::Through(ThroughHead::Cow) => GenericType::Cow,
            Head::Through(ThroughHead::Box) => GenericType::Box,
            Head::Through(ThroughHead::RefCell) => GenericType::RefCell,
            Head::Through(ThroughHead::Arc) => GenericType::Arc,
            Head::Through(ThroughHead::Rc) => GenericType::Rc,
        }
    }
}

/// A type, and the types that it is made of. Two trees are equal where their paths are by text, and their types and
/// children are; spans are left aside.
#[derive(Debug, Drop)]
#[derive_where(PartialEq, Eq)]
pub struct TypeTree<'t> {
    /// None for tuples and the unit type.
    pub path: Option<SchemaPath<'t>>,
    /// The span of the path, the round or the square brackets. None for the unit type.
    #[derive_where(skip(EqHashOrd))]
    pub span: Option<Span>,
    pub value_type: ValueType,
    /// The kind of the container, where the name is one's and an argument list stands; `Vec` for arrays and slices.
    pub generic_type: Option<GenericType>,
    /// The types of the argument list, the tuple or the square brackets. None where there are none.
    pub children: Option<Vec<TypeTree<'t>>>,
}
