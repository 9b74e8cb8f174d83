ghost use Rattle.std.specs.Prelude.{◌≡◌};
ghost use Rattle.open_types.specs.Heads.{list_name, set_name, map_name, through_name};

use leaves::Leaf;
use texts::List;

/// The names of lists. An array or slice has `Array`.
#[derive(Clone, Copy, Debug, PartialEq, Eq)]
pub enum ListHead {
    Vec,
    LinkedList,
    SmallVec,
    Array,
}

impl ListHead {
    /// The name. That of an array or slice is `Array`.
    pub fn name(self) -> &'static str
        ensures { result.now ≡ list_name self }
    {
        match self {
            ListHead::Vec => "Vec",
            ListHead::LinkedList => "LinkedList",
            ListHead::SmallVec => "SmallVec",
            ListHead::Array => "Array",
        }
    }
}

/// The names of sets.
#[derive(Clone, Copy, Debug, PartialEq, Eq)]
pub enum SetHead {
    BTreeSet,
    HashSet,
}

impl SetHead {
    pub fn name(self) -> &'static str
        ensures { result.now ≡ set_name self }
    {
        match self {
            SetHead::BTreeSet => "BTreeSet",
            SetHead::HashSet => "HashSet",
        }
    }
}

/// The names of maps.
#[derive(Clone, Copy, Debug, PartialEq, Eq)]
pub enum MapHead {
    HashMap,
    BTreeMap,
    Map,
    IndexMap,
}

impl MapHead {
    pub fn name(self) -> &'static str
        ensures { result.now ≡ map_name self }
    {
        match self {
            MapHead::HashMap => "HashMap",
            MapHead::BTreeMap => "BTreeMap",
            MapHead::Map => "Map",
            MapHead::IndexMap => "IndexMap",
        }
    }
}

/// The names of types that are read as what they hold.
#[derive(Clone, Copy, Debug, PartialEq, Eq)]
pub enum ThroughHead {
    Cow,
    Box,
    RefCell,
    Arc,
    Rc,
}

impl ThroughHead {
    pub fn name(self) -> &'static str
        ensures { result.now ≡ through_name self }
    {
        match self {
            ThroughHead::Cow => "Cow",
            ThroughHead::Box => "Box",
            ThroughHead::RefCell => "RefCell",
            ThroughHead::Arc => "Arc",
            ThroughHead::Rc => "Rc",
        }
    }
}

/// What a written type stands for, over the parameters of the declaration in which it is written.
#[derive(Debug, Drop)]
pub enum OpenType {
    /// A built-in name.
    Leaf(Leaf),
    /// Any JSON value.
    AnyValue,
    /// Any JSON object.
    FreeObject,
    /// The empty tuple.
    Unit,
    Tuple(List<OpenType>),
    Items(ListHead, Box<OpenType>),
    Set(SetHead, Box<OpenType>),
    /// The types of keys and of values.
    Map(MapHead, Box<OpenType>, Box<OpenType>),
    Option(Box<OpenType>),
    /// A type that is read as what it holds.
    Through(ThroughHead, Box<OpenType>),
    /// The parameter of the declaration at this place, from 0 on.
    Param(usize),
    /// The declaration at this place of the source, from 0 on, with its arguments.
    Named(usize, List<OpenType>),
}
