use crate::annotations::Annotations;
use crate::bound::Bound;
use crate::bounds::Bounds;
use crate::json_value::Json;
use texts::{List, Text};

/// A word of `type` (JSON Schema 2020-12, Validation, 6.1.1).
#[derive(Clone, Copy, Debug, PartialEq, Eq)]
pub enum SchemaTypeInner {
    Object,
    String,
    Integer,
    Number,
    Boolean,
    Array,
    Null,
}

/// What `type` says: nothing, one word, or one word and `null`.
#[derive(Clone, Copy, Debug, PartialEq, Eq)]
pub enum TypeWord {
    Any,
    One(SchemaTypeInner),
    Nullable(SchemaTypeInner),
}

/// A schema whose leaves are of any type: what a term, a closed schema and a schema of the document have in common.
#[cycle(tree)]
#[derive(Debug)]
pub enum Tree<L> {
    Object(Box<Object<L>>),
    Array(Box<Array<L>>),
    OneOf(Box<OneOfSchema<L>>),
    AllOf(Box<AllOfSchema<L>>),
    Leaf(L),
}

// by hand, so that a function that lets a tree go makes one call for it
impl<L: Drop> Drop for Tree<L> {
    #[cycle(tree)]
    fn drop(self) {
        match self {
            Tree::Object(_) => {}
            Tree::Array(_) => {}
            Tree::OneOf(_) => {}
            Tree::AllOf(_) => {}
            Tree::Leaf(_) => {}
        }
    }
}

/// A schema of one type, with the keywords that bind values of that type.
#[cycle(tree)]
#[derive(Debug, Drop)]
pub struct Object<L> {
    pub ty: TypeWord,
    /// The printed name of the format. It binds nothing.
    pub format: Option<Text>,
    /// The values that may stand; none may where the list is empty.
    pub enum_values: Option<List<Json>>,
    /// Names and their schemas; the names are distinct.
    pub properties: List<(Text, Tree<L>)>,
    /// The names that must be there.
    pub required: List<Text>,
    /// What the members that `properties` does not name are.
    pub additional: Additional<L>,
    /// What the names of the members are, as texts.
    pub property_names: Option<Tree<L>>,
    pub bounds: Bounds,
    pub annotations: Annotations,
}

/// What `additionalProperties` says: nothing, a truth value, or a schema.
#[cycle(tree)]
#[derive(Debug, Drop)]
pub enum Additional<L> {
    Absent,
    Truth(bool),
    Of(Tree<L>),
}

/// What `items` says: that there are no further elements, or their schema.
#[cycle(tree)]
#[derive(Debug, Drop)]
pub enum ArrayItems<L> {
    False,
    Each(Tree<L>),
}

/// Lists, and null where `nullable`.
#[cycle(tree)]
#[derive(Debug, Drop)]
pub struct Array<L> {
    pub nullable: bool,
    /// The elements after those that `prefix_items` speaks of.
    pub items: ArrayItems<L>,
    /// The schemas of the elements in front, by position.
    pub prefix_items: List<Tree<L>>,
    /// Whether no two elements are equal.
    pub unique: bool,
    pub max_items: Option<Bound>,
    pub min_items: Option<Bound>,
    pub annotations: Annotations,
}

/// What at least one of the schemas accepts.
#[cycle(tree)]
#[derive(Debug, Drop)]
pub struct OneOfSchema<L> {
    pub items: List<Tree<L>>,
    pub annotations: Annotations,
}

/// What each of the schemas accepts.
#[cycle(tree)]
#[derive(Debug, Drop)]
pub struct AllOfSchema<L> {
    pub items: List<Tree<L>>,
    pub annotations: Annotations,
}

/// A reference to the component of the name.
#[derive(Debug, Drop)]
pub struct RefLeaf {
    pub name: Text,
    pub annotations: Annotations,
}

/// A schema of a document: its leaves are references.
pub type Schema = Tree<RefLeaf>;
