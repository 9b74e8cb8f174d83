ghost use Rattle.std.specs.Prelude.{◌≡◌, ◌↔◌, ◌⊎◌, IsTrue, codes};
ghost use Rattle.type_tree.specs.TypeTrees.{schema_path_view, last_name};
ghost use Rattle.type_tree.specs.Tests.{kind_named, is_leaf, is_whole, is_unsigned, is_number, word_of, type_word};

use crate::path::SchemaPath;
use leaves::{Leaf, LeafKind};
use schema_trees::{SchemaTypeInner, TypeWord};

/// The path of a type, whose last identifier says what the type's values are, and whether null is one of them.
#[derive(Clone, Copy, Debug)]
#[derive_where(PartialEq, Eq)]
pub struct SchemaType<'a> {
    pub path: SchemaPath<'a>,
    pub nullable: bool,
}

impl<'a> SchemaType<'a> {
    /// Whether it is any value.
    pub fn is_value(&self) -> bool
        ensures { IsTrue result ↔ (last_name (schema_path_view self.now.path) ≡ codes "Value") }
    {
        self.path.last_name() == "Value"
    }

    /// Whether the name is one of the eighteen built-in ones.
    pub fn is_primitive(&self) -> bool
        ensures { result ≡ is_leaf (kind_named (last_name (schema_path_view self.now.path))) }
    {
        self.kind().is_some()
    }

    /// Whether it is a whole number.
    pub fn is_integer(&self) -> bool
        ensures { result ≡ is_whole (kind_named (last_name (schema_path_view self.now.path))) }
    {
        matches!(self.kind(), Some(LeafKind::Signed | LeafKind::Unsigned))
    }

    /// Whether it is a whole number from 0 on.
    pub fn is_unsigned_integer(&self) -> bool
        ensures { result ≡ is_unsigned (kind_named (last_name (schema_path_view self.now.path))) }
    {
        matches!(self.kind(), Some(LeafKind::Unsigned))
    }

    /// Whether it is a whole number or a float.
    pub fn is_number(&self) -> bool
        ensures { result ≡ is_number (kind_named (last_name (schema_path_view self.now.path))) }
    {
        matches!(
            self.kind(),
            Some(LeafKind::Signed | LeafKind::Unsigned | LeafKind::Float)
        )
    }

    /// Whether it is `String` or `str`. A `char` is not.
    pub fn is_string(&self) -> bool
        ensures { let name = last_name (schema_path_view self.now.path) in IsTrue result
            ↔ ((name ≡ codes "String") ⊎ (name ≡ codes "str")) }
    {
        matches!(self.path.last_name(), "String" | "str")
    }

    /// Whether it is `u8`.
    pub fn is_byte(&self) -> bool
        ensures { IsTrue result ↔ (last_name (schema_path_view self.now.path) ≡ codes "u8") }
    {
        self.path.last_name() == "u8"
    }

    /// The word of `type`: `object` where the name is not a built-in one; with `null` where the type is nullable.
    pub fn type_word(&self) -> TypeWord
        ensures { result ≡ type_word self.now.nullable
            (word_of (kind_named (last_name (schema_path_view self.now.path)))) }
    {
        let word = word_of(self.kind());
        if self.nullable {
            return TypeWord::Nullable(word);
        }
        TypeWord::One(word)
    }

    /// What is read for the name, where it is a built-in one.
    fn kind(&self) -> Option<LeafKind>
        ensures { result ≡ kind_named (last_name (schema_path_view self.now.path)) }
    {
        match Leaf::named(self.path.last_name()) {
            None => None,
            Some(leaf) => Some(leaf.kind()),
        }
    }
}

fn word_of(kind: Option<LeafKind>) -> SchemaTypeInner
    ensures { result ≡ word_of kind }
{
    match kind {
        None => SchemaTypeInner::Object,
        Some(LeafKind::Text) => SchemaTypeInner::String,
        Some(LeafKind::Boolean) => SchemaTypeInner::Boolean,
        Some(LeafKind::Signed | LeafKind::Unsigned) => SchemaTypeInner::Integer,
        Some(LeafKind::Float) => SchemaTypeInner::Number,
    }
}
