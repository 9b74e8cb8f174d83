//! What a tree says of its type.

ghost use Rattle.std.specs.Prelude.{◌≡◌, ◌↔◌, IsTrue, codes, option_map};
ghost use Rattle.type_tree.specs.TypeTrees.{tree_view, trees_view, schema_path_view, mentions, any_mentions, is_named, generic_of};

use crate::path::SchemaPath;
use crate::tree::{GenericType, TypeTree};

impl<'t> TypeTree<'t> {
    /// Whether the last identifier of the tree, or of one below it at any depth, is the name.
    pub fn is(&self, name: &str) -> bool
        ensures { result ≡ mentions name.now (tree_view self.now) }
    {
        mentions(self, name)
    }

    /// Whether `Object`, the free object, is named in the tree.
    pub fn is_object(&self) -> bool
        ensures { result ≡ mentions (codes "Object") (tree_view self.now) }
    {
        self.is("Object")
    }

    /// Whether `Value`, which is any value, is named in the tree.
    pub fn is_value(&self) -> bool
        ensures { result ≡ mentions (codes "Value") (tree_view self.now) }
    {
        self.is("Value")
    }

    /// Whether it is an `Option` with an argument list.
    pub fn is_option(&self) -> bool
        ensures { IsTrue result ↔ (generic_of (tree_view self.now) ≡ Some GenericType.Option) }
    {
        self.generic_type == Some(GenericType::Option)
    }

    /// Whether it is a map with an argument list.
    pub fn is_map(&self) -> bool
        ensures { IsTrue result ↔ (generic_of (tree_view self.now) ≡ Some GenericType.Map) }
    {
        self.generic_type == Some(GenericType::Map)
    }
}

#[cycle(mentions)]
fn mentions(tree: &TypeTree<'_>, name: &str) -> bool
    ensures { result ≡ mentions name.now (tree_view tree.now) }
{
    if is_named(&tree.path, name) {
        return true;
    }
    match &tree.children {
        None => false,
        Some(children) => any_mentions(children.as_slice(), name),
    }
}

#[cycle(mentions)]
fn any_mentions(trees: &[TypeTree<'_>], name: &str) -> bool
    ensures { result ≡ any_mentions name.now (trees_view trees.now) }
{
    for tree in trees {
        if mentions(tree, name) {
            return true;
        }
    }
    false
}

fn is_named(path: &Option<SchemaPath<'_>>, name: &str) -> bool
    ensures { result ≡ is_named name.now (option_map schema_path_view path.now) }
{
    match path {
        None => false,
        Some(path) => path.last_name() == name,
    }
}
