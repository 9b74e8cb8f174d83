ghost use Rattle.std.specs.Prelude.{◌≡◌, option_map};
ghost use Rattle.leaves.specs.Leaves.{leaf_of};
ghost use Rattle.type_tree.specs.TypeTrees.{schema_path_view, last_name};

use crate::path::SchemaPath;
use leaves::Leaf;

/// A type that is one of the eighteen built-in ones.
#[derive(Clone, Copy, Debug, PartialEq, Eq)]
pub struct PrimitiveType {
    pub ty: Leaf,
}

impl PrimitiveType {
    /// The built-in type of the path's last identifier; None where that names none.
    pub fn new(path: &SchemaPath<'_>) -> Option<PrimitiveType>
        ensures { option_map (λ found. found.ty) result
            ≡ leaf_of (last_name (schema_path_view path.now)) }
    {
        match Leaf::named(path.last_name()) {
            None => None,
            Some(ty) => Some(PrimitiveType { ty }),
        }
    }
}
