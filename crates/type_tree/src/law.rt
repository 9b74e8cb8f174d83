//! Laws of comparisons.

ghost use Rattle.std.specs.Prelude.{◌≡◌};
ghost use Rattle.std.specs.Bool.{Decides};
ghost use Rattle.type_tree.specs.TypeTrees.{schema_path_view, tree_view};
ghost use Rattle.type_tree.specs.Spanless.{tree_path_without_spans, tree_without_spans};
ghost use Rattle.type_tree.specs.declared.known_format.KnownFormat.{KnownFormat as AnyFormat};
ghost use Rattle.type_tree.specs.declared.path.SchemaPath.{SchemaPath};
ghost use Rattle.type_tree.specs.declared.tree.TypeTree.{TypeTree};

use crate::known_format::KnownFormat;
use crate::path::SchemaPath;
use crate::tree::TypeTree;
use written_types::types_are_equal_by_text;

/// Paths of types and type trees are equal exactly where they are the same without their spans.
pub fn trees_are_equal_by_text()
    ensures path { (p q : SchemaPath)
        → Decides (⟦<SchemaPath<'static> as PartialEq>⟧.eq p q)
        (tree_path_without_spans (schema_path_view p)
        ≡ tree_path_without_spans (schema_path_view q)) }
    ensures tree { (t u : TypeTree)
        → Decides (⟦<TypeTree<'static> as PartialEq>⟧.eq t u) (tree_without_spans (tree_view t)
        ≡ tree_without_spans (tree_view u)) }
{
    types_are_equal_by_text();
}

/// Two formats are told equal exactly where they are.
pub fn formats_are_equal()
    ensures { (one other : AnyFormat) →
        Decides (⟦<KnownFormat as PartialEq>⟧.eq one other) (one ≡ other) }
{}
