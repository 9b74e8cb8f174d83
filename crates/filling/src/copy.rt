//! Copies of schemas.

ghost use Rattle.std.specs.Prelude.{◌≡◌, IfOk};
ghost use Rattle.schema_trees.specs.Schema.{tree_view, schema_view};

use crate::fill::{Fill, filled};
use schema_trees::{RefLeaf, Schema, Tree};
use std::alloc::{AllocError, Global};
use std::marker::PhantomData;

/// A leaf of which there are copies.
pub trait CopyLeaf: Drop {
    /// What leaves stand for.
    ghost Meaning: { Type 0 };

    /// What a leaf stands for.
    ghost meaning: { Self → Meaning };

    /// Another leaf that says the same.
    fn copy_leaf(&self, alloc: Global) -> Result<Self, AllocError>
        ensures { IfOk result (λ copy. meaning copy ≡ meaning self.now) };
}

/// The leaves of a schema as they are.
struct Copies<L> {
    of: PhantomData<L>,
}

impl<L: CopyLeaf> Fill for Copies<L> {
    ghost use Rattle.schema_trees.specs.Schema as tree;

    type Hole = L;

    type Leaf = L;

    ghost Origin = { L.Meaning };

    ghost origin = { L.meaning };

    ghost Meaning = { L.Meaning };

    ghost meaning = { L.meaning };

    ghost put = { λ _ l. tree.leaf l };

    fn fill(&self, alloc: Global, leaf: &L) -> Result<Tree<L>, AllocError> {
        Ok(Tree::Leaf(leaf.copy_leaf(alloc)?))
    }
}

/// Another schema that says the same.
pub fn copied<L: CopyLeaf>(alloc: Global, tree: &Tree<L>) -> Result<Tree<L>, AllocError>
    ensures { IfOk result (λ copy. tree_view L.meaning copy ≡ tree_view L.meaning tree.now) }
{
    filled(alloc, tree, &Copies { of: PhantomData })
}

impl CopyLeaf for RefLeaf {
    ghost use Rattle.schema_trees.specs.declared.tree.RefLeaf.{RefLeaf as Reference};

    ghost Meaning = { Reference };

    ghost meaning = { λ l. l };

    fn copy_leaf(&self, alloc: Global) -> Result<RefLeaf, AllocError> {
        Ok(RefLeaf {
            name: self.name.copy(alloc)?,
            annotations: self.annotations.copy(alloc)?,
        })
    }
}

/// Another schema of a document that says the same.
pub fn copy_schema(alloc: Global, schema: &Schema) -> Result<Schema, AllocError>
    ensures { IfOk result (λ copy. schema_view copy ≡ schema_view schema.now) }
{
    copied(alloc, schema)
}
