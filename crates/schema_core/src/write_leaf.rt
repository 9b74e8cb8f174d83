//! What is written at the leaves of schemas.

ghost use Rattle.std.specs.Prelude.{◌≡◌, OnOk, string_bytes};
ghost use Rattle.schema_trees.specs.Schema.{SchemaOf};
ghost use Rattle.schema_trees.specs.declared.tree.RefLeaf.{RefLeaf as Reference};
ghost use Rattle.schema_core.specs.declared.alternatives.Alternatives.{Alternatives as Keyword};
ghost use Rattle.schema_core.specs.Form.{form_by};
ghost use Rattle.schema_core.specs.Writes.{WritesValue};

use crate::alternatives::Alternatives;
use crate::schema_text::push_reference;
use schema_trees::RefLeaf;
use std::alloc::{AllocError, Global};

/// What is written at each leaf of a schema: a schema of a document, which need not be made as a tree.
pub trait WriteLeaf {
    /// A leaf.
    type Leaf;

    /// What leaves stand for.
    ghost Meaning: { Type 0 };

    /// What a leaf stands for.
    ghost meaning: { Self.Leaf → Meaning };

    /// The schema that is written at a leaf.
    ghost put: { Self → Meaning → SchemaOf Reference };

    /// What has to be known for leaves to be written.
    ghost ready: { Keyword → Self → Type 0 };

    /// Adds the text of the schema at the leaf, with alternatives under the keyword `by`.
    fn push_leaf(
        &self,
        alloc: Global,
        text: &mut String,
        leaf: &Self::Leaf,
        by: Alternatives,
    ) -> Result<(), AllocError>
        requires { ready by self.now }
        ensures { OnOk result (WritesValue (form_by by (put self.now (meaning leaf.now)))
            (string_bytes text.old) (string_bytes text.new)) };
}

/// References as they are.
pub(crate) struct References;

impl WriteLeaf for References {
    ghost use Rattle.schema_trees.specs.declared.tree.RefLeaf.{RefLeaf as AnyReference};
    ghost use Rattle.schema_trees.specs.Schema as tree;

    type Leaf = RefLeaf;

    ghost Meaning = { AnyReference };

    ghost meaning = { λ l. l };

    ghost put = { λ _ l. tree.leaf l };

    ghost ready = { λ _ _. Unit {0} };

    fn push_leaf(
        &self,
        alloc: Global,
        text: &mut String,
        leaf: &RefLeaf,
        _by: Alternatives,
    ) -> Result<(), AllocError> {
        push_reference(alloc, text, leaf)
    }
}
