ghost use Rattle.std.specs.Prelude.{◌≡◌, IfOk};
ghost use Rattle.component.specs.Leaves.{term_view};

use filling::{CopyLeaf, copied};
use open_types::OpenType;
use schema_trees::{Annotations, Tree};
use std::alloc::{AllocError, Global};

/// What a term leaves open.
#[derive(Drop)]
pub enum TermLeaf {
    /// The schema of the argument for the parameter at this place, from 0 on.
    Param(usize),
    /// A declaration with its arguments: a reference to its component with these annotations, or, where it is inline,
    /// the schema of its component, which carries none.
    Named {
        of: OpenType,
        inline: bool,
        annotations: Annotations,
    },
}

/// A schema over the parameters of a declaration and the declarations that are named.
pub type Term = Tree<TermLeaf>;

impl CopyLeaf for TermLeaf {
    ghost use Rattle.component.specs.Leaves.{LeafOf, leaf_view};

    ghost Meaning = { LeafOf };

    ghost meaning = { leaf_view };

    fn copy_leaf(&self, alloc: Global) -> Result<TermLeaf, AllocError> {
        Ok(match self {
            TermLeaf::Param(place) => TermLeaf::Param(*place),
            TermLeaf::Named {
                of,
                inline,
                annotations,
            } => TermLeaf::Named {
                of: of.copy(alloc)?,
                inline: *inline,
                annotations: annotations.copy(alloc)?,
            },
        })
    }
}

/// Another term that says the same.
pub fn copy_term(alloc: Global, term: &Term) -> Result<Term, AllocError>
    ensures { IfOk result (λ copy. term_view copy ≡ term_view term.now) }
{
    copied(alloc, term)
}
