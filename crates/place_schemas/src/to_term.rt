//! What has a schema over parameters and declarations.

ghost use Rattle.std.specs.Prelude.{IfOk};
ghost use Rattle.diag.specs.Refusal.{Refuses};
ghost use Rattle.diag.specs.declared.error.DeriveError.{DeriveError as AnyError};
ghost use Rattle.schema_trees.specs.Schema.{SchemaOf};
ghost use Rattle.component.specs.Leaves.{LeafOf, term_view};

use component::Term;
use diag::DeriveError;
use std::alloc::Global;

/// What has a term.
pub trait ToTerm {
    /// What is asked of the value: nothing, unless it says more.
    ghost is_ready: { Self → Type 0 } = { λ _. Unit {0} };

    /// What its term says.
    ghost has_term: { Self → SchemaOf LeafOf → Type 0 };

    /// Why it has none: for nothing but want of memory, unless it says more.
    ghost is_refused: { Self → AnyError → Type 0 } = { λ _ _. ⊥ };

    fn to_term(&self, alloc: Global) -> Result<Term, DeriveError>
        requires { is_ready self.now }
        ensures term { IfOk result (λ t. has_term self.now (term_view t)) }
        ensures refused { Refuses result (is_refused self.now) };
}
