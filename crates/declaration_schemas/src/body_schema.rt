//! The schema of the body of a declaration.

ghost use Rattle.std.specs.Prelude.{◌≡◌, IfOk, IfErr};
ghost use Rattle.derive_decl.specs.Resolved.{annotations_of};
ghost use Rattle.derive_decl.specs.Views.{attributes_of};

use component::Term;
use derive_decl::{Root, annotations_of};
use diag::DeriveError;
use place_schemas::ToTerm;
use shapes::{Annotations, Body};
use std::alloc::Global;
use std::marker::PhantomData;
use terms::body_term;

/// The body of a declaration, and what is said of the declaration. `Of` says what the body was made as.
#[derive(Debug, Drop)]
pub struct BodySchema<Of> {
    pub annotations: Annotations,
    pub body: Body,
    of: PhantomData<Of>,
}

impl<Of> BodySchema<Of> {
    /// The body, and what the attributes of the root say.
    pub(crate) fn annotated(
        alloc: Global,
        root: &Root<'_>,
        body: Body,
    ) -> Result<BodySchema<Of>, DeriveError>
        ensures annotations { IfOk result
            (λ s. s.annotations ≡ annotations_of (attributes_of root.now)) }
        ensures body { IfOk result (λ s. s.body ≡ body) }
        ensures refused { IfErr result (λ e. e ≡ DeriveError.Memory) }
    {
        Ok(BodySchema {
            annotations: annotations_of(alloc, root.attributes)?,
            body,
            of: PhantomData,
        })
    }
}

impl<Of> ToTerm for BodySchema<Of> {
    ghost use Rattle.std.specs.Prelude.{◌≡◌};
    ghost use Rattle.shapes.specs.Views.{body_view};
    ghost use Rattle.terms.specs.Terms.{body_term};

    ghost has_term = { λ s t. t ≡ body_term s.annotations (body_view s.body) };

    fn to_term(&self, alloc: Global) -> Result<Term, DeriveError> {
        Ok(body_term(alloc, &self.annotations, &self.body)?)
    }
}
