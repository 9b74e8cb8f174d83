//! The schema of any body.

ghost use Rattle.std.specs.Prelude.{IfOk};
ghost use Rattle.diag.specs.Refusal.{Refuses};
ghost use Rattle.syntax.specs.Items.{body_view};
ghost use Rattle.syntax.specs.Named.{IsNamedBody};
ghost use Rattle.derive_decl.specs.Resolved.{derived_body};
ghost use Rattle.derive_decl.specs.Faults.{IsFaultyDeclaration};
ghost use Rattle.derive_decl.specs.Views.{attributes_of, known};
ghost use Rattle.declaration_schemas.specs.Made.{IsMadeOf};

use crate::body_schema::BodySchema;
use crate::kinds::AnyBody;
use derive_decl::{Root, resolve_body};
use diag::DeriveError;
use std::alloc::Global;
use syntax::Body;

/// The body of a declaration.
pub type SchemaVariant = BodySchema<AnyBody>;

impl BodySchema<AnyBody> {
    /// The body of the declaration, with its types resolved. It is refused as `Schema::resolve` is, but that no parameter is
    /// looked at.
    pub fn new(alloc: Global, body: &Body, root: &Root<'_>) -> Result<Self, DeriveError>
        requires { IsNamedBody (body_view body.now) }
        ensures made { IfOk result (IsMadeOf root.now
            (derived_body (known root.now.container.now) (attributes_of root.now)
            (body_view body.now))) }
        ensures refused { Refuses result
            (IsFaultyDeclaration (known root.now.container.now) (attributes_of root.now)
            root.now.ident.now (body_view body.now)) }
    {
        BodySchema::annotated(alloc, root, resolve_body(alloc, root, body)?)
    }
}
