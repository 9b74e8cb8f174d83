//! The bodies of declarations.

ghost use Rattle.std.specs.Prelude.{◌≡◌, IfOk, Some};
ghost use Rattle.diag.specs.Refusal.{Refuses};
ghost use Rattle.syntax.specs.Items.{body_view};
ghost use Rattle.syntax.specs.Named.{IsNamedBody};
ghost use Rattle.shapes.specs.Views.{body_view as resolved_view};
ghost use Rattle.derive_decl.specs.Resolved.{body_of, derived_body};
ghost use Rattle.derive_decl.specs.Faults.{IsFaultyBody, IsFaultyDeclaration};
ghost use Rattle.derive_decl.specs.Views.{attributes_of, items_of, known};

use crate::attributed::derivable;
use crate::enums::enum_body;
use crate::fields::form_of;
use crate::root::Root;
use diag::DeriveError;
use shapes::Body as Resolved;
use std::alloc::Global;
use syntax::Body;

/// The body of a declaration, of which each attribute is one that something is derived from.
pub(crate) fn body_of(alloc: Global, root: &Root<'_>, body: &Body) -> Result<Resolved, DeriveError>
    requires { IsNamedBody (body_view body.now) }
    ensures body { IfOk result
        (λ b. body_of (known root.now.container.now) (items_of root.now) (body_view body.now)
        ≡ Some (resolved_view b)) }
    ensures refused { Refuses result
        (IsFaultyBody (known root.now.container.now) (items_of root.now) root.now.ident.now
        (body_view body.now)) }
{
    match body {
        Body::Struct(fields) => Ok(Resolved::Fields(form_of(alloc, root, fields)?)),
        Body::Enum(variants) => enum_body(alloc, root, variants.as_slice()),
    }
}

/// What the body of a declaration is resolved to. It is refused as `resolve_declaration` is.
pub fn resolve_body(alloc: Global, root: &Root<'_>, body: &Body) -> Result<Resolved, DeriveError>
    requires { IsNamedBody (body_view body.now) }
    ensures body { IfOk result
        (λ b. derived_body (known root.now.container.now) (attributes_of root.now)
        (body_view body.now) ≡ Some (resolved_view b)) }
    ensures refused { Refuses result
        (IsFaultyDeclaration (known root.now.container.now) (attributes_of root.now)
        root.now.ident.now (body_view body.now)) }
{
    derivable(alloc, root.attributes, body)?;
    body_of(alloc, root, body)
}
