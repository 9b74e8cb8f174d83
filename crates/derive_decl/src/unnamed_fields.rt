//! The form of unnamed fields.

ghost use Rattle.std.specs.Prelude.{◌≡◌, map, IfOk, Some};
ghost use Rattle.diag.specs.Refusal.{IsErrorFor, IsRefusal, Refuses};
ghost use Rattle.texts.specs.Lists.{Somewhere};
ghost use Rattle.open_types.specs.Open.{open_view};
ghost use Rattle.resolving.specs.Resolved.{resolved_type};
ghost use Rattle.syntax.specs.Items.{field_view, unnamed};
ghost use Rattle.shapes.specs.Views.{form_view};
ghost use Rattle.derive_decl.specs.Resolved.{all_of, form_of};
ghost use Rattle.derive_decl.specs.Faults.{IsFaultyType, AreFaultyTypes, fieldless_message};
ghost use Rattle.derive_decl.specs.Views.{items_of, known};

use crate::root::Root;
use diag::{DeriveError, Kind};
use open_types::OpenType;
use scopes::{Container, resolve};
use shapes::Form;
use std::alloc::Global;
use syntax::Field;
use texts::{List, Span};

/// The refusal of a form without a field.
fn fieldless(alloc: Global, span: Span) -> DeriveError
    ensures { IsErrorFor (IsRefusal Kind.Arity span fieldless_message) result }
{
    DeriveError::refusal(alloc, Kind::Arity, span, "a tuple form without a field")
}

/// The types of the fields, resolved.
fn resolve_types(
    alloc: Global,
    container: &Container<'_>,
    fields: &[Field],
) -> Result<List<OpenType>, DeriveError>
    ensures types { IfOk result
        (λ ts. all_of (λ f. resolved_type (known container.now).known f.ty)
        (map field_view fields.now) ≡ Some (map open_view ts)) }
    ensures refused { Refuses result
        (λ e. Somewhere (λ f. IsFaultyType (known container.now) f e) (map field_view fields.now)) }
{
    let mut types = List::new(alloc);
    for field in fields {
        types.push(resolve(alloc, container.scope, &field.ty, container.config)?)?;
    }
    Ok(types)
}

/// The form of these fields, of which none has a name. Serde's attributes of the root are not looked at.
///
/// A refusal is of kind `UnknownType`, `Arity`, `BadArgument` or `TypeSize`, for the type of a field; or `Arity`, at the name
/// of the root, where there is no field.
pub fn unnamed_form(alloc: Global, root: &Root<'_>, fields: &[Field]) -> Result<Form, DeriveError>
    ensures form { IfOk result
        (λ form. form_of (known root.now.container.now) (items_of root.now)
        (unnamed (map field_view fields.now)) ≡ Some (form_view form)) }
    ensures refused { Refuses result
        (AreFaultyTypes (known root.now.container.now) root.now.ident.now
        (map field_view fields.now)) }
{
    if fields.is_empty() {
        return Err(fieldless(alloc, root.ident.span));
    }
    Ok(Form::Unnamed(resolve_types(alloc, root.container, fields)?))
}
