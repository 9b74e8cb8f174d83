//! The form of fields.

ghost use Rattle.std.specs.Prelude.{◌≡◌, IfOk, Some};
ghost use Rattle.diag.specs.Refusal.{Refuses};
ghost use Rattle.syntax.specs.Items.{fields_view};
ghost use Rattle.syntax.specs.Named.{HaveNames};
ghost use Rattle.shapes.specs.Views.{form_view};
ghost use Rattle.derive_decl.specs.Resolved.{form_of};
ghost use Rattle.derive_decl.specs.Faults.{AreFaultyFields};
ghost use Rattle.derive_decl.specs.Views.{items_of, known};

use crate::named_fields::named_form;
use crate::root::Root;
use crate::unnamed_fields::unnamed_form;
use diag::DeriveError;
use shapes::Form;
use std::alloc::Global;
use syntax::Fields;

/// The form of these fields. It is refused as `named_form` and `unnamed_form` are.
pub(crate) fn form_of(alloc: Global, root: &Root<'_>, fields: &Fields) -> Result<Form, DeriveError>
    requires { HaveNames (fields_view fields.now) }
    ensures form { IfOk result
        (λ form. form_of (known root.now.container.now) (items_of root.now) (fields_view fields.now)
        ≡ Some (form_view form)) }
    ensures refused { Refuses result
        (AreFaultyFields (known root.now.container.now) (items_of root.now) root.now.ident.now
        (fields_view fields.now)) }
{
    match fields {
        Fields::Named(fields) => named_form(alloc, root, fields.as_slice()),
        Fields::Unnamed(fields) => unnamed_form(alloc, root, fields.as_slice()),
        Fields::Unit => Ok(Form::Unit),
    }
}
