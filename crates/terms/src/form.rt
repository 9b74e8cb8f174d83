//! The schemas of fields, by their form.

ghost use Rattle.std.specs.Prelude.{◌≡◌, IfOk};
ghost use Rattle.component.specs.Leaves.{term_view};
ghost use Rattle.shapes.specs.Views.{form_view};
ghost use Rattle.terms.specs.Terms.{form_term};

use crate::named_fields::NamedFields;
use crate::unnamed_fields::unnamed_term;
use component::{Term, null_default};
use shapes::{Annotations, Form};
use std::alloc::{AllocError, Global};

/// The schema of fields, where this is said of the declaration or the variant. Where there are none, it has null as its
/// default, which does not say that it is deprecated.
pub fn form_term(alloc: Global, annotations: &Annotations, form: &Form) -> Result<Term, AllocError>
    ensures { IfOk result (λ t. term_view t ≡ form_term annotations.now (form_view form.now)) }
{
    match form {
        Form::Named {
            denies_others,
            beside,
            members,
        } => {
            let fields = NamedFields {
                denies_others: *denies_others,
                beside,
                members: members.as_slice(),
            };
            fields.term(alloc, annotations)
        }
        Form::Unnamed(types) => unnamed_term(alloc, annotations, types.as_slice()),
        Form::Unit => null_default(alloc, &annotations.description),
    }
}
