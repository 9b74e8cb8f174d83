//! The generic parameters of declarations, by their kinds.

ghost use Rattle.std.specs.Prelude.{◌≡◌, map, IfOk, MatchOption, Some, None};
ghost use Rattle.syntax.specs.Items.{parameter_view, declaration_view};
ghost use Rattle.scopes.specs.Parameters.{ident_of_kind, parameters_of, parameter_counts};

use std::alloc::{AllocError, Global};
use syntax::{Declaration, GenericParam, Ident};
use texts::List;

/// Which generic parameters are meant.
#[derive(Clone, Copy)]
pub enum ParameterKind {
    Types,
    Constants,
    TypesAndConstants,
}

/// The parameter's identifier, where it is of the kind.
fn ident_of_kind(kind: ParameterKind, param: &GenericParam) -> Option<&Ident>
    ensures { MatchOption result (ident_of_kind kind (parameter_view param.now) ≡ None)
        (λ x. ident_of_kind kind (parameter_view param.now) ≡ Some x.now) }
{
    match (kind, param) {
        (ParameterKind::Types, GenericParam::Ty(ident)) => Some(ident),
        (ParameterKind::Constants, GenericParam::Constant(ident)) => Some(ident),
        (ParameterKind::TypesAndConstants, GenericParam::Ty(ident)) => Some(ident),
        (ParameterKind::TypesAndConstants, GenericParam::Constant(ident)) => Some(ident),
        _ => None,
    }
}

/// The parameters of the kind, in order.
pub fn parameters_of(
    alloc: Global,
    kind: ParameterKind,
    params: &[GenericParam],
) -> Result<List<Ident>, AllocError>
    ensures { IfOk result
        (λ idents. idents ≡ parameters_of kind (map parameter_view params.now)) }
{
    let mut idents = List::new(alloc);
    for param in params {
        if let Some(ident) = ident_of_kind(kind, param) {
            idents.push(ident.copy(alloc)?)?;
        }
    }
    Ok(idents)
}

/// How many type parameters each of the declarations has.
pub(crate) fn parameter_counts(
    alloc: Global,
    declarations: &[Declaration],
) -> Result<List<usize>, AllocError>
    ensures { IfOk result
        (λ counts. counts ≡ parameter_counts (map declaration_view declarations.now)) }
{
    let mut counts = List::new(alloc);
    for declaration in declarations {
        let params = declaration.generics.params.as_slice();
        let types = parameters_of(alloc, ParameterKind::Types, params)?;
        counts.push(types.len())?;
    }
    Ok(counts)
}
