//! Generic parameters that are given twice.

ghost use Rattle.std.specs.Prelude.{◌≡◌, map, IfOk, true};
ghost use Rattle.diag.specs.Refusal.{Refuses};
ghost use Rattle.syntax.specs.Items.{parameter_view, generics_view};
ghost use Rattle.scopes.specs.declared.parameters.ParameterKind.TheVariants as kinds;
ghost use Rattle.scopes.specs.Names.{texts, are_distinct, IsGivenTwice};
ghost use Rattle.scopes.specs.Parameters.{parameters_of};
ghost use Rattle.derive_decl.specs.Faults.{AreFaultyParameters};
ghost use Rattle.derive_decl.specs.Lifetimes.{unquoted, lifetimes_of, parameters_are_distinct};

use diag::DeriveError;
use scopes::{ParameterKind, parameters_of, places_of};
use std::alloc::{AllocError, Global};
use syntax::{GenericParam, Generics, Ident};
use texts::{List, Text};

/// The lifetime by its name, without its quote.
fn unquoted(alloc: Global, lifetime: &Ident) -> Result<Ident, AllocError>
    ensures { IfOk result (λ x. x ≡ unquoted lifetime.now) }
{
    let text = lifetime.text.as_str();
    let name = match text.strip_prefix("'") {
        Some(name) => name,
        None => text,
    };
    Ok(Ident {
        text: Text::new(alloc, name)?,
        raw: lifetime.raw,
        span: lifetime.span,
    })
}

/// The lifetimes among the parameters, by their names.
fn lifetimes_of(alloc: Global, params: &[GenericParam]) -> Result<List<Ident>, AllocError>
    ensures { IfOk result (λ names. names ≡ lifetimes_of (map parameter_view params.now)) }
{
    let mut names = List::new(alloc);
    for param in params {
        match param {
            GenericParam::Lifetime(lifetime) => names.push(unquoted(alloc, lifetime)?)?,
            GenericParam::Ty(_) => {}
            GenericParam::Constant(_) => {}
        }
    }
    Ok(names)
}

/// Refuses generics in which a lifetime is given twice, at the first that is.
fn distinct_lifetimes(alloc: Global, generics: &Generics) -> Result<(), DeriveError>
    ensures once { IfOk result
        (λ _. are_distinct (texts (lifetimes_of (generics_view generics.now))) ≡ true) }
    ensures refused { Refuses result
        (IsGivenTwice (lifetimes_of (generics_view generics.now))) }
{
    let names = lifetimes_of(alloc, generics.params.as_slice())?;
    let _places = places_of(alloc, names.as_slice())?;
    Ok(())
}

/// Refuses generics in which a name is given twice to types and constants, at the first that is.
fn distinct_names(alloc: Global, generics: &Generics) -> Result<(), DeriveError>
    ensures once { IfOk result (λ _. are_distinct
        (texts (parameters_of kinds.TypesAndConstants (generics_view generics.now))) ≡ true) }
    ensures refused { Refuses result
        (IsGivenTwice (parameters_of kinds.TypesAndConstants (generics_view generics.now))) }
{
    let kind = ParameterKind::TypesAndConstants;
    let names = parameters_of(alloc, kind, generics.params.as_slice())?;
    let _places = places_of(alloc, names.as_slice())?;
    Ok(())
}

/// Refuses generics in which a type or constant parameter has the name of one before it, or a lifetime has, at the first
/// that has. The kind is `DuplicateName`.
pub fn distinct_parameters(alloc: Global, generics: &Generics) -> Result<(), DeriveError>
    ensures once { IfOk result
        (λ _. parameters_are_distinct (generics_view generics.now) ≡ true) }
    ensures refused { Refuses result (AreFaultyParameters (generics_view generics.now)) }
{
    distinct_names(alloc, generics)?;
    distinct_lifetimes(alloc, generics)
}
