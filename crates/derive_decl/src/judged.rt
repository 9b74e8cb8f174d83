//! Single declarations among others, and why they may be refused.

ghost use Rattle.std.specs.Prelude.{◌≡◌, ◌≢◌, ◌<◌, length, Some, IfOk};
ghost use Rattle.diag.specs.Refusal.{IsRefusal, Refuses, RefusesNone};
ghost use Rattle.diag.specs.declared.kind.Kind.TheVariants.{DuplicateName};
ghost use Rattle.scopes.specs.Names.{duplicate_message, place_among};
ghost use Rattle.syntax.specs.Items.{declaration_view, declarations_view};
ghost use Rattle.syntax.specs.Named.{AreNamed, IsNamedBody};
ghost use Rattle.derive_decl.specs.Faults.{IsFaultyAt, IsFaultyItem};
ghost use Rattle.derive_decl.specs.Views.{known};

use crate::law::resolution_is_exact;
use crate::parameters::distinct_parameters;
use crate::root::Root;
use crate::whole::resolve_declaration;
use configuration::Config;
use diag::DeriveError;
use scopes::{Container, Places, Scope, duplicate_name};
use std::alloc::Global;
use syntax::{Declaration, Ident};

/// Refuses the identifier of the declaration at the place where a declaration of its name stands before it.
fn only_first(
    alloc: Global,
    places: &Places<'_>,
    ident: &Ident,
    at: usize,
) -> Result<(), DeriveError>
    ensures first { IfOk result (λ _. place_among (declarations_view places.now.declarations.now)
        ident.now.text ≡ Some at) }
    ensures refused { Refuses result
        (λ e. (place_among (declarations_view places.now.declarations.now) ident.now.text ≢ Some at)
        × IsRefusal DuplicateName ident.now.span (duplicate_message ident.now.text) e) }
{
    match places.place_of(ident) {
        Some(first) if first == at => Ok(()),
        _ => Err(duplicate_name(alloc, &ident.text, ident.span)?),
    }
}

/// Refuses the declaration that is at fault.
fn judge(
    alloc: Global,
    container: &Container<'_>,
    declaration: &Declaration,
) -> Result<(), DeriveError>
    requires { IsNamedBody (declaration_view declaration.now).body }
    ensures clear { IfOk result (λ _. RefusesNone
        (IsFaultyItem (known container.now) (declaration_view declaration.now))) }
    ensures refused { Refuses result
        (IsFaultyItem (known container.now) (declaration_view declaration.now)) }
{
    resolution_is_exact();
    distinct_parameters(alloc, &declaration.generics)?;
    let root = Root {
        ident: &declaration.ident,
        attributes: declaration.attrs.as_slice(),
        container,
    };
    resolve_declaration(alloc, &root, &declaration.body)?;
    Ok(())
}

/// Refuses the declaration at the place where it is at fault among the others: with the kind `DuplicateName`, at its name,
/// where one of that name stands before it; else where a generic parameter is given twice, or as `resolve_declaration` does.
pub fn judge_declaration(
    alloc: Global,
    places: &Places<'_>,
    config: &Config,
    at: usize,
) -> Result<(), DeriveError>
    requires named { AreNamed (declarations_view places.now.declarations.now) }
    requires within { at < length (declarations_view places.now.declarations.now) }
    ensures clear { IfOk result (λ _. RefusesNone
        (IsFaultyAt config.now (declarations_view places.now.declarations.now) at)) }
    ensures refused { Refuses result
        (IsFaultyAt config.now (declarations_view places.now.declarations.now) at) }
{
    let declaration = &places.declarations.items.as_slice()[at];
    only_first(alloc, places, &declaration.ident, at)?;
    let scope = Scope::new(alloc, places, at)?;
    let container = Container {
        scope: &scope,
        config,
    };
    judge(alloc, &container, declaration)
}
