//! What written types stand for in a scope.

ghost use Rattle.std.specs.Prelude.{◌≡◌, IfOk, Some, length};
ghost use Rattle.diag.specs.Refusal.{Refuses};
ghost use Rattle.written_types.specs.Written.{written_view};
ghost use Rattle.open_types.specs.Open.{open_view};
ghost use Rattle.open_types.specs.Within.{IsOver};
ghost use Rattle.resolving.specs.Resolved.{resolved_type, Fault as AnyFault, IsFault, IsRefusedFor};
ghost use Rattle.scopes.specs.Scopes.{declared_in, parameters_in, known_in};

use crate::scope::Scope;
use configuration::Config;
use diag::DeriveError;
use open_types::OpenType;
use resolving::{KnownNames, resolve_type, resolved_are_over};
use std::alloc::Global;
use written_types::WrittenType;

/// What the written type stands for in the scope, as `resolving::resolve_type`, where names may stand for aliases of the
/// configuration.
pub fn resolve(
    alloc: Global,
    scope: &Scope<'_>,
    ty: &WrittenType,
    config: &Config,
) -> Result<OpenType, DeriveError>
    ensures resolved { IfOk result
        (λ t. resolved_type (known_in config.now scope.now) (written_view ty.now)
        ≡ Some (open_view t)) }
    ensures over { IfOk result (λ t. IsOver (length (declared_in scope.now))
        (known_in config.now scope.now).parameters_at (parameters_in scope.now) (open_view t)) }
    ensures refused { Refuses result (λ e. (fault : AnyFault)
        × IsFault (known_in config.now scope.now) (written_view ty.now) fault
        × IsRefusedFor fault e) }
{
    resolved_are_over();
    let names = KnownNames {
        aliases: config.alias_places(),
        alias_types: config.bare_types(),
        places: &scope.places.by_name,
        counts: scope.places.counts.as_slice(),
        own: scope.own,
        count: scope.count,
        parameters: &scope.parameters,
        constants: &scope.constants,
    };
    resolve_type(alloc, &names, ty)
}
