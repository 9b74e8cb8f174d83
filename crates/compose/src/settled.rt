//! What declarations, and a source, are resolved to, and their instances within the bounds.

ghost use Rattle.std.specs.Prelude.{map, IfOk};
ghost use Rattle.diag.specs.Refusal.{Refuses};
ghost use Rattle.syntax.specs.Items.{declarations_view};
ghost use Rattle.syntax.specs.Named.{AreNamed};
ghost use Rattle.shapes.specs.Views.{declaration_view};
ghost use Rattle.compose.specs.Faults.{AreRefused, IsRefused};
ghost use Rattle.compose.specs.Composed.{AreComposedOf, IsComposedOf};

use crate::sets::{TermSet, terms};
use crate::within::{Bounded, within_bounds};
use configuration::Config;
use diag::DeriveError;
use shapes::Declaration;
use std::alloc::Global;
use syntax::{Declarations, parse_declarations};
use texts::List;

/// What the declarations are resolved to, and their instances, where nothing is beyond its bound.
pub(crate) fn bounded_of(
    alloc: Global,
    declarations: Declarations,
    config: &Config,
) -> Result<(List<Declaration>, Bounded), DeriveError>
    requires { AreNamed (declarations_view declarations) }
    ensures composed { IfOk result (λ p. AreComposedOf config.now (declarations_view declarations)
        (map declaration_view p.0) p.1) }
    ensures refused { Refuses result (AreRefused config.now (declarations_view declarations)) }
{
    let terms = terms(alloc, &declarations, config)?;
    // The declarations are dropped before instances are found.
    drop(declarations);
    let TermSet { resolved, idents } = terms;
    let bounded = within_bounds(alloc, idents.as_slice(), resolved.as_slice(), config)?;
    Ok((resolved, bounded))
}

/// What the declarations of the source are resolved to, and their instances, where nothing is beyond its bound.
pub(crate) fn bounded_of_source(
    alloc: Global,
    source: &str,
    config: &Config,
) -> Result<(List<Declaration>, Bounded), DeriveError>
    ensures composed { IfOk result (λ p. IsComposedOf config.now source.now
        (map declaration_view p.0) p.1) }
    ensures refused { Refuses result (IsRefused config.now source.now) }
{
    let declarations = parse_declarations(alloc, source)?;
    syntax::read_fields_are_named();
    bounded_of(alloc, declarations, config)
}
