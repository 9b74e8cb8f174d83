//! Which instances of declarations are not plain.

ghost use Rattle.std.specs.Prelude.{length, IfOk};
ghost use Rattle.diag.specs.Refusal.{Refuses};
ghost use Rattle.syntax.specs.Items.{declarations_view};
ghost use Rattle.syntax.specs.Named.{AreNamed};
ghost use Rattle.compose.specs.Faults.{AreRefused};
ghost use Rattle.compose.specs.Unplain.{AreUnplainOf, AreDeclaredIn};

use crate::sets::{instances, terms};
use configuration::Config;
use diag::DeriveError;
use plainness::{Unplain, unplain_instances};
use std::alloc::Global;
use syntax::Declarations;
use texts::List;

/// The instances that the declarations reach and that are not plain, each with its reason. Each field in braces has a name,
/// as it has in declarations that are read.
///
/// A refusal is as for `terms`; else it is as for `instances`.
pub fn unplain_of(
    alloc: Global,
    declarations: &Declarations,
    config: &Config,
) -> Result<List<Unplain>, DeriveError>
    requires { AreNamed (declarations_view declarations.now) }
    ensures unplain { IfOk result
        (AreUnplainOf config.now (declarations_view declarations.now)) }
    ensures declared { IfOk result
        (AreDeclaredIn (length (declarations_view declarations.now))) }
    ensures refused { Refuses result (AreRefused config.now (declarations_view declarations.now)) }
{
    instances::reachable_fit();
    let terms = terms(alloc, declarations, config)?;
    let set = instances(alloc, declarations, &terms, config)?;
    let resolved = terms.resolved.as_slice();
    Ok(unplain_instances(alloc, resolved, &set.reach, set.names.as_slice())?)
}
