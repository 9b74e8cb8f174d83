//! What fields and variants are called in JSON.

ghost use Rattle.std.specs.Prelude.{◌≡◌, option_map, IfOk, IfErr};
ghost use Rattle.serde_rules.specs.Names.{new_name};

use crate::rows::{NoRow, Rename};
use diag::{RenameRule, RenameTable};

/// The new name, or `Ok(None)` where the name stays: what is given, unless it is empty, or else what the rule says, where
/// there is one. `NoRow` where the rule is needed and has no row. It takes no memory.
pub fn rename<'t, R: Rename>(
    table: &'t RenameTable,
    value: &str,
    to: Option<&'t str>,
    container_rule: Option<&RenameRule>,
) -> Result<Option<&'t str>, NoRow>
    ensures named { IfOk result
        (λ name. new_name R.place table.now value.now (option_map (λ given. given.now) to.entry)
        (option_map (λ rule. rule.now) container_rule.entry)
        ≡ Ok (option_map (λ given. given.now) name)) }
    ensures no_row { IfErr result
        (λ e. new_name R.place table.now value.now (option_map (λ given. given.now) to.entry)
        (option_map (λ rule. rule.now) container_rule.entry) ≡ Err e) }
{
    if let Some(given) = to
        && !given.is_empty()
    {
        return Ok(Some(given));
    }
    let Some(rule) = container_rule else {
        return Ok(None);
    };
    match R::rename(rule, table, value) {
        Some(name) => Ok(Some(name)),
        None => Err(NoRow),
    }
}
