//! Serde's rows behind those of a configuration.

ghost use Rattle.std.specs.Prelude.{◌≡◌, List as AnyList, OnOk};
ghost use Rattle.configuration.specs.Configuration.{with_rows};
ghost use Rattle.diag.specs.declared.rename_row.RenameRow.{RenameRow as AnyRow};
ghost use Rattle.renaming.specs.Rows.{AreRowsOf};
ghost use Rattle.serde_names.specs.Asked.{asked_of};
ghost use Rattle.syntax.specs.Items.{declarations_view};

use configuration::Config;
use diag::RenameRow;
use renaming::rows_of;
use std::alloc::{AllocError, Global};
use syntax::Declarations;

/// Puts copies of the rows behind those of the configuration.
fn push_rows(alloc: Global, config: &mut Config, rows: &[RenameRow]) -> Result<(), AllocError>
    ensures { OnOk result (config.new ≡ with_rows config.old rows.now) }
{
    let mut rest = rows;
    'rows: while let [first, after @ ..] = rest {
        config.push_row(RenameRow {
            rule: first.rule,
            place: first.place,
            from: first.from.copy(alloc)?,
            to: first.to.copy(alloc)?,
        })?;
        rest = after;
    }
    Ok(())
}

/// Puts the rows of the names in the declarations, each of which has one, behind those of the configuration.
pub(crate) fn push_rows_of(
    alloc: Global,
    config: &mut Config,
    declarations: &Declarations,
) -> Result<(), AllocError>
    ensures { OnOk result ((rows : AnyList AnyRow)
        × AreRowsOf (asked_of (declarations_view declarations.now)) rows
        × (config.new ≡ with_rows config.old rows)) }
{
    // The names have rows, so that only memory can be wanted.
    let Ok(rows) = rows_of(alloc, declarations) else {
        return Err(AllocError);
    };
    push_rows(alloc, config, rows.as_slice())?;
    Ok(())
}
