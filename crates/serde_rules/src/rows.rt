//! What fields and variants become by rows of a rename table.

ghost use Rattle.std.specs.Prelude.{◌≡◌, option_map};
ghost use Rattle.diag.specs.RenameRows.{row_to};
ghost use Rattle.diag.specs.declared.rename_row.RenamePlace.{RenamePlace};
ghost use Rattle.diag.specs.declared.rename_row.RenamePlace.TheVariants.{Field, Variant};

use diag::{RenameRule, RenameTable};
use thiserror::Error;

/// A rename rule is needed, and the table has no row for it.
#[derive(Clone, Copy, Debug, PartialEq, Eq, Error)]
#[error("no row of the rename table")]
pub struct NoRow;

/// What is renamed by rules: fields or variants.
pub trait Rename {
    ghost place: { RenamePlace };

    /// What the name becomes by the rule, which is `None` where no row says so.
    fn rename<'t>(rule: &RenameRule, table: &'t RenameTable, value: &str) -> Option<&'t str>
        ensures { option_map (λ to. to.now) result ≡ row_to rule.now place value.now table.now };
}

/// The variants of an enum.
#[derive(Clone, Copy, Debug)]
pub struct VariantRename;

/// The fields of a struct or of a variant.
#[derive(Clone, Copy, Debug)]
pub struct FieldRename;

impl Rename for VariantRename {
    ghost place = { Variant };

    fn rename<'t>(rule: &RenameRule, table: &'t RenameTable, value: &str) -> Option<&'t str> {
        rule.rename_variant(table, value)
    }
}

impl Rename for FieldRename {
    ghost place = { Field };

    fn rename<'t>(rule: &RenameRule, table: &'t RenameTable, value: &str) -> Option<&'t str> {
        rule.rename(table, value)
    }
}
