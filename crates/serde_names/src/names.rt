//! The names of identifiers in JSON.

ghost use Rattle.std.specs.Prelude.{◌≡◌, option_map, IfOk, Some};
ghost use Rattle.diag.specs.Refusal.{IsErrorFor, IsRefusal, Refuses};
ghost use Rattle.serde_names.specs.Names.{name_by, named_at, row_message, IsUnwritten};

use diag::{DeriveError, Kind, RenameRule, RenameTable};
use serde_rules::names::rename;
use serde_rules::{Rename, SerdeValue};
use std::alloc::{AllocError, Global};
use syntax::Ident;
use texts::Text;

/// The refusal of an identifier that needs a row of the rule.
fn missing_row(alloc: Global, rule: &RenameRule, ident: &Ident) -> Result<DeriveError, AllocError>
    ensures { IfOk result
        (IsErrorFor
        (IsRefusal Kind.MissingRow ident.now.span (row_message rule.now ident.now.text))) }
{
    let message = format!(in alloc; "no row for {} of {}", rule.name(), ident.text.as_str())?;
    let kind = Kind::MissingRow;
    Ok(DeriveError::refusal(alloc, kind, ident.span, message.as_str()))
}

/// The name of an identifier in JSON, where the identifier stands: the name that `value` gives, or that the table's row of the
/// rule says, or that of the identifier. A row that is needed and missing is refused with the kind `MissingRow`, there.
pub fn written_ident<R: Rename>(
    alloc: Global,
    table: &RenameTable,
    rule: Option<RenameRule>,
    value: &SerdeValue,
    ident: &Ident,
) -> Result<Ident, DeriveError>
    ensures written { IfOk result (λ x. option_map (named_at ident.now)
        (name_by R.place table.now rule value.now ident.now) ≡ Some x) }
    ensures refused { Refuses result
        (IsUnwritten R.place table.now rule value.now ident.now) }
{
    let given = value.rename.as_ref().map(|text| text.as_str());
    let renamed = rename::<R>(table, ident.text.as_str(), given, rule.as_ref());
    match (renamed, rule) {
        (Ok(Some(name)), _) => Ok(Ident {
            text: Text::new(alloc, name)?,
            raw: ident.raw,
            span: ident.span,
        }),
        (Err(_), Some(rule)) => Err(missing_row(alloc, &rule, ident)?),
        (Ok(None), _) | (Err(_), None) => Ok(ident.copy(alloc)?),
    }
}
