//! The rows of names.

ghost use Rattle.std.specs.Prelude.{◌≡◌, [], ◌∷◌, ◌++◌, List as Items, map, IfOk, OnOk};
ghost use Rattle.std.specs.BTreeMap.{keys};
ghost use Rattle.std.specs.List.Sorted.{IsStrictlySortedBy};
ghost use Rattle.diag.specs.Refusal.{IsErrorFor, IsRefusal, Refuses, RefusesNone};
ghost use Rattle.texts.specs.Lists.{Somewhere};
ghost use Rattle.syntax.specs.Items.{declarations_view};
ghost use Rattle.serde_names.specs.Asked.{asked_of};
ghost use Rattle.renaming.specs.Refusals.{nameless_message, IsNameless, HaveNoRows};
ghost use Rattle.renaming.specs.Law.{MissNoRow};
ghost use Rattle.renaming.specs.Rows.{key_cmp, row_with, AreRowsOf, IsTableOf};
ghost use Rattle.serde_names.specs.declared.asked.Asked.{Asked as AnyAsked};

use crate::ask::asked_names;
use crate::by_rule::renamed;
use crate::law::rows_suffice;
use crate::row_key::RowKey;
use diag::{DeriveError, Kind, RenameRow, rules_have_own_names};
use serde_names::Asked;
use std::alloc::{AllocError, Global};
use std::collections::BTreeMap;
use syntax::Declarations;
use texts::{List, Text};

/// What names become, under what their rows are for.
type Table = BTreeMap<RowKey, Text>;

/// The refusal of an identifier of which serde makes no name.
fn nameless(alloc: Global, asked: &Asked) -> Result<DeriveError, AllocError>
    ensures { IfOk result (IsErrorFor (IsRefusal Kind.MissingRow asked.now.ident.span
        (nameless_message asked.now.rule asked.now.ident.text))) }
{
    let ident = &asked.ident;
    let message = format!(in alloc;
        "serde has no {} name for {}",
        asked.rule.name(),
        ident.text.as_str()
    )?;
    let kind = Kind::MissingRow;
    Ok(DeriveError::refusal(alloc, kind, ident.span, message.as_str()))
}

/// Puts what serde makes of the name under what its row is for.
fn put_name(alloc: Global, table: &mut Table, asked: &Asked) -> Result<(), DeriveError>
    ensures put { OnOk result ((before : Items AnyAsked) → IsTableOf before table.old
        → IsTableOf (before ++ asked.now ∷ []) table.new) }
    ensures refused { Refuses result (IsNameless asked.now) }
{
    let from = &asked.ident.text;
    let Some(to) = renamed(alloc, asked.rule, asked.place, from.as_str())? else {
        return Err(nameless(alloc, asked)?);
    };
    let key = RowKey {
        rule: asked.rule,
        place: asked.place,
        from: from.copy(alloc)?,
    };
    rules_have_own_names();
    match table.insert(key, to) {
        Ok(_) => Ok(()),
        Err(_) => Err(DeriveError::Memory),
    }
}

/// What serde makes of each of the names, under what its row is for.
fn table_of(alloc: Global, names: &[Asked]) -> Result<Table, DeriveError>
    ensures table { IfOk result (IsTableOf names.now) }
    ensures refused { Refuses result (λ e. Somewhere (λ a. IsNameless a e) names.now) }
{
    let mut table = BTreeMap::new(alloc);
    for asked in names {
        put_name(alloc, &mut table, asked)?;
    }
    Ok(table)
}

/// The rows of the table, in its order.
fn rows_in(alloc: Global, table: Table) -> Result<List<RenameRow>, AllocError>
    ensures rows { IfOk result (λ rows. rows ≡ map (λ e. row_with e.0 e.1) table.entries) }
    ensures ordered { IfOk result (λ _. IsStrictlySortedBy key_cmp (keys table)) }
{
    let mut rows = List::new(alloc);
    for (key, to) in table {
        let RowKey { rule, place, from } = key;
        rows.push(RenameRow {
            rule,
            place,
            from,
            to,
        })?;
    }
    Ok(rows)
}

/// The rows of the names, by the names of their rules, then of their places, then by the names that they are for, each once.
/// A name of which serde makes none is refused with the kind `MissingRow`, at its identifier.
pub fn rows_of_names(alloc: Global, names: &[Asked]) -> Result<List<RenameRow>, DeriveError>
    ensures rows { IfOk result (AreRowsOf names.now) }
    ensures faultless { IfOk result
        (λ _. RefusesNone (λ e. Somewhere (λ a. IsNameless a e) names.now)) }
    ensures refused { Refuses result (λ e. Somewhere (λ a. IsNameless a e) names.now) }
{
    rules_have_own_names();
    let table = table_of(alloc, names)?;
    Ok(rows_in(alloc, table)?)
}

/// The rows that a derivation of the declarations looks up, in the order of `rows_of_names`.
///
/// A refusal is of kind `SerdeTag` or `BadValue`, for serde's attributes that say the rules, as `asked_names` says; else of
/// kind `MissingRow`, at an identifier of which serde makes no name by its rule.
pub fn rows_of(alloc: Global, declarations: &Declarations) -> Result<List<RenameRow>, DeriveError>
    ensures rows { IfOk result (AreRowsOf (asked_of (declarations_view declarations.now))) }
    ensures none_missing { IfOk result (MissNoRow (declarations_view declarations.now)) }
    ensures faultless { IfOk result
        (λ _. RefusesNone (HaveNoRows (declarations_view declarations.now))) }
    ensures refused { Refuses result (HaveNoRows (declarations_view declarations.now)) }
{
    let names = asked_names(alloc, declarations)?;
    rows_suffice();
    rows_of_names(alloc, names.as_slice())
}
