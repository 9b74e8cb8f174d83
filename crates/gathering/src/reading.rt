//! Selected declarations, each read from its own text.

ghost use Rattle.std.specs.Prelude.{◌≡◌, ◌∷◌, ◌++◌, ◌⊎◌, List as AnyList, map, length, get_or, [], IfOk, OnOk, replicate};
ghost use Rattle.diag.specs.Refusal.{Refuses, RefusesNone};
ghost use Rattle.renaming.specs.Refusals.{HaveNoRows};
ghost use Rattle.syntax.specs.Items.{declarations_view};
ghost use Rattle.syntax.specs.Named.{AreNamed};
ghost use Rattle.prepare.specs.Blanks.{text_read};
ghost use Rattle.prepare.specs.declared.file_items.FileItem.{FileItem as AnyItem};
ghost use Rattle.gathering.specs.Reading.{IsReadAs, IsRefusedText, file_name, told_of, AreRead, HasRead};

use crate::fault::told_by;
use diag::{DeriveError, Diagnostics};
use prepare::{FileItem, with_blanks};
use renaming::rows_of;
use std::alloc::{AllocError, Global};
use syntax::{Declarations, parse_declarations, read_fields_are_named};
use telling::Told;
use texts::{List, Text};

/// What is read of declarations of files.
#[derive(Drop)]
pub struct Reading<'i> {
    pub declarations: Declarations,
    /// Of each declaration that from whose text it is read.
    pub from: List<&'i FileItem>,
    /// What is told of the others.
    pub faults: List<Told>,
}

/// What the text declares, where the names in it have rows.
fn declared_in(alloc: Global, text: &str) -> Result<Declarations, DeriveError>
    ensures read { IfOk result (λ ds. IsReadAs text.now (declarations_view ds)) }
    ensures refused { Refuses result (IsRefusedText text.now) }
{
    let declarations = parse_declarations(alloc, text)?;
    let _rows = rows_of(alloc, &declarations)?;
    Ok(declarations)
}

/// What the text of the declaration declares, as it is read: with blanks where it is not.
fn read_item(alloc: Global, item: &FileItem) -> Result<Declarations, DeriveError>
    ensures read { IfOk result (λ ds. IsReadAs (text_read item.now) (declarations_view ds)) }
    ensures refused { Refuses result (IsRefusedText (text_read item.now)) }
{
    let unread = item.unread.as_slice();
    if unread.is_empty() {
        return declared_in(alloc, item.text.as_str());
    }
    let text = with_blanks(alloc, unread, item.end, item.text.as_str())?;
    declared_in(alloc, text.as_str())
}

/// The name of the file of the number; of none that there is, the empty name.
pub fn file_name(names: &[Text], file: usize) -> &str
    ensures { result.now ≡ file_name names.now file }
{
    match names.get(file) {
        Some(name) => name.as_str(),
        None => "",
    }
}

/// Adds the item so many times.
fn push_times<'i>(
    from: &mut List<&'i FileItem>,
    item: &'i FileItem,
    times: usize,
) -> Result<(), AllocError>
    ensures { OnOk result (map (λ i. i.now) from.new
        ≡ map (λ i. i.now) from.old ++ replicate times item.now) }
{
    let mut left = times;
    'items: while left > 0 {
        from.push(item)?;
        left -= 1;
    }
    Ok(())
}

impl<'i> Reading<'i> {
    /// Adds what the text of the declaration declares, or what is told of it.
    fn add(&mut self, alloc: Global, names: &[Text], item: &'i FileItem) -> Result<(), AllocError>
        ensures { OnOk result ((items : AnyList AnyItem) → HasRead names.now items self.old
            → HasRead names.now (items ++ item.now ∷ []) self.new) }
    {
        match read_item(alloc, item) {
            Ok(declarations) => {
                read_fields_are_named();
                push_times(&mut self.from, item, declarations.items.len())?;
                self.declarations.items.append(declarations.items)
            }
            Err(DeriveError::Refused(refusal)) => {
                let name = file_name(names, item.file);
                let told = told_by(alloc, name, &item.place, item.text.as_str(), &refusal)?;
                self.faults.push(told)
            }
            Err(DeriveError::Memory) => Err(AllocError),
        }
    }
}

/// The declarations, each read from its own text, but for what is not read of it, and what is told of those whose text is
/// refused: it has no reading, or nests too deep, or a name in it is given by a rule by which serde makes none.
pub fn read_items<'i>(
    alloc: Global,
    names: &[Text],
    items: &[&'i FileItem],
) -> Result<Reading<'i>, AllocError>
    ensures read { IfOk result (λ r. AreRead names.now (map (λ i. i.now) items.now)
        (map (λ i. i.now) r.from) (declarations_view r.declarations) r.faults) }
    ensures named { IfOk result (λ r. AreNamed (declarations_view r.declarations)) }
    ensures rows { IfOk result (λ r. RefusesNone (HaveNoRows (declarations_view r.declarations))) }
{
    let mut reading = Reading {
        declarations: Declarations {
            items: List::new(alloc),
        },
        from: List::new(alloc),
        faults: List::new(alloc),
    };
    for item in items {
        reading.add(alloc, names, item)?;
    }
    Ok(reading)
}
