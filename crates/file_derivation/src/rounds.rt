//! What is left where what is refused is left out, by rounds.

ghost use Rattle.std.specs.Prelude.{◌≡◌, ◌≢◌, ◌++◌, [], List as AnyList, length, map, MatchBool, IfOk};
ghost use Rattle.diag.specs.Refusal.{RefusesNone};
ghost use Rattle.renaming.specs.Refusals.{HaveNoRows};
ghost use Rattle.syntax.specs.Items.{declarations_view};
ghost use Rattle.syntax.specs.Named.{AreNamed};
ghost use Rattle.gathering.specs.Reading.{AreRead};
ghost use Rattle.prepare.specs.declared.file_items.FileItem.{FileItem as AnyItem};
ghost use Rattle.telling.specs.declared.told.Told.{Told as AnyTold};
ghost use Rattle.file_derivation.specs.Faults.{AreFaults};
ghost use Rattle.file_derivation.specs.Helps.{origin_of};
ghost use Rattle.file_derivation.specs.LeftOut.{faulty_names};
ghost use Rattle.file_derivation.specs.Rounds.{CanBeRead, LeavesTexts, LeavesFaults};

use crate::judged::{Judged, Verdict, judge_declarations, judge_texts};
use crate::left_out::leave_out;
use configuration::Config;
use gathering::{Reading, one_reading_of_items, read_items};
use prepare::FileItem;
use selecting::Selection;
use std::alloc::{AllocError, Global};
use telling::Told;
use texts::{List, Text};

/// The items that are left where those that cannot be read are left out, and what needs them. Of these is told why.
pub(crate) fn leave_texts<'i>(
    alloc: Global,
    names: &[Text],
    items: &[&'i FileItem],
    lines: &mut List<Told>,
) -> Result<List<&'i FileItem>, AllocError>
    ensures leaves { IfOk result (λ kept. (told : AnyList AnyTold)
        × LeavesTexts names.now (map (λ i. i.now) items.now) told (map (λ i. i.now) kept)
        × (lines.new ≡ lines.old ++ told)) }
    ensures readable { IfOk result (λ kept. CanBeRead (map (λ i. i.now) kept)) }
{
    let judged = judge_texts(alloc, names, items)?;
    Ok(leave_out(alloc, names, items, judged.as_slice(), lines)?)
}

/// What the items read as, each of which can be read.
pub(crate) fn read_whole<'i>(
    alloc: Global,
    names: &[Text],
    items: &[&'i FileItem],
) -> Result<Reading<'i>, AllocError>
    requires readable { CanBeRead (map (λ i. i.now) items.now) }
    ensures read { IfOk result (λ r. AreRead names.now (map (λ i. i.now) items.now)
        (map (λ i. i.now) r.from) (declarations_view r.declarations) []) }
    ensures named { IfOk result (λ r. AreNamed (declarations_view r.declarations)) }
    ensures rows { IfOk result (λ r. RefusesNone (HaveNoRows (declarations_view r.declarations))) }
{
    one_reading_of_items();
    Ok(read_items(alloc, names, items)?)
}

/// Whether one of the items is at fault.
fn has_fault(judged: &[Judged<'_>]) -> bool
    ensures { MatchBool result (faulty_names judged.now ≢ []) (faulty_names judged.now ≡ []) }
{
    let mut rest = judged;
    'judged: while let [first, after @ ..] = rest {
        if let Verdict::Fault(_) = first.verdict {
            return true;
        }
        rest = after;
    }
    false
}

/// What is left of the items, which are read so, where by rounds what is at fault is left out, and what needs it. Of this is
/// told why.
pub(crate) fn leave_faults<'i>(
    alloc: Global,
    names: &[Text],
    selection: &Selection,
    config: &Config,
    items: List<&'i FileItem>,
    reading: Reading<'i>,
    lines: &mut List<Told>,
) -> Result<Reading<'i>, AllocError>
    requires read { AreRead names.now (map (λ i. i.now) items) (map (λ i. i.now) reading.from)
        (declarations_view reading.declarations) [] }
    requires named { AreNamed (declarations_view reading.declarations) }
    ensures leaves { IfOk result (λ r. (told : AnyList AnyTold) × (last : AnyList AnyItem)
        × LeavesFaults selection.now config.now names.now (map (λ i. i.now) items.entry) told last
        × AreRead names.now last (map (λ i. i.now) r.from) (declarations_view r.declarations) []
        × (lines.new ≡ lines.old ++ told)) }
    ensures faultless { IfOk result (λ r. AreFaults config.now (declarations_view r.declarations)
        (origin_of names.now selection.now (map (λ i. i.now) r.from))
        (length (declarations_view r.declarations)) []) }
    ensures named { IfOk result (λ r. AreNamed (declarations_view r.declarations)) }
{
    let excluded = selection.exclude.as_slice();
    let mut left = items;
    let mut reading = reading;
    'rounds: loop {
        let from = reading.from.as_slice();
        let judged = judge_declarations(
            alloc,
            names,
            excluded,
            from,
            &reading.declarations,
            config,
        )?;
        if !has_fault(judged.as_slice()) {
            return Ok(reading);
        }
        left = leave_out(alloc, names, left.as_slice(), judged.as_slice(), lines)?;
        reading = read_whole(alloc, names, left.as_slice())?;
    }
}
