//! From what is selected of files to components, or to what is told.

ghost use Rattle.std.specs.Prelude.{◌≡◌, ◌≢◌, ◌<◌, ◌≤◌, [], ◌++◌, List as AnyList, length, map, true, false, MatchBool, IfOk, IfErr};
ghost use Rattle.closing.specs.Described.{Describes};
ghost use Rattle.compose.specs.Bounds.{collects_all};
ghost use Rattle.compose.specs.Faults.{AreDerived, AreRefused};
ghost use Rattle.configuration.specs.Aliases.{AreDeep};
ghost use Rattle.configuration.specs.Configuration.{with_rows};
ghost use Rattle.diag.specs.declared.rename_row.RenameRow.{RenameRow as AnyRow};
ghost use Rattle.diag.specs.Refusal.{Refuses};
ghost use Rattle.schema_core.specs.Document.{document_by};
ghost use Rattle.schema_core.specs.declared.alternatives.Alternatives.{Alternatives};
ghost use Rattle.syntax.specs.Items.{declarations_view};
ghost use Rattle.syntax.specs.Named.{AreNamed};
ghost use Rattle.gathering.specs.Files.{most_bytes};
ghost use Rattle.selecting.specs.Clashes.{clash_lines};
ghost use Rattle.selecting.specs.Elsewhere.{found_by};
ghost use Rattle.telling.specs.declared.told.Told.{Told as AnyTold};
ghost use Rattle.file_derivation.specs.Faults.{AreFaults};
ghost use Rattle.file_derivation.specs.Helps.{origin_of};
ghost use Rattle.file_derivation.specs.LeftOut.{told_of_file};
ghost use Rattle.file_derivation.specs.Warned.{has_some, told_nothing, AreAllWarned, AreFirst};
ghost use Rattle.file_derivation.specs.Outcomes.{bytes_of, AreLeft, DerivesSelected, RefusesSelected, AreFaultsOrBound, IfToldIs};

use crate::derive::{Refusal, alone};
use crate::elsewhere::with_elsewhere;
use crate::faults::faults_of;
use crate::left_out::told_of_files;
use crate::rounds::{leave_faults, leave_texts, read_whole};
use crate::rows::push_rows_of;
use crate::unplain::with_unplain;
use crate::warned::{Warnings, warned_of};
use compose::{Composition, composition_of};
use configuration::Config;
use diag::{DeriveError, Diagnostics};
use gathering::{FileImpl, Reading, one_reading_of_items, read_items, told_plainly, told_unplaced};
use prepare::{FileAlias, FileItem};
use selecting::{Elsewhere, Selected, Selection, clash_lines, told_deep};
use std::alloc::{AllocError, Global};
use syntax::Declarations;
use telling::Told;
use texts::{List, Text};

/// What is known of all files.
#[derive(Clone, Copy)]
pub(crate) struct Files<'f> {
    /// Their names.
    pub(crate) names: &'f [Text],
    /// The impls of serde's traits that are written by hand in them.
    pub(crate) impls: &'f [FileImpl],
    /// Which names mean, in one of them, what another has.
    pub(crate) elsewhere: &'f Elsewhere,
    /// What is told of those that are no files of Rust.
    pub(crate) faults: &'f [Told],
}

/// The most bytes of the declarations that are selected.
const MOST_BYTES: usize = 16_777_216;

/// Whether the texts of the items have more bytes than may be.
fn are_long(items: &[&FileItem]) -> bool
    ensures { MatchBool result (most_bytes < bytes_of (map (λ i. i.now) items.now))
        (bytes_of (map (λ i. i.now) items.now) ≤ most_bytes) }
{
    let mut left = MOST_BYTES;
    let mut rest = items;
    'items: while let [first, after @ ..] = rest {
        let bytes = first.text.as_str().len();
        if bytes > left {
            return true;
        }
        left -= bytes;
        rest = after;
    }
    false
}

/// Refuses declarations and aliases that are beyond a bound.
fn are_within(
    alloc: Global,
    names: &[Text],
    chosen: &[&FileItem],
    needed: &[&FileAlias],
    selection: &Selection,
    config: &Config,
) -> Result<(), Refusal>
    ensures shallow { IfOk result (λ _. ¬ (AreDeep config.now.aliases)) }
    ensures few { IfOk result (λ _. bytes_of (map (λ i. i.now) chosen.now) ≤ most_bytes) }
    ensures told { IfErr result (IfToldIs (RefusesSelected selection.now config.now names.now
        (map (λ i. i.now) chosen.now) (map (λ a. a.now) needed.now))) }
{
    if config.deep_aliases(alloc)? {
        return Err(alone(alloc, told_deep(alloc, names, needed)?));
    }
    if are_long(chosen) {
        let message = "the declarations are longer than 16777216 bytes";
        return Err(alone(alloc, told_plainly(alloc, "", "TooLong", message)?));
    }
    Ok(())
}

/// Refuses names that an alias and something else have.
fn are_distinct(
    alloc: Global,
    names: &[Text],
    declarations: &Declarations,
    needed: &[&FileAlias],
) -> Result<(), Refusal>
    ensures distinct { IfOk result (λ _. clash_lines names.now
        (declarations_view declarations.now) (map (λ a. a.now) needed.now) ≡ []) }
    ensures told { IfErr result (IfToldIs (λ told. (told ≢ []) × (told ≡ clash_lines names.now
        (declarations_view declarations.now) (map (λ a. a.now) needed.now)))) }
{
    let lines = clash_lines(alloc, names, declarations, needed)?;
    if lines.is_empty() {
        return Ok(());
    }
    Err(Refusal::Told(lines))
}

/// What is told where the declarations are refused, which are those that the items read as: of each its first fault, or else
/// of the bound.
fn told_of(
    alloc: Global,
    names: &[Text],
    items: &[&FileItem],
    selection: &Selection,
    config: &Config,
    refusal: &Diagnostics,
) -> Result<List<Told>, AllocError>
    ensures { IfOk result (AreFaultsOrBound selection.now config.now names.now
        (map (λ i. i.now) items.now) refusal.now) }
{
    one_reading_of_items();
    let reading = read_items(alloc, names, items)?;
    let from = reading.from.as_slice();
    let excluded = selection.exclude.as_slice();
    let mut faults = faults_of(alloc, names, excluded, from, &reading.declarations, config)?;
    if faults.is_empty() {
        faults.push(told_unplaced(alloc, "", refusal)?)?;
    }
    Ok(faults)
}

/// What is derived, with the warnings, and the one that nothing is described, where that is so.
fn with_warnings(
    alloc: Global,
    composition: Composition,
    mut warnings: Warnings,
    is_declared: bool,
) -> Result<(Composition, Warnings), AllocError>
    ensures derived { IfOk result (λ d. d.0 ≡ composition) }
    ensures warned { IfOk result (λ d. (all : AnyList AnyTold) → AreFirst all warnings
        → AreFirst (all ++ told_nothing is_declared (has_some composition)) d.1) }
{
    let is_described = !composition.is_empty();
    warnings.add_nothing(alloc, is_declared, is_described)?;
    Ok((composition, warnings))
}

/// What is derived of the declarations that are read, and what they are warned of behind these warnings; `plain` asks for a
/// warning of each instance that is not plain.
fn derive_read(
    alloc: Global,
    files: &Files<'_>,
    reading: Reading<'_>,
    plain: bool,
    config: &Config,
    warnings: Warnings,
) -> Result<(Composition, Warnings), DeriveError>
    requires many { length reading.from ≡ length (declarations_view reading.declarations) }
    requires named { AreNamed (declarations_view reading.declarations) }
    ensures derived { IfOk result (λ d. (made : AreDerived config.now
        (declarations_view reading.entry.declarations) d.0)
        × ((by : Alternatives) → Describes made.resolved (collects_all config.now.collect)
        (document_by by d.0))) }
    ensures warned { IfOk result (λ d. (front : AnyList AnyTold) → AreFirst front warnings
        → (all : AnyList AnyTold) × AreAllWarned plain config.now files.now.names.now
        (found_by files.now.elsewhere.now) (declarations_view reading.entry.declarations)
        (map (λ i. i.now) reading.entry.from) files.now.impls.now d.0
        front all × AreFirst all d.1) }
    ensures refused { Refuses result
        (AreRefused config.now (declarations_view reading.entry.declarations)) }
{
    let Reading {
        declarations,
        from,
        ..
    } = reading;
    let (names, from) = (files.names, from.as_slice());
    let impls = files.impls;
    let own = warned_of(alloc, names, from, &declarations, impls, config, warnings)?;
    let named = with_elsewhere(alloc, names, from, &declarations, files.elsewhere, own)?;
    let warnings = with_unplain(alloc, names, from, &declarations, plain, config, named)?;
    let is_declared = !declarations.items.is_empty();
    let composition = composition_of(alloc, declarations, config)?;
    Ok(with_warnings(alloc, composition, warnings, is_declared)?)
}

/// What is derived of the declarations that are selected, and what they are warned of, where nothing is left out.
fn derive_whole(
    alloc: Global,
    files: &Files<'_>,
    chosen: &[&FileItem],
    needed: &[&FileAlias],
    selection: &Selection,
    mut config: Config,
) -> Result<(Composition, Warnings), Refusal>
    requires shallow { ¬ (AreDeep config.aliases) }
    requires few { bytes_of (map (λ i. i.now) chosen.now) ≤ most_bytes }
    ensures derived { IfOk result (λ d. selection.now.skip_refused ≡ false
        → (all : AnyList AnyTold) × DerivesSelected selection.now config files.now.names.now
        (map (λ i. i.now) chosen.now) (map (λ a. a.now) needed.now)
        (found_by files.now.elsewhere.now) files.now.impls.now []
        d.0 all × AreFirst all d.1) }
    ensures told { IfErr result (IfToldIs (λ told. selection.now.skip_refused ≡ false
        → RefusesSelected selection.now config files.now.names.now
        (map (λ i. i.now) chosen.now) (map (λ a. a.now) needed.now) told)) }
{
    let names = files.names;
    let reading = read_items(alloc, names, chosen)?;
    if !reading.faults.is_empty() {
        return Err(Refusal::Told(reading.faults));
    }
    push_rows_of(alloc, &mut config, &reading.declarations)?;
    are_distinct(alloc, names, &reading.declarations, needed)?;
    let warnings = Warnings::new(alloc);
    match derive_read(
        alloc,
        files,
        reading,
        selection.not_plain,
        &config,
        warnings,
    ) {
        Ok(derived) => Ok(derived),
        Err(DeriveError::Memory) => Err(Refusal::Memory),
        Err(DeriveError::Refused(refusal)) => {
            let told = told_of(alloc, names, chosen, selection, &config, &refusal)?;
            Err(Refusal::Told(told))
        }
    }
}

/// What is left of the declarations that are selected, where those that cannot be read are left out, and of the others by
/// rounds those at fault, each with what needs it. The rows of the names in all that can be read are put behind those of the
/// configuration. Of what is left out is told why.
fn left_of<'i>(
    alloc: Global,
    names: &[Text],
    chosen: &[&'i FileItem],
    selection: &Selection,
    config: &mut Config,
    lines: &mut List<Told>,
) -> Result<Reading<'i>, AllocError>
    requires few { bytes_of (map (λ i. i.now) chosen.now) ≤ most_bytes }
    ensures left { IfOk result (λ r. selection.now.skip_refused ≡ true
        → (told : AnyList AnyTold) × (rows : AnyList AnyRow) × AreLeft selection.now config.old
        names.now (map (λ i. i.now) chosen.now) told (map (λ i. i.now) r.from)
        (declarations_view r.declarations) rows
        × (config.new ≡ with_rows config.old rows) × (lines.new ≡ lines.old ++ told)) }
    ensures faultless { IfOk result (λ r. AreFaults config.new (declarations_view r.declarations)
        (origin_of names.now selection.now (map (λ i. i.now) r.from))
        (length (declarations_view r.declarations)) []) }
    ensures many { IfOk result (λ r. length r.from ≡ length (declarations_view r.declarations)) }
    ensures named { IfOk result (λ r. AreNamed (declarations_view r.declarations)) }
{
    let readable = leave_texts(alloc, names, chosen, lines)?;
    let reading = read_whole(alloc, names, readable.as_slice())?;
    push_rows_of(alloc, config, &reading.declarations)?;
    Ok(leave_faults(alloc, names, selection, config, readable, reading, lines)?)
}

/// What is derived of the declarations that are selected and left, and what they are warned of, where what is refused is left
/// out: of files, of whose faults this is told, of declarations that cannot be read, and of those at fault.
fn derive_left(
    alloc: Global,
    files: &Files<'_>,
    chosen: &[&FileItem],
    needed: &[&FileAlias],
    selection: &Selection,
    mut config: Config,
) -> Result<(Composition, Warnings), Refusal>
    requires shallow { ¬ (AreDeep config.aliases) }
    requires few { bytes_of (map (λ i. i.now) chosen.now) ≤ most_bytes }
    ensures derived { IfOk result (λ d. selection.now.skip_refused ≡ true
        → (all : AnyList AnyTold) × DerivesSelected selection.now config files.now.names.now
        (map (λ i. i.now) chosen.now) (map (λ a. a.now) needed.now)
        (found_by files.now.elsewhere.now) files.now.impls.now
        (map told_of_file files.now.faults.now) d.0 all × AreFirst all d.1) }
    ensures told { IfErr result (IfToldIs (λ told. selection.now.skip_refused ≡ true
        → RefusesSelected selection.now config files.now.names.now
        (map (λ i. i.now) chosen.now) (map (λ a. a.now) needed.now) told)) }
{
    let mut lines = told_of_files(alloc, files.faults)?;
    let left = left_of(
        alloc,
        files.names,
        chosen,
        selection,
        &mut config,
        &mut lines,
    )?;
    are_distinct(alloc, files.names, &left.declarations, needed)?;
    let warnings = Warnings::of(lines);
    match derive_read(alloc, files, left, selection.not_plain, &config, warnings) {
        Ok(derived) => Ok(derived),
        Err(DeriveError::Memory) => Err(Refusal::Memory),
        Err(DeriveError::Refused(refusal)) => {
            Err(alone(alloc, told_unplaced(alloc, "", &refusal)?))
        }
    }
}

/// What is derived of what is selected, and what it is warned of; the faults are those of files that are left out.
pub(crate) fn derive_selected(
    alloc: Global,
    files: &Files<'_>,
    selected: &Selected<'_>,
    selection: &Selection,
    config: Config,
) -> Result<(Composition, Warnings), Refusal>
    ensures derived { IfOk result (λ d.
        (selection.now.skip_refused ≡ false → files.now.faults.now ≡ [])
        → (all : AnyList AnyTold) × DerivesSelected selection.now config files.now.names.now
        (map (λ i. i.now) selected.now.items) (map (λ a. a.now) selected.now.aliases)
        (found_by files.now.elsewhere.now) files.now.impls.now
        (map told_of_file files.now.faults.now) d.0 all × AreFirst all d.1) }
    ensures told { IfErr result (IfToldIs (RefusesSelected selection.now config files.now.names.now
        (map (λ i. i.now) selected.now.items) (map (λ a. a.now) selected.now.aliases))) }
{
    let (chosen, needed) = (selected.items.as_slice(), selected.aliases.as_slice());
    are_within(alloc, files.names, chosen, needed, selection, &config)?;
    if selection.skip_refused {
        return derive_left(alloc, files, chosen, needed, selection, config);
    }
    derive_whole(alloc, files, chosen, needed, selection, config)
}
