//! From files to components, or to what is told.

ghost use Rattle.std.specs.Prelude.{◌≡◌, [], ◌∷◌, List as AnyList, codes, map, IfOk, IfErr};
ghost use Rattle.gathering.specs.Files.{FileOf, file_of, Gathers, AreGathered, HaveAliases, HaveImpls};
ghost use Rattle.gathering.specs.Telling.{told_plainly};
ghost use Rattle.selecting.specs.Selected.{AreKnown};
ghost use Rattle.selecting.specs.Standing.{unknown_only, unknown_exclude};
ghost use Rattle.telling.specs.declared.told.Told.{Told as AnyTold};
ghost use Rattle.file_derivation.specs.Warned.{AreFirst};
ghost use Rattle.file_derivation.specs.Outcomes.{names_of, only_message, exclude_message, AreNotKnown, AreDerivedFrom, AreTold, IfToldIs, IfDerived, IfRefused, IsDerivation, AreSound};

use crate::law::sound_are_not_told;
use crate::selected::{Files, derive_selected};
use crate::warned::Warnings;
use compose::{Composition, Derived};
use configuration::Config;
use gathering::{FileImpl, Gathered, Source, told_plainly};
use prepare::{FileAlias, FileItem};
use selecting::{Elsewhere, Selection, select, unknown_exclude, unknown_only};
use std::alloc::{AllocError, Global};
use telling::Told;
use texts::{List, Text};

/// What is derived of files, and what they are warned of; or what is told of their faults.
#[derive(Drop)]
pub enum Outcome {
    Derived(Derived, Warnings),
    Refused(List<Told>),
}

/// Why nothing is derived of files.
#[derive(Drop)]
pub enum Refusal {
    /// There was not enough of it.
    Memory,
    /// What is told of their faults.
    Told(List<Told>),
}

impl From<AllocError> for Refusal {
    ghost use Rattle.std.specs.Prelude.{◌≡◌};
    ghost use Rattle.file_derivation.specs.declared.derive.Refusal.TheVariants.{Memory};

    ghost from_gives = { λ _ refusal. refusal ≡ Memory };

    fn from(_error: AllocError) -> Refusal {
        Refusal::Memory
    }
}

/// The refusal that tells this alone.
pub(crate) fn alone(alloc: Global, told: Told) -> Refusal
    ensures { IfToldIs (λ all. all ≡ told ∷ []) result }
{
    let mut all = List::new(alloc);
    match all.push(told) {
        Ok(()) => Refusal::Told(all),
        Err(_) => Refusal::Memory,
    }
}

/// The refusal of a name that no declaration has, by which `--only` selects.
fn not_selected(alloc: Global, name: &Text) -> Result<Refusal, AllocError>
    ensures { IfOk result (IfToldIs (λ all. all
        ≡ told_plainly (codes "--only") [] (only_message name.now) ∷ [])) }
{
    let message = format!(in alloc; "no declaration has the name {}", name.as_str())?;
    Ok(alone(alloc, told_plainly(alloc, "--only", "", message.as_str())?))
}

/// The refusal of a text by which `--exclude` leaves out nothing.
fn not_excluded(alloc: Global, text: &Text) -> Result<Refusal, AllocError>
    ensures { IfOk result (IfToldIs (λ all. all
        ≡ told_plainly (codes "--exclude") [] (exclude_message text.now) ∷ [])) }
{
    let message = format!(in alloc;
        "no declaration and no alias has the name or the line {}",
        text.as_str()
    )?;
    Ok(alone(
        alloc,
        told_plainly(alloc, "--exclude", "", message.as_str())?,
    ))
}

/// Refuses names of the selection that are not known.
fn know_names(
    alloc: Global,
    selection: &Selection,
    names: &[Text],
    items: &[FileItem],
    aliases: &[FileAlias],
) -> Result<(), Refusal>
    ensures known { IfOk result (λ _. AreKnown selection.now names.now items.now aliases.now) }
    ensures told { IfErr result (IfToldIs
        (AreNotKnown selection.now names.now items.now aliases.now)) }
{
    if let Some(name) = unknown_only(items, selection.only.as_slice()) {
        return Err(not_selected(alloc, name)?);
    }
    let exclude = selection.exclude.as_slice();
    if let Some(text) = unknown_exclude(alloc, names, items, aliases, exclude)? {
        return Err(not_excluded(alloc, text)?);
    }
    Ok(())
}

/// What is derived of the declarations that are selected, and what they are warned of; the faults are those of files.
fn derive_either(
    alloc: Global,
    names: &[Text],
    items: &[FileItem],
    aliases: &[FileAlias],
    impls: &[FileImpl],
    faults: List<Told>,
    selection: &Selection,
    mut config: Config,
) -> Result<(Composition, Warnings), Refusal>
    ensures derived { IfOk result (λ d. (files : AnyList FileOf) → names.now ≡ names_of files
        → AreGathered 0 files items.now faults → HaveAliases 0 files aliases.now
        → HaveImpls 0 files impls.now → (all : AnyList AnyTold)
        × AreDerivedFrom selection.now config files d.0 all × AreFirst all d.1) }
    ensures told { IfErr result (IfToldIs (λ told. (files : AnyList FileOf)
        → names.now ≡ names_of files → AreGathered 0 files items.now faults
        → HaveAliases 0 files aliases.now → AreTold selection.now config files told)) }
{
    if !selection.skip_refused && !faults.is_empty() {
        return Err(Refusal::Told(faults));
    }
    know_names(alloc, selection, names, items, aliases)?;
    let selected = select(alloc, selection, names, items, aliases, &mut config)?;
    let elsewhere = Elsewhere::new(alloc, items, aliases, &selected)?;
    let files = Files {
        names,
        impls,
        elsewhere: &elsewhere,
        faults: faults.as_slice(),
    };
    derive_selected(alloc, &files, &selected, selection, config)
}

/// What is derived of the files that are gathered.
///
/// Their declarations are selected over all files, each is read from its own text, and the rows of their names by serde's
/// rules and the aliases that they need stand behind those of the configuration. Told are the faults of all files, or else a
/// name of the selection that is not known, or else that aliases stand more than 32 deep in each other, or that the texts of
/// what is selected have more than 16,777,216 bytes, or else the faults of all declarations that cannot be read, or else the
/// aliases whose names something else has, too, or else of each declaration the first fault, or else that the instances are
/// beyond a bound. Where something is derived, the warnings say of which of serde's attributes the JSON is another than the
/// schemas say, which impls of serde's traits are written by hand, which declarations name what another file has in place of
/// what their own file has, and with `not_plain` of each instance that is not plain the reason.
///
/// With `skip_refused` files and declarations that are refused are left out instead, and what needs them, and the rest is
/// derived: the warnings tell first what is left out, and why.
pub fn derive_gathered(
    alloc: Global,
    gathered: Gathered,
    selection: &Selection,
    config: Config,
) -> Result<(Composition, Warnings), Refusal>
    ensures derived { IfOk result (λ d. (files : AnyList FileOf) → Gathers files gathered
        → (all : AnyList AnyTold) × AreDerivedFrom selection.now config files d.0 all
        × AreFirst all d.1) }
    ensures told { IfErr result (IfToldIs (λ told. (files : AnyList FileOf)
        → Gathers files gathered → AreTold selection.now config files told)) }
{
    let Gathered {
        names,
        items,
        aliases,
        impls,
        faults,
    } = gathered;
    let (names, items) = (names.as_slice(), items.as_slice());
    let (aliases, impls) = (aliases.as_slice(), impls.as_slice());
    derive_either(
        alloc, names, items, aliases, impls, faults, selection, config,
    )
}

/// What is derived of the files, as `derive_gathered` says.
pub fn derive_files(
    alloc: Global,
    sources: &[Source<'_>],
    selection: &Selection,
    config: Config,
) -> Result<Outcome, AllocError>
    ensures derived { IfOk result (IfDerived
        (AreDerivedFrom selection.now config (map file_of sources.now))) }
    ensures refused { IfOk result (IfRefused
        (AreTold selection.now config (map file_of sources.now))) }
    ensures complete { AreSound selection.now config (map file_of sources.now)
        → IfOk result IsDerivation }
{
    let mut gathered = Gathered::new(alloc);
    for source in sources {
        gathered.add(alloc, source)?;
    }
    sound_are_not_told();
    match derive_gathered(alloc, gathered, selection, config) {
        Ok((composition, warnings)) => {
            let derived = composition.derived(alloc)?;
            Ok(Outcome::Derived(derived, warnings))
        }
        Err(Refusal::Told(told)) => Ok(Outcome::Refused(told)),
        Err(Refusal::Memory) => Err(AllocError),
    }
}
