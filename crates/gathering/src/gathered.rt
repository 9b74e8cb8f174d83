//! The declarations of files, taken one after another.

ghost use Rattle.std.specs.Prelude.{◌≡◌, ◌<◌, ◌≤◌, ℕ, [], ◌∷◌, ◌++◌, length, List as AnyList, Option, IfOk, IfErr, OnOk};
ghost use Rattle.std.specs.Str.{IsUtf8, IsValidUpTo};
ghost use Rattle.texts.specs.declared.span.Span.{Span as AnySpan};
ghost use Rattle.gathering.specs.Stops.{IsHelpOfStop};
ghost use Rattle.gathering.specs.Telling.{whole, told_by, told_longer, told_broken};
ghost use Rattle.gathering.specs.Files.{FileOf, file_of, most_bytes, HasItems, HasImpls, HasAliases, IsEndOf, IsToldOfFile, IsTextOfFile, IfTold, Gathers};

use crate::fault::{told_by, told_plainly, whole, with_help};
use crate::source::Source;
use crate::stop_help::stop_help;
use diag::{DeriveError, Diagnostics};
use prepare::{FileAlias, FileImpl, FileItem, FileParts, file_parts, file_text};
use std::alloc::{AllocError, Global};
use telling::{Told, told_in};
use texts::{List, Span, Text};

/// The most bytes of a file.
const MOST_BYTES: usize = 16_777_216;

/// The files so far.
#[derive(Debug, Drop)]
pub struct Gathered {
    /// Their names.
    pub names: List<Text>,
    /// Their declarations, in the order of the files.
    pub items: List<FileItem>,
    /// Their impls of serde's traits that are written by hand, in this order too.
    pub impls: List<FileImpl>,
    /// Their aliases, in this order too.
    pub aliases: List<FileAlias>,
    /// What is told of the files that have none, since they are refused.
    pub faults: List<Told>,
}

/// Why a file has no declarations.
#[derive(Drop)]
pub enum Stop {
    Memory,
    Told(Told),
}

impl From<AllocError> for Stop {
    ghost use Rattle.std.specs.Prelude.{◌≡◌};
    ghost use Rattle.gathering.specs.declared.gathered.Stop.TheVariants.{Memory};

    ghost from_gives = { λ _ stop. stop ≡ Memory };

    fn from(_error: AllocError) -> Stop {
        Stop::Memory
    }
}

/// What is told of bytes that are no UTF-8 behind the text.
fn told_broken(alloc: Global, name: &str, text: &str) -> Result<Told, AllocError>
    ensures { IfOk result (λ told. (end : AnySpan) × IsEndOf text.now end
        × (told ≡ told_broken name.now text.now end)) }
{
    let place = whole(alloc)?;
    let help = Text::new(alloc, "these bytes are no UTF-8")?;
    let end = Span::new(text.len(), text.len());
    let message = "unexpected text in a declaration";
    let told = told_in(alloc, name, &place, text, end, "Syntax", message)?;
    Ok(with_help(told, Some(help)))
}

/// What is told of bytes that are UTF-8 up to there alone.
fn no_text(alloc: Global, source: &Source<'_>, end: usize) -> Result<Told, AllocError>
    requires short { length source.now.bytes.now ≤ MOST_BYTES }
    requires broken { ¬ (IsUtf8 source.now.bytes.now) }
    requires front { IsValidUpTo source.now.bytes.now end }
    ensures { IfOk result (IsToldOfFile (file_of source.now)) }
{
    // The front is UTF-8, since the bytes are up to there.
    let Ok(front) = str::from_utf8(&source.bytes[..end]) else {
        return Err(AllocError);
    };
    let text = file_text(alloc, front)?;
    told_broken(alloc, source.name, text.as_str())
}

/// What is told of a file that is too long.
fn told_longer(alloc: Global, name: &str) -> Result<Told, AllocError>
    ensures { IfOk result (λ told. told ≡ told_longer name.now) }
{
    told_plainly(
        alloc,
        name,
        "TooLong",
        "the file is longer than 16777216 bytes",
    )
}

/// The text of the file.
fn text_of(alloc: Global, source: &Source<'_>) -> Result<Text, Stop>
    ensures text { IfOk result (IsTextOfFile source.now.bytes.now) }
    ensures told { IfErr result (IfTold (IsToldOfFile (file_of source.now))) }
{
    if source.bytes.len() > MOST_BYTES {
        return Err(Stop::Told(told_longer(alloc, source.name)?));
    }
    match str::from_utf8(source.bytes) {
        Ok(text) => Ok(file_text(alloc, text)?),
        Err(fault) => Err(Stop::Told(no_text(alloc, source, fault.valid_up_to())?)),
    }
}

/// What is told of the text of the file of the name, which is refused.
fn told_stop(
    alloc: Global,
    name: &str,
    text: &str,
    refusal: &Diagnostics,
) -> Result<Told, AllocError>
    ensures { IfOk result (λ told. (help : Option (AnyList ℕ))
        × IsHelpOfStop name.now text.now refusal.now help
        × (told ≡ record (told_by name.now whole text.now refusal.now) { help = help })) }
{
    let place = whole(alloc)?;
    let help = stop_help(alloc, name, text, refusal)?;
    let told = told_by(alloc, name, &place, text, refusal)?;
    Ok(with_help(told, help))
}

/// The declarations of the file of this number, its impls by hand and its aliases.
fn parts_of(alloc: Global, file: usize, source: &Source<'_>) -> Result<FileParts, Stop>
    ensures items { IfOk result (λ parts. HasItems file source.now.bytes.now parts.items) }
    ensures impls { IfOk result (λ parts. HasImpls file source.now.bytes.now parts.impls) }
    ensures aliases { IfOk result (λ parts. HasAliases file source.now.bytes.now parts.aliases) }
    ensures told { IfErr result (IfTold (IsToldOfFile (file_of source.now))) }
{
    let text = text_of(alloc, source)?;
    match file_parts(alloc, file, text.as_str()) {
        Ok(parts) => Ok(parts),
        Err(DeriveError::Memory) => Err(Stop::Memory),
        Err(DeriveError::Refused(refusal)) => {
            let told = told_stop(alloc, source.name, text.as_str(), &refusal)?;
            Err(Stop::Told(told))
        }
    }
}

impl Gathered {
    /// No files yet.
    pub fn new(alloc: Global) -> Gathered
        ensures { Gathers [] result }
    {
        Gathered {
            names: List::new(alloc),
            items: List::new(alloc),
            impls: List::new(alloc),
            aliases: List::new(alloc),
            faults: List::new(alloc),
        }
    }

    /// Adds what is told of a file of more than 16,777,216 bytes, which were not read.
    pub fn add_longer(&mut self, alloc: Global, name: &str) -> Result<(), AllocError>
        ensures { OnOk result ((files : AnyList FileOf) (bytes : AnyList ℕ)
            → most_bytes < length bytes → Gathers files self.old
            → Gathers (files ++ record { name = name.now; bytes = bytes } ∷ []) self.new) }
    {
        self.faults.push(told_longer(alloc, name)?)?;
        self.names.push(Text::new(alloc, name)?)?;
        Ok(())
    }

    /// Adds the declarations of the file, its impls by hand and its aliases, or what is told of it where it is refused: of
    /// more than 16,777,216 bytes, of bytes that are no UTF-8, or of a text that nests too deep or is no file of Rust. Of the
    /// file nothing else is kept.
    pub fn add(&mut self, alloc: Global, source: &Source<'_>) -> Result<(), AllocError>
        ensures { OnOk result ((files : AnyList FileOf) → Gathers files self.old
            → Gathers (files ++ file_of source.now ∷ []) self.new) }
    {
        match parts_of(alloc, self.names.len(), source) {
            Ok(parts) => {
                self.items.append(parts.items)?;
                self.impls.append(parts.impls)?;
                self.aliases.append(parts.aliases)?;
            }
            Err(Stop::Told(told)) => self.faults.push(told)?,
            Err(Stop::Memory) => return Err(AllocError),
        }
        self.names.push(Text::new(alloc, source.name)?)?;
        Ok(())
    }
}
