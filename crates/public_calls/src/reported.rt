//! Diagnostics.

use diag::{DeriveError, Diagnostics, Kind};
use std::alloc::{AllocError, Global};

/// An entry with a message, a note, a help and an instance.
fn entry(alloc: Global) -> Result<Diagnostics, AllocError> {
    let noted = Diagnostics::new(alloc, Kind::Syntax, "message")?.note("note")?;
    noted.help("help")?.instance("A")
}

/// The entry, joined of a list of one.
fn joined(alloc: Global) -> Result<Option<Diagnostics>, AllocError> {
    let mut entries = Vec::new(alloc);
    entries.push(entry(alloc)?)?;
    Diagnostics::join(alloc, entries)
}

/// What stands in the entry, and how it is printed.
fn entry_text(alloc: Global, entry: &Diagnostics) -> Result<String, AllocError> {
    let text = entry.text(alloc)?;
    let (suggestions, instances) = (entry.suggestions().len(), entry.instances().len());
    format!(in alloc;
        "{} {suggestions} {instances}\n{}",
        entry.message(),
        text.as_str()
    )
}

pub(crate) fn told(alloc: Global) -> Result<String, DeriveError> {
    match joined(alloc)? {
        Some(entry) => Ok(entry_text(alloc, &entry)?),
        None => Ok(String::from_str(alloc, "no diagnostics")?),
    }
}
