//! What is told of refusals.

ghost use Rattle.std.specs.Prelude.{◌≡◌, IfOk};
ghost use Rattle.gathering.specs.Telling.{whole, told_by, told_plainly, told_unplaced};

use crate::help::entry_help;
use diag::Diagnostics;
use std::alloc::{AllocError, Global};
use telling::{Place, Told, told_in};
use texts::Text;

/// Where a whole text stands.
pub(crate) fn whole(alloc: Global) -> Result<Place, AllocError>
    ensures { IfOk result (λ place. place ≡ whole) }
{
    Ok(Place {
        line: 1,
        column: 1,
        before: Text::new(alloc, "")?,
        behind: Text::new(alloc, "")?,
    })
}

/// The same, with this as what the reader may do.
pub(crate) fn with_help(mut told: Told, help: Option<Text>) -> Told
    ensures { result ≡ record told { help = help } }
{
    told.help = help;
    told
}

/// What is told of the refusal of a text that stands at the place in the file of the path.
pub fn told_by(
    alloc: Global,
    path: &str,
    place: &Place,
    text: &str,
    refusal: &Diagnostics,
) -> Result<Told, AllocError>
    ensures { IfOk result
        (λ told. told ≡ told_by path.now place.now text.now refusal.now) }
{
    let help = entry_help(alloc, refusal)?;
    let told = told_in(
        alloc,
        path,
        place,
        text,
        refusal.span(),
        refusal.kind().name(),
        refusal.message(),
    )?;
    Ok(with_help(told, help))
}

/// What is told without a place.
pub fn told_plainly(
    alloc: Global,
    path: &str,
    label: &str,
    message: &str,
) -> Result<Told, AllocError>
    ensures { IfOk result (λ told. told ≡ told_plainly path.now label.now message.now) }
{
    Ok(Told {
        path: Text::new(alloc, path)?,
        shown: None,
        label: Text::new(alloc, label)?,
        message: Text::new(alloc, message)?,
        help: None,
    })
}

/// What is told of a refusal that has no place, of the file of the path; of no file where the path is empty.
pub fn told_unplaced(alloc: Global, path: &str, refusal: &Diagnostics) -> Result<Told, AllocError>
    ensures { IfOk result (λ told. told ≡ told_unplaced path.now refusal.now) }
{
    let help = entry_help(alloc, refusal)?;
    let told = told_plainly(alloc, path, refusal.kind().name(), refusal.message())?;
    Ok(with_help(told, help))
}
