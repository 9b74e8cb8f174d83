//! What stands of the file that a source is.

ghost use Rattle.std.specs.Prelude.{◌≡◌, ◌⊎◌, ℕ, List as Items, [], IfOk};
ghost use Rattle.diag.specs.Refusal.{Refuses};
ghost use Rattle.texts.specs.declared.span.Span.{Span};
ghost use Rattle.tokens.specs.Trees.{Tree};
ghost use Rattle.lexing.specs.Cut.{IsDepthError, IsSyntaxError, OpensTooDeep};
ghost use Rattle.prepare.specs.FileItems.{AreSlices};
ghost use Rattle.prepare.specs.Prepared.{IsFile, IsNoFile, IsRefusalOf};
ghost use Rattle.prepare.specs.Reading.{window_of, Reads, StandSoFar, IsFoundIn, IsFound};

use crate::attributes::{after_inner, is_for_tests};
use crate::item::{Standing, Stop};
use crate::reading::Reading;
use crate::standing::{are_items, pass_items};
use crate::trees::before;
use diag::DeriveError;
use lexing::{deep_brackets_nest_deep, one_cut, trees_lie};
use std::alloc::Global;
use texts::List;

/// The error for reading that stopped.
fn refusal(alloc: Global, stop: Stop) -> DeriveError
    ensures { IsRefusalOf stop result }
{
    match stop {
        Stop::Memory => DeriveError::Memory,
        Stop::At(span) => DeriveError::syntax(alloc, span),
    }
}

/// What stands of the file, of which the inner attributes are gone through, or why it is none. An error is one of reading on.
fn items_of(
    alloc: Global,
    reading: &mut Reading<'_>,
) -> Result<Result<List<Standing>, Stop>, DeriveError>
    requires begun { (source : Items ℕ) × (seen : Items Tree) × Reads source reading.old seen }
    ensures found { (source : Items ℕ) (seen : Items Tree) → Reads source reading.old seen
        → StandSoFar reading.old seen [] → IfOk result (IsFoundIn source reading.new) }
    ensures refused { (source : Items ℕ) (seen : Items Tree) → Reads source reading.old seen
        → Refuses result (λ e. IsDepthError source e ⊎ IsSyntaxError source e) }
{
    let mut standing = List::new(alloc);
    'reading: while !reading.is_whole {
        match pass_items(alloc, reading.window.as_slice()) {
            Ok((found, rest)) => {
                let count = rest.len();
                standing.append(found)?;
                reading.keep(alloc, count)?;
            }
            Err(stop) => return Ok(Err(stop)),
        }
        reading.read_on(alloc)?;
    }
    match are_items(alloc, reading.window.as_slice()) {
        Ok(found) => standing.append(found)?,
        Err(stop) => return Ok(Err(stop)),
    }
    Ok(Ok(standing))
}

/// What stands of the file, or why it is none. An error is one of reading on.
fn standing_of(
    alloc: Global,
    reading: &mut Reading<'_>,
) -> Result<Result<List<Standing>, Stop>, DeriveError>
    requires begun { (source : Items ℕ) × Reads source reading.old (window_of reading.old) }
    ensures found { (source : Items ℕ) → Reads source reading.old (window_of reading.old)
        → IfOk result (IsFoundIn source reading.new) }
    ensures refused { (source : Items ℕ) → Reads source reading.old (window_of reading.old)
        → Refuses result (λ e. IsDepthError source e ⊎ IsSyntaxError source e) }
{
    reading.read_inner(alloc)?;
    let trees = reading.window.as_slice();
    let rest = after_inner(trees);
    if is_for_tests(before(trees, rest)) {
        return Ok(Ok(List::new(alloc)));
    }
    let count = rest.len();
    reading.keep(alloc, count)?;
    items_of(alloc, reading)
}

/// The answer to what was found of the source.
fn answer(
    alloc: Global,
    source: &str,
    found: Result<List<Standing>, Stop>,
) -> Result<List<Standing>, DeriveError>
    requires { IsFound source.now found }
    ensures file { IfOk result (IsFile source.now) }
    ensures slices { IfOk result (AreSlices source.now) }
    ensures shallow { IfOk result (λ _. (span : Span) → ¬ (OpensTooDeep source.now span)) }
    ensures refused { Refuses result (λ e. IsDepthError source.now e ⊎ IsNoFile source.now e) }
{
    // The source has no other trees, so what is no file of these is none at all.
    one_cut();
    deep_brackets_nest_deep();
    trees_lie();
    match found {
        Ok(standing) => Ok(standing),
        Err(stop) => Err(refusal(alloc, stop)),
    }
}

/// What stands of the source, which is a file. A fault of its trees is told before one of its items.
pub(crate) fn standing_in(alloc: Global, source: &str) -> Result<List<Standing>, DeriveError>
    ensures file { IfOk result (IsFile source.now) }
    ensures slices { IfOk result (AreSlices source.now) }
    ensures shallow { IfOk result (λ _. (span : Span) → ¬ (OpensTooDeep source.now span)) }
    ensures refused { Refuses result (λ e. IsDepthError source.now e ⊎ IsNoFile source.now e) }
{
    let mut reading = Reading::new(alloc, source)?;
    let found = standing_of(alloc, &mut reading)?;
    reading.read_to_end(alloc)?;
    answer(alloc, source, found)
}
