//! Items, each at fault or not.

ghost use Rattle.std.specs.Prelude.{◌≡◌, ◌<◌, length, map, slice_get, Some, IfOk};
ghost use Rattle.syntax.specs.Items.{DeclaredItem, declarations_view};
ghost use Rattle.syntax.specs.Named.{AreNamed};
ghost use Rattle.file_derivation.specs.Rounds.{name_span, IsTextVerdict, AreTexts, IsVerdictAt, AreVerdicts};
ghost use Rattle.file_derivation.specs.Helps.{origin_around, declared_around};

use crate::faults::fault_at;
use crate::helps::Around;
use configuration::Config;
use gathering::read_items;
use prepare::FileItem;
use scopes::Places;
use std::alloc::{AllocError, Global};
use std::slice;
use syntax::Declarations;
use telling::Told;
use texts::{List, Span, Text};

/// What is told of an item at fault; of another the span of its name in its text.
#[derive(Drop)]
pub(crate) enum Verdict {
    Fault(Told),
    Sound(Span),
}

/// An item that is judged.
#[derive(Drop)]
pub(crate) struct Judged<'i> {
    pub(crate) item: &'i FileItem,
    pub(crate) verdict: Verdict,
}

/// The span of the name of the first declaration.
fn name_span(declarations: &Declarations) -> Span
    ensures { result ≡ name_span (declarations_view declarations.now) }
{
    match declarations.items.as_slice() {
        [] => Span::nowhere(),
        [first, ..] => first.ident.span,
    }
}

/// Whether the text of the item is refused.
fn text_verdict(alloc: Global, names: &[Text], item: &FileItem) -> Result<Verdict, AllocError>
    ensures { IfOk result (IsTextVerdict names.now item.now) }
{
    let mut reading = read_items(alloc, names, slice::from_ref(&item))?;
    if reading.faults.is_empty() {
        return Ok(Verdict::Sound(name_span(&reading.declarations)));
    }
    Ok(Verdict::Fault(reading.faults.remove(0)))
}

/// The items, each judged by its text.
pub(crate) fn judge_texts<'i>(
    alloc: Global,
    names: &[Text],
    items: &[&'i FileItem],
) -> Result<List<Judged<'i>>, AllocError>
    ensures { IfOk result (AreTexts names.now (map (λ i. i.now) items.now)) }
{
    let mut judged = List::new(alloc);
    let mut rest = items;
    'items: while let [first, after @ ..] = rest {
        judged.push(Judged {
            item: *first,
            verdict: text_verdict(alloc, names, first)?,
        })?;
        rest = after;
    }
    Ok(judged)
}

/// Whether the declaration at the place is at fault.
fn verdict_at(
    alloc: Global,
    around: &Around<'_>,
    config: &Config,
    at: usize,
) -> Result<Verdict, AllocError>
    requires named { AreNamed (declared_around around.now) }
    requires within { at < length (declared_around around.now) }
    requires many { length around.now.from.now ≡ length (declared_around around.now) }
    ensures { IfOk result (λ verdict. (d : DeclaredItem)
        × (slice_get (declared_around around.now) at ≡ Some d)
        × IsVerdictAt config.now (declared_around around.now) (origin_around around.now) at d
        verdict) }
{
    match fault_at(alloc, around, config, at)? {
        Some(told) => Ok(Verdict::Fault(told)),
        None => {
            let declaration = &around.places.declarations.items.as_slice()[at];
            Ok(Verdict::Sound(declaration.ident.span))
        }
    }
}

/// The items that the declarations are read from, each judged by its declaration.
pub(crate) fn judge_declarations<'i>(
    alloc: Global,
    names: &[Text],
    excluded: &[Text],
    from: &[&'i FileItem],
    declarations: &Declarations,
    config: &Config,
) -> Result<List<Judged<'i>>, AllocError>
    requires named { AreNamed (declarations_view declarations.now) }
    requires many { length from.now ≡ length (declarations_view declarations.now) }
    ensures { IfOk result (AreVerdicts config.now (declarations_view declarations.now)
        (record { names = names.now; excluded = excluded.now; from = map (λ i. i.now) from.now })
        (length (declarations_view declarations.now))) }
{
    let places = Places::new(alloc, declarations)?;
    let around = Around {
        names,
        excluded,
        from,
        places: &places,
    };
    let mut judged = List::new(alloc);
    for at in 0..from.len() {
        judged.push(Judged {
            item: from[at],
            verdict: verdict_at(alloc, &around, config, at)?,
        })?;
    }
    Ok(judged)
}
