//! A document compared with another that is written already.

ghost use Rattle.std.specs.Prelude.{ℕ, List, false, IfOk, MatchOption, MatchBool};
ghost use Rattle.serde_json.specs.Data.{Data, Members};
ghost use Rattle.serde_json.specs.View.{view, members_view};
ghost use Rattle.documents.specs.Difference.{AreAlike, AreOthers, AtName, IsSame, DifferFirst, IsDifference};
ghost use Rattle.documents.specs.Text.{IsJsonOf};
ghost use Rattle.documents.specs.Written.{AreTextsOf, AreNamedInOrder, IsWrittenOf};

use crate::components::schemas_of;
use crate::written::Written;
use serde_json::{Map, Value};
use std::alloc::{AllocError, Global};
use std::cmp::Ordering;
use texts::{List, Text};

/// How an old document and a new one differ: the first component, in byte order of names, that differs.
#[derive(Debug, Drop)]
pub enum Difference {
    /// The new document has the component, and the old one does not.
    Missing(Text),
    /// The old document has the component, and the new one no more.
    Surplus(Text),
    /// Both have the component, and its schema is another.
    Another(Text),
    /// No component differs. What stands beside them does.
    Elsewhere,
}

/// Whether the text is the compact one that is written for the value.
fn is_text_of(alloc: Global, value: &Value, text: &Text) -> Result<bool, AllocError>
    ensures { IfOk result (λ alike. (new : Data) → IsJsonOf false new text.now
        → MatchBool alike (AreAlike (view value.now) new) (AreOthers (view value.now) new)) }
{
    let json = value.to_string(alloc)?;
    Ok(json.as_str() == text.as_str())
}

/// The first of the schemas that differs, in byte order of names.
fn first_difference(
    alloc: Global,
    olds: &Map<String, Value>,
    news: &List<(Text, Text)>,
) -> Result<Option<Difference>, AllocError>
    ensures { IfOk result (λ found. (values : Members) → AreTextsOf values news.now
        → AreNamedInOrder news.now
        → MatchOption found ((name : List ℕ)
        → AtName IsSame name (members_view olds.now.entries) values)
        (DifferFirst (members_view olds.now.entries) values)) }
{
    let mut others = news.as_slice().iter();
    for (name, old) in olds.iter() {
        let Some((other, new)) = others.next() else {
            return Ok(Some(Difference::Surplus(Text::new(alloc, name.as_str())?)));
        };
        match name.as_str().cmp(other.as_str()) {
            Ordering::Less => {
                return Ok(Some(Difference::Surplus(Text::new(alloc, name.as_str())?)));
            }
            Ordering::Greater => return Ok(Some(Difference::Missing(other.copy(alloc)?))),
            Ordering::Equal => {
                if !is_text_of(alloc, old, new)? {
                    return Ok(Some(Difference::Another(other.copy(alloc)?)));
                }
            }
        }
    }
    match others.next() {
        Some((other, _new)) => Ok(Some(Difference::Missing(other.copy(alloc)?))),
        None => Ok(None),
    }
}

/// How the old document and the written one differ, or nothing where one compact text is written for both. A document
/// without the object `components.schemas` has no components.
pub fn compare(alloc: Global, old: &Value, new: &Written) -> Result<Option<Difference>, AllocError>
    ensures { IfOk result (λ found. (value : Data) → IsWrittenOf value new.now
        → MatchOption found (AreAlike (view old.now) value)
        (IsDifference (view old.now) value)) }
{
    if is_text_of(alloc, old, &new.json)? {
        return Ok(None);
    }
    let none = Map::new(alloc);
    let olds = schemas_of(old).unwrap_or(&none);
    let found = first_difference(alloc, olds, &new.schemas)?;
    Ok(Some(found.unwrap_or(Difference::Elsewhere)))
}
