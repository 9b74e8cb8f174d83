//! The items of serde lists.

ghost use Rattle.std.specs.Prelude.{◌≡◌, ◌<◌, ◌≤◌, length, IfOk};
ghost use Rattle.written_types.specs.Written.{path_view};
ghost use Rattle.words.specs.Words.{words_view};
ghost use Rattle.words.specs.Reading.{Gives};
ghost use Rattle.attributes.specs.Forms.{form_view};
ghost use Rattle.attributes.specs.AttributeReading.{text_at, value_at, serde_list, items_of};

use crate::attribute::is_word;
use crate::meta::Form;
use crate::path::ident_at;
use crate::serde_item::{SerdeItem, SerdeText};
use literal_values::text_value;
use std::alloc::Global;
use texts::{List, Span};
use tokens::TokenTree;
use words::{ReadItem, Sign, Stop, ident_of, list_inside, literal_at, optional_sign, stop_at};
use written_types::Path;

/// The text of a string literal, and what follows it.
#[tactic(auto, unfolding(crate::specs::AttributeReading::text_at))]
fn text_at(alloc: Global, trees: &[TokenTree]) -> Result<(SerdeText, &[TokenTree]), Stop>
    ensures value { Gives (λ p. (p.0, words_view p.1.now)) result (text_at (words_view trees.now)) }
    ensures shorter { IfOk result (λ p. length p.1.now < length trees.now) }
{
    let (token, rest) = literal_at(trees)?;
    match text_value(alloc, token)? {
        Some(text) => {
            let span = token.span;
            Ok((SerdeText { text, span }, rest))
        }
        None => Err(stop_at(trees)),
    }
}

/// The text behind `=`, where one stands, and what follows it, a group or nothing.
#[tactic(auto, unfolding(crate::specs::AttributeReading::value_at))]
fn value_at(alloc: Global, trees: &[TokenTree]) -> Result<(Option<SerdeText>, &[TokenTree]), Stop>
    ensures value { Gives (λ p. (p.0, words_view p.1.now)) result
        (value_at (words_view trees.now)) }
    ensures shorter { IfOk result (λ p. length p.1.now ≤ length trees.now) }
{
    if let [TokenTree::Group(_), rest @ ..] = trees {
        return Ok((None, rest));
    }
    match optional_sign(trees, Sign::Equals) {
        Some((_, rest)) => {
            let (text, rest) = text_at(alloc, rest)?;
            Ok((Some(text), rest))
        }
        None => Ok((None, trees)),
    }
}

impl ReadItem for SerdeItem {
    ghost use Rattle.attributes.specs.declared.serde_item.SerdeItem.{SerdeItem as AnyItem};
    ghost use Rattle.attributes.specs.AttributeReading.{serde_item_at};

    type Item = SerdeItem;

    ghost Form = { AnyItem };

    ghost form_of = { λ item. item };

    ghost reader = { serde_item_at };

    #[tactic(auto, unfolding(crate::specs::AttributeReading::serde_item_at))]
    fn item_at(alloc: Global, trees: &[TokenTree]) -> Result<(SerdeItem, &[TokenTree]), Stop> {
        let (token, rest) = ident_at(trees)?;
        let (value, rest) = value_at(alloc, rest)?;
        let name = ident_of(alloc, token)?;
        Ok((SerdeItem { name, value }, rest))
    }
}

/// The items of what stands behind `serde`, which stands at the span. It stops where that is no list of items.
fn serde_list(alloc: Global, form: Form<'_>, at: Span) -> Result<List<SerdeItem>, Stop>
    ensures { Gives (λ items. items) result (serde_list (form_view form.entry)) }
{
    match form {
        Form::Items(group) => list_inside::<SerdeItem>(alloc, group),
        Form::Word | Form::NameValue(_) => Err(Stop::Unexpected(at)),
    }
}

/// The items of what stands behind the path: those of serde's list, and none behind another path.
#[tactic(auto, unfolding(crate::specs::AttributeReading::items_of))]
pub(crate) fn items_of(alloc: Global, path: &Path, form: Form<'_>) -> Result<List<SerdeItem>, Stop>
    ensures { Gives (λ items. items) result (items_of (path_view path.now) (form_view form.entry)) }
{
    if is_word(path, "serde") {
        serde_list(alloc, form, path.span)
    } else {
        Ok(List::new(alloc))
    }
}
