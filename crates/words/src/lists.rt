//! Lists of items, with commas between them.

ghost use Rattle.std.specs.Prelude.{◌≡◌, ◌<◌, List as AnyList, length, map, IfOk};
ghost use Rattle.tokens.specs.Trees.{trees_view};
ghost use Rattle.words.specs.Words.{Word, words_of, words_view};
ghost use Rattle.words.specs.Reading.{Gives, Read};
ghost use Rattle.words.specs.Lists.{turn_at, list_of};

use crate::comma::after_comma;
use crate::stopping::Stop;
use std::alloc::Global;
use texts::List;
use tokens::{Group, TokenTree};

/// How an item of a list is read.
pub trait ReadItem {
    /// An item.
    type Item: Drop;

    /// What an item is, without where it lies in memory.
    ghost Form: { Type 0 };

    ghost form_of: { Self.Item → Form };

    /// How the words of an item are read.
    ghost reader: { AnyList Word → Read Form };

    /// The item that the trees begin with, and what follows it. It stops where they begin with none.
    fn item_at(alloc: Global, trees: &[TokenTree]) -> Result<(Self::Item, &[TokenTree]), Stop>
        ensures value { Gives (λ p. (form_of p.0, words_view p.1.now)) result
            (reader (words_view trees.now)) }
        ensures shorter { IfOk result (λ p. length p.1.now < length trees.now) };
}

/// An item, and what follows the comma behind it.
#[tactic(auto, unfolding(crate::specs::Lists::turn_at))]
fn turn_at<I: ReadItem>(alloc: Global, trees: &[TokenTree]) -> Result<(I::Item, &[TokenTree]), Stop>
    ensures value { Gives (λ p. (I.form_of p.0, words_view p.1.now)) result
        (turn_at I.reader (words_view trees.now)) }
    ensures shorter { IfOk result (λ p. length p.1.now < length trees.now) }
{
    let (item, rest) = I::item_at(alloc, trees)?;
    let rest = after_comma(rest)?;
    Ok((item, rest))
}

/// All of the trees, as a list of items.
fn list_of<I: ReadItem>(alloc: Global, trees: &[TokenTree]) -> Result<List<I::Item>, Stop>
    ensures { Gives (λ items. map I.form_of items) result
        (list_of I.reader (words_view trees.now)) }
{
    let mut items = List::new(alloc);
    let mut rest = trees;
    'items: while !rest.is_empty() {
        let (item, after) = turn_at::<I>(alloc, rest)?;
        items.push(item)?;
        rest = after;
    }
    Ok(items.shrunk())
}

/// The items inside of the group, which are all that stands there. Where its trees ended too soon, reading stopped at its
/// closing bracket.
pub fn list_inside<I: ReadItem>(alloc: Global, group: &Group) -> Result<List<I::Item>, Stop>
    ensures { Gives (λ items. map I.form_of items) result
        (list_of I.reader (words_of (trees_view group.now.trees))) }
{
    match list_of::<I>(alloc, group.trees.as_slice()) {
        Ok(items) => Ok(items),
        Err(stop) => Err(stop.inside(group)),
    }
}
