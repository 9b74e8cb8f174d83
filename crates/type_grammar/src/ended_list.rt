//! Lists of items with commas between them, which end before a token and not with the trees.

ghost use Rattle.std.specs.Prelude.{◌≡◌, ◌≤◌, length, map, IfOk};
ghost use Rattle.words.specs.Words.{words_view};
ghost use Rattle.words.specs.Reading.{Gives};
ghost use Rattle.type_grammar.specs.Reading.{ends_at, ends_clause, list_until};

use crate::parts::{after_sign, ends_list};
use crate::starts::ListEnd;
use std::alloc::Global;
use texts::List;
use tokens::{Bracket, TokenTree};
use words::{ReadItem, Sign, Stop, Word, word_of};

/// Whether the list of a where clause ends before the trees.
fn ends_clause(trees: &[TokenTree]) -> bool
    ensures { result ≡ ends_clause (words_view trees.now) }
{
    match trees {
        [] => true,
        [first, ..] => match word_of(first) {
            Word::Sign(sign, _) => Sign::Semicolon == sign,
            Word::Group(group) => Bracket::Curly == group.bracket,
            _ => false,
        },
    }
}

fn ends_at(end: ListEnd, trees: &[TokenTree]) -> bool
    ensures { result ≡ ends_at end (words_view trees.now) }
{
    match end {
        ListEnd::Angle => ends_list(trees),
        ListEnd::Clause => ends_clause(trees),
    }
}

/// The items that the trees begin with, up to the end of their list, and what follows them. It stops where an item is
/// begun that is none.
pub fn list_until<I: ReadItem>(
    alloc: Global,
    trees: &[TokenTree],
    end: ListEnd,
) -> Result<(List<I::Item>, &[TokenTree]), Stop>
    ensures value { Gives (λ p. (map I.form_of p.0, words_view p.1.now)) result
        (list_until (ends_at end) I.reader (words_view trees.now)) }
    ensures shorter { IfOk result (λ p. length p.1.now ≤ length trees.now) }
{
    let mut items = List::new(alloc);
    let mut rest = trees;
    'list: while !ends_at(end, rest) {
        let (item, after) = I::item_at(alloc, rest)?;
        items.push(item)?;
        match after_sign(after, Sign::Comma) {
            None => return Ok((items, after)),
            Some(mid) => rest = mid,
        }
    }
    Ok((items, rest))
}
