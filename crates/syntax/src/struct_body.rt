//! What follows the name and the generics of a struct.

ghost use Rattle.std.specs.Prelude.{◌≡◌, ◌<◌, ◌≤◌, length, IfOk};
ghost use Rattle.words.specs.Words.{words_view};
ghost use Rattle.words.specs.Reading.{Gives};
ghost use Rattle.syntax.specs.Items.{fields_view};
ghost use Rattle.syntax.specs.ItemDepth.{within_levels};
ghost use Rattle.syntax.specs.ItemReading.{begins_group, without_fields, tuple_body_at, other_body_at, struct_body_at};

use crate::fields::fields_at;
use crate::item::Fields;
use crate::where_clause::after_where;
use std::alloc::Global;
use tokens::{Bracket, TokenTree};
use words::{Sign, Stop, sign_at};

/// Whether a group in these brackets stands first.
fn begins_group(trees: &[TokenTree], bracket: Bracket) -> bool
    ensures { result ≡ begins_group bracket (words_view trees.now) }
{
    match trees {
        [TokenTree::Group(group), ..] => bracket == group.bracket,
        _ => false,
    }
}

/// The end of a struct without fields.
fn without_fields(trees: &[TokenTree]) -> Result<(Fields, &[TokenTree]), Stop>
    ensures value { Gives (λ p. (fields_view p.0, words_view p.1.now)) result
        (without_fields (words_view trees.now)) }
    ensures shorter { IfOk result (λ p. length p.1.now < length trees.now) }
{
    let (_, rest) = sign_at(trees, Sign::Semicolon)?;
    Ok((Fields::Unit, rest))
}

/// Fields in parentheses, the where clause and `;`.
#[tactic(auto, unfolding(crate::specs::ItemReading::tuple_body_at))]
fn tuple_body_at(alloc: Global, trees: &[TokenTree]) -> Result<(Fields, &[TokenTree]), Stop>
    ensures value { Gives (λ p. (fields_view p.0, words_view p.1.now)) result
        (tuple_body_at within_levels (words_view trees.now)) }
    ensures shorter { IfOk result (λ p. length p.1.now < length trees.now) }
{
    let (fields, rest) = fields_at(alloc, trees)?;
    let rest = after_where(alloc, rest)?;
    let (_, rest) = sign_at(rest, Sign::Semicolon)?;
    Ok((fields, rest))
}

/// The where clause, and fields in braces or `;`.
#[tactic(auto, unfolding(crate::specs::ItemReading::other_body_at))]
fn other_body_at(alloc: Global, trees: &[TokenTree]) -> Result<(Fields, &[TokenTree]), Stop>
    ensures value { Gives (λ p. (fields_view p.0, words_view p.1.now)) result
        (other_body_at within_levels (words_view trees.now)) }
    ensures shorter { IfOk result (λ p. length p.1.now ≤ length trees.now) }
{
    let rest = after_where(alloc, trees)?;
    if begins_group(rest, Bracket::Curly) {
        return fields_at(alloc, rest);
    }
    without_fields(rest)
}

/// The fields of a struct, and what follows it.
#[tactic(auto, unfolding(crate::specs::ItemReading::struct_body_at))]
pub(crate) fn struct_body_at(
    alloc: Global,
    trees: &[TokenTree],
) -> Result<(Fields, &[TokenTree]), Stop>
    ensures value { Gives (λ p. (fields_view p.0, words_view p.1.now)) result
        (struct_body_at within_levels (words_view trees.now)) }
    ensures shorter { IfOk result (λ p. length p.1.now ≤ length trees.now) }
{
    if begins_group(trees, Bracket::Round) {
        return tuple_body_at(alloc, trees);
    }
    other_body_at(alloc, trees)
}
