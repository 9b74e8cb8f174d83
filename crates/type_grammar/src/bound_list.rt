//! Bounds, of which there may be none.

ghost use Rattle.std.specs.Prelude.{◌≤◌, length, IfOk};
ghost use Rattle.words.specs.Words.{words_view};
ghost use Rattle.words.specs.Reading.{Gives};
ghost use Rattle.type_grammar.specs.Reading.{type_in, after_bounds};

use crate::starts::begins_bound;
use crate::types::{bound_at, bounds_at};
use std::alloc::Global;
use tokens::TokenTree;
use words::Stop;

/// What follows the bounds that the trees begin with, which have `+` between them, and in whose arguments types nest at
/// most `left` levels. There may be none. It stops where a bound is begun that is none, or nests deeper.
#[tactic(auto, unfolding(crate::specs::Reading::after_bounds))]
pub fn after_bounds(alloc: Global, trees: &[TokenTree], left: usize) -> Result<&[TokenTree], Stop>
    ensures value { Gives (λ rest. words_view rest.now) result
        (after_bounds (type_in left) (words_view trees.now)) }
    ensures shorter { IfOk result (λ rest. length rest.now ≤ length trees.now) }
{
    match trees {
        [] => Ok(trees),
        [first, ..] => {
            if !begins_bound(first) {
                return Ok(trees);
            }
            let (first, rest) = bound_at(alloc, trees, left)?;
            let (_, rest) = bounds_at(alloc, first, rest, left)?;
            Ok(rest)
        }
    }
}
