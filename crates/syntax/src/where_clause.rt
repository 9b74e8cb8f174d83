//! Where clauses, of which nothing is kept.

ghost use Rattle.std.specs.Prelude.{◌≤◌, ◌<◌, length, IfOk};
ghost use Rattle.words.specs.Words.{words_view};
ghost use Rattle.words.specs.Reading.{Gives, lifetime_at};
ghost use Rattle.syntax.specs.ItemDepth.{within_levels};
ghost use Rattle.syntax.specs.GenericReading.{after_bounded_type, after_where};

use crate::generics::LEVELS_IN_BOUNDS;
use std::alloc::Global;
use tokens::TokenTree;
use type_grammar::{ListEnd, MAX_LEVELS, after_bounds, list_until, type_at};
use words::{Keyword, ReadItem, Sign, Stop, optional_keyword, optional_lifetime, sign_at};

/// What follows the lifetime or the type that a predicate bounds.
fn after_bounded_type(alloc: Global, trees: &[TokenTree]) -> Result<&[TokenTree], Stop>
    ensures value { Gives (λ rest. words_view rest.now) result
        (after_bounded_type within_levels (words_view trees.now)
        (lifetime_at (words_view trees.now))) }
    ensures shorter { IfOk result (λ rest. length rest.now < length trees.now) }
{
    match optional_lifetime(trees) {
        Some((_, rest)) => Ok(rest),
        None => {
            let (_ty, rest) = type_at(alloc, trees, MAX_LEVELS)?;
            Ok(rest)
        }
    }
}

/// How the predicates of a where clause are read: what they bound, a colon and bounds.
struct Predicate;

impl ReadItem for Predicate {
    ghost use Rattle.syntax.specs.ItemDepth.{within_levels};
    ghost use Rattle.syntax.specs.GenericReading.{predicate_at};

    type Item = ();

    ghost Form = { Unit {0} };

    ghost form_of = { λ _. tt };

    ghost reader = { predicate_at within_levels };

    #[tactic(auto, unfolding(crate::specs::GenericReading::predicate_at))]
    fn item_at(alloc: Global, trees: &[TokenTree]) -> Result<((), &[TokenTree]), Stop> {
        let rest = after_bounded_type(alloc, trees)?;
        let (_, rest) = sign_at(rest, Sign::Colon)?;
        let rest = after_bounds(alloc, rest, LEVELS_IN_BOUNDS)?;
        Ok(((), rest))
    }
}

/// What follows the where clause, where one stands.
#[tactic(auto, unfolding(crate::specs::GenericReading::after_where))]
pub(crate) fn after_where(alloc: Global, trees: &[TokenTree]) -> Result<&[TokenTree], Stop>
    ensures value { Gives (λ rest. words_view rest.now) result
        (after_where within_levels (words_view trees.now)) }
    ensures shorter { IfOk result (λ rest. length rest.now ≤ length trees.now) }
{
    match optional_keyword(trees, Keyword::Where) {
        None => Ok(trees),
        Some((_, inside)) => {
            let (_predicates, rest) = list_until::<Predicate>(alloc, inside, ListEnd::Clause)?;
            Ok(rest)
        }
    }
}
