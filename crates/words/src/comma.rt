ghost use Rattle.std.specs.Prelude.{◌≤◌, length, IfOk};
ghost use Rattle.words.specs.Words.{words_view};
ghost use Rattle.words.specs.Reading.{Gives};
ghost use Rattle.words.specs.Lists.{after_comma};

use crate::readers::optional_sign;
use crate::stopping::{Stop, stop_at};
use crate::vocabulary::Sign;
use tokens::TokenTree;

/// What follows a comma, or nothing where nothing is left. It refuses trees that begin with anything else.
#[tactic(auto, using(crate::proofs::Turns::comma_follows))]
pub fn after_comma(trees: &[TokenTree]) -> Result<&[TokenTree], Stop>
    ensures value { Gives (λ rest. words_view rest.now) result
        (after_comma (words_view trees.now)) }
    ensures shorter { IfOk result (λ rest. length rest.now ≤ length trees.now) }
{
    match trees {
        [] => Ok(trees),
        [_, ..] => match optional_sign(trees, Sign::Comma) {
            Some((_, rest)) => Ok(rest),
            None => Err(stop_at(trees)),
        },
    }
}
