//! Laws of the definitions that contracts cite.

ghost use Rattle.gathering.specs.Laws.{GatheredAsOne, AliasedAsOne, ReadAsOne};

use prepare::{aliases_are_one, items_are_one};
use syntax::one_reading;

/// Files of which nothing is told have one list of declarations.
pub fn one_gathering()
    ensures { GatheredAsOne }
{
    items_are_one();
}

/// Files of which nothing is told have one list of aliases.
pub fn one_aliasing()
    ensures { AliasedAsOne }
{
    aliases_are_one();
}

/// Declarations of files of which nothing is told are read as one list of declarations.
pub fn one_reading_of_items()
    ensures { ReadAsOne }
{
    one_reading();
}
