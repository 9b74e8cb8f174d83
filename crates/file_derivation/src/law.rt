//! Laws of the definitions that contracts cite.

ghost use Rattle.file_derivation.specs.Outcomes.{SoundAreNotTold};

use compose::bounded_are_not_refused;
use gathering::{one_aliasing, one_gathering, one_reading_of_items};
use scopes::names_repeat_or_not;
use selecting::one_selecting;

/// Of files that are sound nothing is told.
pub fn sound_are_not_told()
    ensures { SoundAreNotTold }
{
    bounded_are_not_refused();
    names_repeat_or_not();
    one_gathering();
    one_aliasing();
    one_reading_of_items();
    one_selecting();
}
