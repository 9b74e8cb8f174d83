//! Laws of the definitions that contracts cite.

ghost use Rattle.selecting.specs.Laws.{AddedAsOne, SelectedAsOne};

use type_grammar::one_type_reading;

/// What is selected of files is one list of declarations and one of aliases, which are those of a configuration in one way.
pub fn one_selecting()
    ensures selected { SelectedAsOne }
    ensures added { AddedAsOne }
{
    one_type_reading();
}
