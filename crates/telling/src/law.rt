//! Laws of the definitions that contracts cite.

ghost use Rattle.std.specs.Prelude.{ℕ, List};
ghost use Rattle.telling.specs.PartLaw.{TellsOfItsFile};
ghost use Rattle.telling.specs.Printable.{PrintableCommandsNothing, BothCommandNothing};

/// A text that stands in a file, with its place there, tells the lines and the columns of the file.
pub fn parts_tell_of_their_files()
    ensures { (front text back : List ℕ) → TellsOfItsFile front text back }
{}

/// What is shown of a text has no character that commands a terminal, and so have two such texts, one behind the other.
pub fn reports_command_nothing()
    ensures printable { PrintableCommandsNothing }
    ensures both { BothCommandNothing }
{}
