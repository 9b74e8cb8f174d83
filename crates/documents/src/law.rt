//! What rests on the definitions alone: laws that callers rely on, as contracts of functions that do nothing.

ghost use Rattle.documents.specs.Difference.{AlikeAreEqual, OthersDiffer};
ghost use Rattle.documents.specs.Merge.{MergesHold};
ghost use Rattle.documents.specs.Text.{TextsReadBack};

/// A text of a value, compact or pretty, reads as the value, where it nests no deeper than is read.
pub fn texts_read_back()
    ensures { TextsReadBack }
{}

/// A merged document has each new schema under its name, and all that it had before.
pub fn merges_hold()
    ensures { MergesHold }
{}

/// Values that one text is written for are equal, where both nest no deeper than is read.
pub fn alike_are_equal()
    ensures { AlikeAreEqual }
{}

/// Values that two texts are written for are not equal, where no float stands in one of them.
pub fn others_differ()
    ensures { OthersDiffer }
{}
