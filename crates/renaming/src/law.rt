//! Laws of rows and names.

ghost use Rattle.renaming.specs.Law.{RowsServe, RowsSuffice, RowsSufficeBehind, RowsAreWanted};

use diag::rules_have_own_names;

/// The rows of names serve each of them: what a look-up answers is what serde makes of the name.
pub fn rows_serve()
    ensures { RowsServe }
{
    rules_have_own_names();
}

/// With the rows of their names no name of declarations misses its row. `derive_decl::rows_are_looked_up` says that a
/// derivation is refused for a missing row exactly where one does.
pub fn rows_suffice()
    ensures { RowsSuffice }
{
    rules_have_own_names();
}

/// Nor does one with these rows behind others, such as those of a configuration.
pub fn rows_suffice_behind()
    ensures { RowsSufficeBehind }
{
    rules_have_own_names();
}

/// Without rows each name that `asked_names` answers misses its row.
pub fn rows_are_wanted()
    ensures { RowsAreWanted }
{}
