//! Laws of the definitions that contracts cite.

ghost use Rattle.std.specs.Prelude.{◌≡◌, ℕ, List};
ghost use Rattle.prepare.specs.declared.file_items.FileItem.{FileItem as AnyItem};
ghost use Rattle.prepare.specs.declared.file_items.FileAlias.{FileAlias as AnyAlias};
ghost use Rattle.prepare.specs.FileItems.{AreItemsOf, AreAliasesOf};

use lexing::one_cut;

/// A file has at most one list of declarations.
pub fn items_are_one()
    ensures { (file : ℕ) (source : List ℕ) (items others : List AnyItem)
        → AreItemsOf file source items → AreItemsOf file source others → items ≡ others }
{
    one_cut();
}

/// A file has at most one list of aliases.
pub fn aliases_are_one()
    ensures { (file : ℕ) (source : List ℕ) (aliases others : List AnyAlias)
        → AreAliasesOf file source aliases → AreAliasesOf file source others
        → aliases ≡ others }
{
    one_cut();
}
