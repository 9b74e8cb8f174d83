//! Laws of comparisons.

ghost use Rattle.std.specs.Prelude.{◌≡◌};
ghost use Rattle.std.specs.Bool.{Decides};
ghost use Rattle.diag.specs.declared.kind.Kind.{Kind as AnyKind};
ghost use Rattle.diag.specs.declared.rename_row.RenamePlace.{RenamePlace as AnyPlace};
ghost use Rattle.diag.specs.declared.rename_rule.RenameRule.{RenameRule as AnyRule};

use crate::kind::Kind;
use crate::rename_row::RenamePlace;
use crate::rename_rule::RenameRule;

/// Two kinds are told equal exactly where they are one, and so are two rename rules, and two places of rows.
pub fn kinds_and_rules_are_equal()
    ensures kinds { (one other : AnyKind) →
        Decides (⟦<Kind as PartialEq>⟧.eq one other) (one ≡ other) }
    ensures rules { (one other : AnyRule) →
        Decides (⟦<RenameRule as PartialEq>⟧.eq one other) (one ≡ other) }
    ensures places { (one other : AnyPlace) →
        Decides (⟦<RenamePlace as PartialEq>⟧.eq one other) (one ≡ other) }
{}
