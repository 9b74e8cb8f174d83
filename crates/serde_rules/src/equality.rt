//! Laws of comparisons.

ghost use Rattle.std.specs.Prelude.{◌≡◌};
ghost use Rattle.std.specs.Bool.{Decides};
ghost use Rattle.serde_rules.specs.declared.container.SerdeContainer.{SerdeContainer as AnyContainer};
ghost use Rattle.serde_rules.specs.declared.enum_repr.SerdeEnumRepr.{SerdeEnumRepr as AnyRepr};
ghost use Rattle.serde_rules.specs.declared.value.SerdeValue.{SerdeValue as AnyValue};

use crate::container::SerdeContainer;
use crate::enum_repr::SerdeEnumRepr;
use crate::value::SerdeValue;

/// Two representations of enums are told equal exactly where they are, with their tags and contents.
pub fn representations_are_equal()
    ensures { (one other : AnyRepr) →
        Decides (⟦<SerdeEnumRepr as PartialEq>⟧.eq one other) (one ≡ other) }
{}

/// What serde says of a field, and what it says of a struct or an enum, are told equal exactly where all of it is.
pub fn rules_are_equal()
    ensures values { (one other : AnyValue) →
        Decides (⟦<SerdeValue as PartialEq>⟧.eq one other) (one ≡ other) }
    ensures containers { (one other : AnyContainer) →
        Decides (⟦<SerdeContainer as PartialEq>⟧.eq one other) (one ≡ other) }
{
    diag::kinds_and_rules_are_equal();
    representations_are_equal();
}
