ghost use Rattle.std.specs.Prelude.{◌≡◌};
ghost use Rattle.serde_rules.specs.Value.{is_required};

use crate::container::SerdeContainer;
use crate::value::SerdeValue;

/// Whether the member of a field is always there: it may be absent neither when it is read nor when it is written.
pub fn is_required(field_rule: &SerdeValue, container_rules: &SerdeContainer) -> bool
    ensures { result ≡ is_required field_rule.now container_rules.now.default }
{
    !(field_rule.skip_serializing_if
        || field_rule.double_option
        || field_rule.default
        || container_rules.default)
}
