//! Which fields serde keeps.

ghost use Rattle.std.specs.Prelude.{◌≡◌, IfOk};
ghost use Rattle.syntax.specs.Items.{field_view};
ghost use Rattle.serde_names.specs.Kept.{is_flattened};

use serde_rules::{parse_value, stands_before};
use std::alloc::{AllocError, Global};
use syntax::Field;

/// Whether the members of the field's value stand in its place: it has serde's `flatten`, and serde does not skip it.
pub fn is_flattened(alloc: Global, field: &Field) -> Result<bool, AllocError>
    ensures { IfOk result (λ flattened. flattened ≡ is_flattened (field_view field.now)) }
{
    if !stands_before(field.attrs.as_slice(), "flatten") {
        return Ok(false);
    }
    let value = parse_value(alloc, field.attrs.as_slice())?;
    Ok(!value.skip && value.flatten)
}
