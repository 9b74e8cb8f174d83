//! The bodies of enums whose variants have no fields.

ghost use Rattle.std.specs.Prelude.{◌≡◌, map, IfOk, Some};
ghost use Rattle.diag.specs.Refusal.{Refuses};
ghost use Rattle.syntax.specs.Items.{variant_view};
ghost use Rattle.shapes.specs.Views.{body_view};
ghost use Rattle.derive_decl.specs.Resolved.{units_of};
ghost use Rattle.derive_decl.specs.Faults.{AreUnnamed};
ghost use Rattle.derive_decl.specs.Views.{known};

use crate::root::Root;
use crate::variant_names::distinct_names;
use diag::{DeriveError, RenameRule};
use shapes::{Body, Tagging};
use std::alloc::Global;
use syntax::Variant;

/// The body of an enum with these variants by their names alone, where the rule is that of their names and their values are
/// told so. It is refused as `enum_body` says of names.
pub(crate) fn units_body(
    alloc: Global,
    root: &Root<'_>,
    rule: Option<RenameRule>,
    tagging: Tagging,
    variants: &[Variant],
) -> Result<Body, DeriveError>
    ensures units { IfOk result
        (λ b. units_of (known root.now.container.now) rule (map variant_view variants.now) tagging
        ≡ Some (body_view b)) }
    ensures refused { Refuses result
        (AreUnnamed root.now.container.now.config.now.renames rule tagging
        (map variant_view variants.now)) }
{
    let names = distinct_names(alloc, root.container.config, rule, &tagging, variants)?;
    Ok(Body::Units { tagging, names })
}
