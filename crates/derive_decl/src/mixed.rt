//! The bodies of enums of which a variant has fields.

ghost use Rattle.std.specs.Prelude.{◌≡◌, map, IfOk, Some};
ghost use Rattle.std.specs.List.{AllByRecursion};
ghost use Rattle.diag.specs.Refusal.{Refuses};
ghost use Rattle.syntax.specs.Items.{variant_view};
ghost use Rattle.syntax.specs.Named.{HaveNames};
ghost use Rattle.shapes.specs.Views.{body_view};
ghost use Rattle.derive_decl.specs.Resolved.{mixed_of};
ghost use Rattle.derive_decl.specs.Faults.{AreFaultyVariants};
ghost use Rattle.derive_decl.specs.Views.{known};

use crate::root::Root;
use crate::variant_names::told_apart;
use crate::written_variant::{resolve_variants, variants_of};
use diag::{DeriveError, RenameRule};
use shapes::{Body, Tagging};
use std::alloc::Global;
use syntax::Variant;

/// The body of an enum with these variants by their fields, where the rule is that of their names and their values are told
/// so. It is refused as `enum_body` says of variants.
pub(crate) fn variants_body(
    alloc: Global,
    root: &Root<'_>,
    rule: Option<RenameRule>,
    tagging: Tagging,
    variants: &[Variant],
) -> Result<Body, DeriveError>
    requires { AllByRecursion (λ v. HaveNames v.fields) (map variant_view variants.now) }
    ensures variants { IfOk result
        (λ b. mixed_of (known root.now.container.now) rule (map variant_view variants.now) tagging
        ≡ Some (body_view b)) }
    ensures refused { Refuses result
        (AreFaultyVariants (known root.now.container.now) rule tagging
        (map variant_view variants.now)) }
{
    let written = resolve_variants(alloc, root, rule, &tagging, variants)?;
    told_apart(alloc, &tagging, written.as_slice())?;
    Ok(Body::Variants {
        tagging,
        variants: variants_of(alloc, written)?,
    })
}
