//! The bodies of enums.

ghost use Rattle.std.specs.Prelude.{◌≡◌, map, IfOk, Some, true};
ghost use Rattle.std.specs.List.{AllByRecursion};
ghost use Rattle.diag.specs.Refusal.{Refuses};
ghost use Rattle.serde_rules.specs.Container.{rename_rule};
ghost use Rattle.syntax.specs.Items.{fields_view, variant_view};
ghost use Rattle.syntax.specs.Named.{HaveNames};
ghost use Rattle.shapes.specs.Views.{body_view};
ghost use Rattle.derive_decl.specs.Fields.{are_allowed};
ghost use Rattle.derive_decl.specs.Variants.{is_unit, are_units, tagging_in};
ghost use Rattle.derive_decl.specs.Resolved.{enum_of, enum_by, plain_body, mixed_body};
ghost use Rattle.derive_decl.specs.Faults.{IsFaultyPlain, IsFaultyEnum, IsFaultyTagging};
ghost use Rattle.derive_decl.specs.Views.{items_of, known};

use crate::mixed::variants_body;
use crate::root::Root;
use crate::units::units_body;
use crate::variant_names::tagging_of;
use diag::{DeriveError, RenameRule};
use serde_rules::parse_container;
use shapes::{Body, Tagging};
use std::alloc::Global;
use syntax::{Fields, Variant};

/// What serde says of an enum.
#[derive(Debug, Drop)]
struct EnumRules {
    /// The rule of its variants' names.
    rule: Option<RenameRule>,
    /// How its values tell their variant.
    tagging: Tagging,
}

/// What serde says of the enum.
///
/// A refusal is of kind `SerdeTag` or `BadValue`, for serde's attributes of it, or `SerdeTag`, at its name, where they name a
/// content and no tag.
fn enum_rules(alloc: Global, root: &Root<'_>) -> Result<EnumRules, DeriveError>
    ensures allowed { IfOk result (λ _. are_allowed (items_of root.now) ≡ true) }
    ensures rule { IfOk result (λ rules. rules.rule ≡ rename_rule (items_of root.now)) }
    ensures tagging { IfOk result
        (λ rules. tagging_in (items_of root.now) ≡ Some rules.tagging) }
    ensures refused { Refuses result (IsFaultyTagging (items_of root.now) root.now.ident.now) }
{
    let rules = parse_container(alloc, root.attributes)?;
    let rule = rules.rename_all;
    let tagging = tagging_of(alloc, rules.enum_repr, root.ident)?;
    Ok(EnumRules { rule, tagging })
}

fn is_unit(fields: &Fields) -> bool
    ensures { result ≡ is_unit (fields_view fields.now) }
{
    match fields {
        Fields::Named(_) | Fields::Unnamed(_) => false,
        Fields::Unit => true,
    }
}

/// Whether no variant has fields.
fn are_units(variants: &[Variant]) -> bool
    ensures { result ≡ are_units (map variant_view variants.now) }
{
    for variant in variants {
        if !is_unit(&variant.fields) {
            return false;
        }
    }
    true
}

/// The body of an enum with these variants by their names: their fields are not looked at.
///
/// It is refused as `enum_body` is for serde's attributes of the enum and for the names of its variants.
pub fn plain_body(alloc: Global, root: &Root<'_>, variants: &[Variant]) -> Result<Body, DeriveError>
    ensures body { IfOk result
        (λ b. plain_body (known root.now.container.now) (items_of root.now)
        (map variant_view variants.now) ≡ Some (body_view b)) }
    ensures refused { Refuses result
        (IsFaultyPlain (known root.now.container.now) (items_of root.now) root.now.ident.now
        (map variant_view variants.now)) }
{
    let rules = enum_rules(alloc, root)?;
    units_body(alloc, root, rules.rule, rules.tagging, variants)
}

/// The body of an enum with these variants by their fields, as if one of them had some. It is refused as `enum_body` is.
pub fn mixed_body(alloc: Global, root: &Root<'_>, variants: &[Variant]) -> Result<Body, DeriveError>
    requires { AllByRecursion (λ v. HaveNames v.fields) (map variant_view variants.now) }
    ensures body { IfOk result
        (λ b. mixed_body (known root.now.container.now) (items_of root.now)
        (map variant_view variants.now) ≡ Some (body_view b)) }
    ensures refused { Refuses result
        (IsFaultyEnum (known root.now.container.now) (items_of root.now) root.now.ident.now
        (map variant_view variants.now)) }
{
    let rules = enum_rules(alloc, root)?;
    variants_body(alloc, root, rules.rule, rules.tagging, variants)
}

/// The body of an enum with these variants: by their names where none has fields, else by their fields.
///
/// A refusal is of kind `SerdeTag` or `BadValue`, for serde's attributes of the enum, or `SerdeTag`, at its name, where they
/// name a content and no tag. Of the variants that are kept it is `MissingRow`, at an identifier whose name is that of a row
/// that there is not; `DuplicateName`, at the first identifier whose name stands before it; what a struct of these fields is
/// refused for; `TaggedTuple`, at the variant, where a tag alone should stand among several unnamed fields, in a tuple or in
/// the unit; or `DuplicateName`, at the variant's identifier, where its tag has the name of what stands beside it. The names
/// of untagged variants need no row, and may be equal.
pub fn enum_body(alloc: Global, root: &Root<'_>, variants: &[Variant]) -> Result<Body, DeriveError>
    requires { AllByRecursion (λ v. HaveNames v.fields) (map variant_view variants.now) }
    ensures body { IfOk result
        (λ b. enum_by (items_of root.now)
        (λ rule. enum_of (known root.now.container.now) rule (map variant_view variants.now))
        ≡ Some (body_view b)) }
    ensures refused { Refuses result
        (IsFaultyEnum (known root.now.container.now) (items_of root.now) root.now.ident.now
        (map variant_view variants.now)) }
{
    if are_units(variants) {
        return plain_body(alloc, root, variants);
    }
    mixed_body(alloc, root, variants)
}
