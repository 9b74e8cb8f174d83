//! Variants with resolved types, until their names are judged.

ghost use Rattle.std.specs.Prelude.{◌≡◌, ◌∷◌, [], map, IfOk, Some};
ghost use Rattle.std.specs.List.{AllByRecursion, cons_option, filter_map};
ghost use Rattle.diag.specs.Refusal.{Refuses};
ghost use Rattle.texts.specs.Lists.{Somewhere};
ghost use Rattle.syntax.specs.Items.{variant_view};
ghost use Rattle.syntax.specs.Named.{HaveNames};
ghost use Rattle.shapes.specs.Views.{form_view, variant_view as resolved_view};
ghost use Rattle.serde_names.specs.Kept.{value_of_variant, kept_variants};
ghost use Rattle.derive_decl.specs.Variants.{variant_ident};
ghost use Rattle.derive_decl.specs.Resolved.{all_of, tagged_form, variant_of};
ghost use Rattle.derive_decl.specs.Faults.{IsFaultyContent, IsFaultyVariant};
ghost use Rattle.derive_decl.specs.Views.{attributes_of, known, written_variant_view};

use crate::annotations::annotations_of;
use crate::fields::form_of;
use crate::push_some::push_some;
use crate::root::Root;
use crate::tags::tag_stands;
use crate::variant_names::kept_name;
use diag::{DeriveError, RenameRule};
use scopes::Named;
use serde_rules::{SerdeValue, parse_value};
use shapes::{Annotations, Form, Tagging, Variant as Resolved};
use std::alloc::{AllocError, Global};
use syntax::{Ident, Variant};
use texts::List;

/// A variant whose name is not judged yet.
#[derive(Debug, Drop)]
pub(crate) struct WrittenVariant {
    /// The name in JSON, where the variant's identifier stands.
    ident: Ident,
    annotations: Annotations,
    form: Form,
}

impl Named for WrittenVariant {
    ghost ident_of = { λ variant. variant.ident };

    fn ident(&self) -> &Ident {
        &self.ident
    }
}

/// The variant.
fn moved(variant: WrittenVariant) -> Resolved
    ensures { resolved_view result ≡ written_variant_view variant }
{
    Resolved {
        name: variant.ident.text,
        annotations: variant.annotations,
        form: variant.form,
    }
}

/// The variants, whose names are judged.
pub(crate) fn variants_of(
    alloc: Global,
    written: Vec<WrittenVariant>,
) -> Result<List<Resolved>, AllocError>
    ensures { IfOk result
        (λ xs. map resolved_view xs ≡ map written_variant_view written.items) }
{
    let mut variants = List::new(alloc);
    for variant in written {
        variants.push(moved(variant))?;
    }
    Ok(variants)
}

/// The form of the variant's fields, where the tag can stand.
fn tagged_form(
    alloc: Global,
    root: &Root<'_>,
    tagging: &Tagging,
    variant: &Variant,
) -> Result<Form, DeriveError>
    requires named { HaveNames (variant_view variant.now).fields }
    requires items { attributes_of root.now ≡ (variant_view variant.now).attrs }
    requires ident { root.now.ident.now ≡ (variant_view variant.now).ident }
    ensures form { IfOk result
        (λ form. tagged_form (known root.now.container.now) tagging.now (variant_view variant.now)
        ≡ Some (form_view form)) }
    ensures refused { Refuses result
        (IsFaultyContent (known root.now.container.now) tagging.now (variant_view variant.now)) }
{
    let form = form_of(alloc, root, &variant.fields)?;
    tag_stands(alloc, tagging, variant, &form)?;
    Ok(form)
}

/// The variant, which is kept; before it serde says `value`. Its fields have the rules that serde's items before it say.
fn kept_variant(
    alloc: Global,
    root: &Root<'_>,
    rule: Option<RenameRule>,
    tagging: &Tagging,
    value: &SerdeValue,
    variant: &Variant,
) -> Result<WrittenVariant, DeriveError>
    requires named { HaveNames (variant_view variant.now).fields }
    requires value { value.now ≡ value_of_variant (variant_view variant.now) }
    ensures variant { IfOk result
        (λ x. variant_of (known root.now.container.now) rule tagging.now (variant_view variant.now)
        ≡ Some (written_variant_view x)) }
    ensures ident { IfOk result
        (λ x. variant_ident root.now.container.now.config.now.renames rule tagging.now
        (variant_view variant.now) ≡ Some x.ident) }
    ensures refused { Refuses result
        (IsFaultyVariant (known root.now.container.now) rule tagging.now
        (variant_view variant.now)) }
{
    let ident = kept_name(alloc, root.container.config, rule, tagging, value, variant)?;
    let own = Root {
        ident: &variant.ident,
        attributes: variant.attrs.as_slice(),
        container: root.container,
    };
    let form = tagged_form(alloc, &own, tagging, variant)?;
    Ok(WrittenVariant {
        ident,
        annotations: annotations_of(alloc, own.attributes)?,
        form,
    })
}

/// The variant, where serde does not skip it.
fn resolve_variant(
    alloc: Global,
    root: &Root<'_>,
    rule: Option<RenameRule>,
    tagging: &Tagging,
    variant: &Variant,
) -> Result<Option<WrittenVariant>, DeriveError>
    requires { HaveNames (variant_view variant.now).fields }
    ensures variant { IfOk result
        (λ x. all_of (variant_of (known root.now.container.now) rule tagging.now)
        (kept_variants (variant_view variant.now ∷ []))
        ≡ Some (map written_variant_view (cons_option x []))) }
    ensures ident { IfOk result
        (λ x. filter_map (variant_ident root.now.container.now.config.now.renames rule tagging.now)
        (kept_variants (variant_view variant.now ∷ []))
        ≡ map (λ v. v.ident) (cons_option x [])) }
    ensures refused { Refuses result
        (λ e. Somewhere
        (λ v. IsFaultyVariant (known root.now.container.now) rule tagging.now v e)
        (kept_variants (variant_view variant.now ∷ []))) }
{
    let value = parse_value(alloc, variant.attrs.as_slice())?;
    if value.skip {
        return Ok(None);
    }
    Ok(Some(kept_variant(alloc, root, rule, tagging, &value, variant)?))
}

/// The variants that are kept.
pub(crate) fn resolve_variants(
    alloc: Global,
    root: &Root<'_>,
    rule: Option<RenameRule>,
    tagging: &Tagging,
    variants: &[Variant],
) -> Result<Vec<WrittenVariant>, DeriveError>
    requires { AllByRecursion (λ v. HaveNames v.fields) (map variant_view variants.now) }
    ensures variants { IfOk result
        (λ xs. all_of (variant_of (known root.now.container.now) rule tagging.now)
        (kept_variants (map variant_view variants.now)) ≡ Some (map written_variant_view xs.items)) }
    ensures idents { IfOk result
        (λ xs. filter_map
        (variant_ident root.now.container.now.config.now.renames rule tagging.now)
        (kept_variants (map variant_view variants.now)) ≡ map (λ v. v.ident) xs.items) }
    ensures refused { Refuses result
        (λ e. Somewhere
        (λ v. IsFaultyVariant (known root.now.container.now) rule tagging.now v e)
        (kept_variants (map variant_view variants.now))) }
{
    let mut resolved = Vec::new(alloc);
    for variant in variants {
        let kept = resolve_variant(alloc, root, rule, tagging, variant)?;
        push_some(&mut resolved, kept)?;
    }
    Ok(resolved)
}
