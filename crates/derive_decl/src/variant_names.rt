//! The names of variants in JSON, and how they are told.

ghost use Rattle.std.specs.Prelude.{◌≡◌, ◌∷◌, [], ℕ, map, IfOk, Ok, Some, true};
ghost use Rattle.std.specs.List.{cons_option};
ghost use Rattle.diag.specs.Refusal.{IsRefusal, Refuses};
ghost use Rattle.texts.specs.Lists.{Somewhere};
ghost use Rattle.serde_rules.specs.declared.enum_repr.SerdeEnumRepr.TheVariants.{UnfinishedAdjacentlyTagged};
ghost use Rattle.syntax.specs.Items.{variant_view};
ghost use Rattle.scopes.specs.Names.{texts, IsGivenTwice};
ghost use Rattle.shapes.specs.Declarations.{telling};
ghost use Rattle.serde_names.specs.Kept.{value_of_variant, kept_variants};
ghost use Rattle.derive_decl.specs.Variants.{tagging_of, are_told, variant_name, variant_ident};
ghost use Rattle.derive_decl.specs.Resolved.{all_of, passing};
ghost use Rattle.derive_decl.specs.Faults.{IsUnnamed, AreUnnamed, tagless_message};

use crate::push_some::push_some;
use configuration::Config;
use diag::{DeriveError, Kind, RenameRule};
use scopes::{Named, places_of};
use serde_names::written_ident;
use serde_rules::{SerdeEnumRepr, SerdeValue, VariantRename, parse_value};
use shapes::Tagging;
use std::alloc::{AllocError, Global};
use syntax::{Ident, Variant};
use texts::{List, Text};

/// How the enum of the name tells its variants. A content without a tag tells none.
pub(crate) fn tagging_of(
    alloc: Global,
    repr: SerdeEnumRepr,
    ident: &Ident,
) -> Result<Tagging, DeriveError>
    ensures tagging { IfOk result (λ tagging. tagging_of repr ≡ Some tagging) }
    ensures refused { Refuses result (λ e. (content : List ℕ)
        × (repr ≡ UnfinishedAdjacentlyTagged content)
        × IsRefusal Kind.SerdeTag ident.now.span tagless_message e) }
{
    match repr {
        SerdeEnumRepr::ExternallyTagged => Ok(Tagging::External),
        SerdeEnumRepr::InternallyTagged { tag } => Ok(Tagging::Internal { tag }),
        SerdeEnumRepr::AdjacentlyTagged { tag, content } => Ok(Tagging::Adjacent { tag, content }),
        SerdeEnumRepr::Untagged => Ok(Tagging::Untagged),
        SerdeEnumRepr::UnfinishedAdjacentlyTagged { .. } => {
            let kind = Kind::SerdeTag;
            Err(DeriveError::refusal(alloc, kind, ident.span, "serde content without tag"))
        }
    }
}

/// The name of a variant that is kept, where its identifier stands; before it serde says `value`.
pub(crate) fn kept_name(
    alloc: Global,
    config: &Config,
    rule: Option<RenameRule>,
    tagging: &Tagging,
    value: &SerdeValue,
    variant: &Variant,
) -> Result<Ident, DeriveError>
    requires { value.now ≡ value_of_variant (variant_view variant.now) }
    ensures name { IfOk result
        (λ x. variant_ident config.now.renames rule tagging.now (variant_view variant.now)
        ≡ Some x) }
    ensures refused { Refuses result
        (IsUnnamed config.now.renames rule tagging.now (variant_view variant.now)) }
{
    match tagging {
        Tagging::Untagged => Ok(variant.ident.copy(alloc)?),
        Tagging::External | Tagging::Internal { .. } | Tagging::Adjacent { .. } => {
            written_ident::<VariantRename>(alloc, config.renames(), rule, value, &variant.ident)
        }
    }
}

/// The name of the variant, where serde does not skip it.
fn resolve_name(
    alloc: Global,
    config: &Config,
    rule: Option<RenameRule>,
    tagging: &Tagging,
    variant: &Variant,
) -> Result<Option<Ident>, DeriveError>
    ensures name { IfOk result
        (λ x. all_of (variant_ident config.now.renames rule tagging.now)
        (kept_variants (variant_view variant.now ∷ [])) ≡ Some (cons_option x [])) }
    ensures refused { Refuses result
        (λ e. Somewhere (λ v. IsUnnamed config.now.renames rule tagging.now v e)
        (kept_variants (variant_view variant.now ∷ []))) }
{
    let value = parse_value(alloc, variant.attrs.as_slice())?;
    if value.skip {
        return Ok(None);
    }
    Ok(Some(kept_name(alloc, config, rule, tagging, &value, variant)?))
}

/// The names of the variants that are kept.
fn resolve_names(
    alloc: Global,
    config: &Config,
    rule: Option<RenameRule>,
    tagging: &Tagging,
    variants: &[Variant],
) -> Result<Vec<Ident>, DeriveError>
    ensures names { IfOk result
        (λ xs. all_of (variant_ident config.now.renames rule tagging.now)
        (kept_variants (map variant_view variants.now)) ≡ Some xs.items) }
    ensures refused { Refuses result
        (λ e. Somewhere (λ v. IsUnnamed config.now.renames rule tagging.now v e)
        (kept_variants (map variant_view variants.now))) }
{
    let mut names = Vec::new(alloc);
    for variant in variants {
        let name = resolve_name(alloc, config, rule, tagging, variant)?;
        push_some(&mut names, name)?;
    }
    Ok(names)
}

/// Refuses a name given twice, where names tell variants apart.
pub(crate) fn told_apart<T: Named>(
    alloc: Global,
    tagging: &Tagging,
    items: &[T],
) -> Result<(), DeriveError>
    ensures told { IfOk result
        (λ _. are_told tagging.now (texts (map T.ident_of items.now)) ≡ true) }
    ensures refused { Refuses result
        (IsGivenTwice (telling tagging.now (map T.ident_of items.now))) }
{
    match tagging {
        Tagging::Untagged => Ok(()),
        Tagging::External | Tagging::Internal { .. } | Tagging::Adjacent { .. } => {
            let _ = places_of(alloc, items)?;
            Ok(())
        }
    }
}

/// The names, which are judged.
fn texts_of(alloc: Global, idents: Vec<Ident>) -> Result<List<Text>, AllocError>
    ensures { IfOk result (λ names. names ≡ map (λ x. x.text) idents.items) }
{
    let mut names = List::new(alloc);
    for ident in idents {
        names.push(ident.text)?;
    }
    Ok(names)
}

/// The names of the variants that are kept, no two of one name where names tell variants apart.
pub(crate) fn distinct_names(
    alloc: Global,
    config: &Config,
    rule: Option<RenameRule>,
    tagging: &Tagging,
    variants: &[Variant],
) -> Result<List<Text>, DeriveError>
    ensures names { IfOk result
        (λ names. passing (are_told tagging.now)
        (all_of (variant_name config.now.renames rule tagging.now)
        (kept_variants (map variant_view variants.now))) ≡ Some names) }
    ensures refused { Refuses result
        (AreUnnamed config.now.renames rule tagging.now (map variant_view variants.now)) }
{
    let names = resolve_names(alloc, config, rule, tagging, variants)?;
    told_apart(alloc, tagging, names.as_slice())?;
    Ok(texts_of(alloc, names)?)
}
