//! Named fields with resolved types, until their names are judged.

ghost use Rattle.std.specs.Prelude.{◌≡◌, ◌∷◌, [], IfOk, Some, map};
ghost use Rattle.std.specs.List.{cons_option};
ghost use Rattle.diag.specs.Refusal.{Refuses};
ghost use Rattle.open_types.specs.Open.{open_view};
ghost use Rattle.texts.specs.Lists.{Somewhere};
ghost use Rattle.syntax.specs.Items.{field_view};
ghost use Rattle.syntax.specs.Named.{HasName};
ghost use Rattle.shapes.specs.Views.{member_view};
ghost use Rattle.serde_names.specs.Kept.{own, value_of};
ghost use Rattle.derive_decl.specs.Fields.{rules_view, written_ident, written_idents};
ghost use Rattle.derive_decl.specs.Resolved.{all_of, is_option, member_of, member_from};
ghost use Rattle.derive_decl.specs.Faults.{IsFaultyMember};
ghost use Rattle.derive_decl.specs.Views.{known, written_member_view};

use crate::annotations::annotations_of;
use diag::DeriveError;
use open_types::OpenType;
use scopes::{Container, Named, resolve};
use serde_names::written_ident;
use serde_rules::{FieldRename, SerdeContainer, SerdeValue, is_required, parse_value};
use shapes::{Annotations, Member};
use std::alloc::{AllocError, Global};
use syntax::{Field, Ident};
use texts::List;

/// A member whose name is not judged yet.
#[derive(Debug, Drop)]
pub(crate) struct WrittenMember {
    /// The name in JSON, where the field's identifier stands.
    ident: Ident,
    required: bool,
    annotations: Annotations,
    ty: OpenType,
}

impl Named for WrittenMember {
    ghost ident_of = { λ member. member.ident };

    fn ident(&self) -> &Ident {
        &self.ident
    }
}

/// The member.
fn moved(member: WrittenMember) -> Member
    ensures { member_view result ≡ written_member_view member }
{
    Member {
        name: member.ident.text,
        required: member.required,
        annotations: member.annotations,
        ty: member.ty,
    }
}

/// The members, whose names are judged.
pub(crate) fn members_of(
    alloc: Global,
    written: Vec<WrittenMember>,
) -> Result<List<Member>, AllocError>
    ensures { IfOk result
        (λ ms. map member_view ms ≡ map written_member_view written.items) }
{
    let mut members = List::new(alloc);
    for member in written {
        members.push(moved(member))?;
    }
    Ok(members)
}

/// Whether null stands for the type.
fn is_option(ty: &OpenType) -> bool
    ensures { result ≡ is_option (open_view ty.now) }
{
    match ty {
        OpenType::Option(_) => true,
        _ => false,
    }
}

/// The member of a field of this name and type, before which serde says `value`. It must be there, but that null may stand
/// for an option that is not, and that serde may leave a member out or need not find it.
fn member_with(
    alloc: Global,
    rules: &SerdeContainer,
    value: &SerdeValue,
    field: &Field,
    ident: Ident,
    ty: OpenType,
) -> Result<WrittenMember, AllocError>
    requires { value.now ≡ value_of (field_view field.now) }
    ensures ident { IfOk result (λ m. m.ident ≡ ident) }
    ensures member { IfOk result
        (λ m. written_member_view m
        ≡ member_from (rules_view rules.now) (field_view field.now) ident.text (open_view ty)) }
{
    Ok(WrittenMember {
        required: !is_option(&ty) && is_required(value, rules),
        annotations: annotations_of(alloc, field.attrs.as_slice())?,
        ident,
        ty,
    })
}

/// The member of a field that is kept, before which serde says `value`.
fn kept_member(
    alloc: Global,
    container: &Container<'_>,
    rules: &SerdeContainer,
    value: &SerdeValue,
    field: &Field,
) -> Result<WrittenMember, DeriveError>
    requires named { HasName (field_view field.now) }
    requires value { value.now ≡ value_of (field_view field.now) }
    ensures member { IfOk result
        (λ m. member_of (known container.now) (rules_view rules.now) (field_view field.now)
        ≡ Some (written_member_view m)) }
    ensures ident { IfOk result
        (λ m. written_ident container.now.config.now.renames rules.now.rename_all
        (field_view field.now) ≡ Some m.ident) }
    ensures refused { Refuses result
        (IsFaultyMember (known container.now) (rules_view rules.now) (field_view field.now)) }
{
    let Some(ident) = &field.ident else {
        unreachable!()
    };
    let name = written_ident::<FieldRename>(
        alloc,
        container.config.renames(),
        rules.rename_all,
        value,
        ident,
    )?;
    let ty = resolve(alloc, container.scope, &field.ty, container.config)?;
    Ok(member_with(alloc, rules, value, field, name, ty)?)
}

/// The member of the field, where it has one by a name of its own: a field that is skipped or flattened has none.
pub(crate) fn resolve_member(
    alloc: Global,
    container: &Container<'_>,
    rules: &SerdeContainer,
    field: &Field,
) -> Result<Option<WrittenMember>, DeriveError>
    requires { HasName (field_view field.now) }
    ensures member { IfOk result
        (λ m. all_of (member_of (known container.now) (rules_view rules.now))
        (own (field_view field.now ∷ [])) ≡ Some (map written_member_view (cons_option m []))) }
    ensures ident { IfOk result
        (λ m. written_idents container.now.config.now.renames rules.now.rename_all
        (own (field_view field.now ∷ [])) ≡ map (λ n. n.ident) (cons_option m [])) }
    ensures refused { Refuses result
        (λ e. Somewhere (λ f. IsFaultyMember (known container.now) (rules_view rules.now) f e)
        (own (field_view field.now ∷ []))) }
{
    let value = parse_value(alloc, field.attrs.as_slice())?;
    if value.skip || value.flatten {
        return Ok(None);
    }
    Ok(Some(kept_member(alloc, container, rules, &value, field)?))
}
