//! The form of named fields.

ghost use Rattle.std.specs.Prelude.{◌≡◌, map, IfOk, Some};
ghost use Rattle.std.specs.List.{AllByRecursion};
ghost use Rattle.diag.specs.Refusal.{Refuses};
ghost use Rattle.texts.specs.Lists.{Somewhere};
ghost use Rattle.syntax.specs.Items.{field_view, named};
ghost use Rattle.syntax.specs.Named.{HasName};
ghost use Rattle.shapes.specs.Views.{member_view, form_view};
ghost use Rattle.serde_names.specs.Kept.{own};
ghost use Rattle.derive_decl.specs.Fields.{rules_view, written_idents};
ghost use Rattle.derive_decl.specs.Resolved.{all_of, form_of, member_of, members_of};
ghost use Rattle.derive_decl.specs.Faults.{IsFaultyMember, AreFaultyMembers, AreFaultyNamed};
ghost use Rattle.derive_decl.specs.Views.{items_of, known, written_member_view};

use crate::flattened::beside_of;
use crate::push_some::push_some;
use crate::root::Root;
use crate::written_member::{WrittenMember, members_of, resolve_member};
use diag::DeriveError;
use scopes::{Container, places_of};
use serde_rules::{SerdeContainer, parse_container};
use shapes::{Form, Member};
use std::alloc::Global;
use syntax::Field;
use texts::List;

/// The members of the fields that have names of their own, with their types resolved.
fn resolve_members(
    alloc: Global,
    container: &Container<'_>,
    rules: &SerdeContainer,
    fields: &[Field],
) -> Result<Vec<WrittenMember>, DeriveError>
    requires { AllByRecursion HasName (map field_view fields.now) }
    ensures members { IfOk result
        (λ ms. all_of (member_of (known container.now) (rules_view rules.now))
        (own (map field_view fields.now)) ≡ Some (map written_member_view ms.items)) }
    ensures idents { IfOk result
        (λ ms. written_idents container.now.config.now.renames rules.now.rename_all
        (own (map field_view fields.now)) ≡ map (λ m. m.ident) ms.items) }
    ensures refused { Refuses result
        (λ e. Somewhere (λ f. IsFaultyMember (known container.now) (rules_view rules.now) f e)
        (own (map field_view fields.now))) }
{
    let mut members = Vec::new(alloc);
    for field in fields {
        let member = resolve_member(alloc, container, rules, field)?;
        push_some(&mut members, member)?;
    }
    Ok(members)
}

/// The members of the fields that have names of their own, no two of one name.
fn distinct_members(
    alloc: Global,
    container: &Container<'_>,
    rules: &SerdeContainer,
    fields: &[Field],
) -> Result<List<Member>, DeriveError>
    requires { AllByRecursion HasName (map field_view fields.now) }
    ensures members { IfOk result
        (λ ms. members_of (known container.now) (rules_view rules.now) (map field_view fields.now)
        ≡ Some (map member_view ms)) }
    ensures refused { Refuses result
        (AreFaultyMembers (known container.now) (rules_view rules.now)
        (map field_view fields.now)) }
{
    let members = resolve_members(alloc, container, rules, fields)?;
    let _ = places_of(alloc, members.as_slice())?;
    Ok(members_of(alloc, members)?)
}

/// The form of these fields, of which each has a name: a member for each that serde neither skips nor flattens, and what is
/// flattened.
///
/// A refusal is of kind `SerdeTag` or `BadValue`, for serde's attributes of the root; or, of the fields that are kept,
/// `UnknownType`, `Arity`, `BadArgument` or `TypeSize`, for the type of one; `MissingRow`, at an identifier whose name is
/// that of a row that there is not; `DuplicateName`, at the first identifier whose name stands before it; or
/// `FlattenedMaps`, at the second flattened field whose type is a map.
pub fn named_form(alloc: Global, root: &Root<'_>, fields: &[Field]) -> Result<Form, DeriveError>
    requires { AllByRecursion HasName (map field_view fields.now) }
    ensures form { IfOk result
        (λ form. form_of (known root.now.container.now) (items_of root.now)
        (named (map field_view fields.now)) ≡ Some (form_view form)) }
    ensures refused { Refuses result
        (AreFaultyNamed (known root.now.container.now) (items_of root.now) root.now.ident.now
        (map field_view fields.now)) }
{
    let rules = parse_container(alloc, root.attributes)?;
    let beside = beside_of(alloc, root, fields)?;
    let members = distinct_members(alloc, root.container, &rules, fields)?;
    Ok(Form::Named {
        denies_others: rules.deny_unknown_fields,
        beside,
        members,
    })
}
