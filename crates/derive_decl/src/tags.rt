//! Where the tag of a variant can stand.

ghost use Rattle.std.specs.Prelude.{◌≡◌, ℕ, List, map, IfOk, true};
ghost use Rattle.diag.specs.Refusal.{IsErrorFor, IsHelpRefusal, Refuses};
ghost use Rattle.texts.specs.Names.{is_in};
ghost use Rattle.syntax.specs.Items.{variant_view};
ghost use Rattle.open_types.specs.Open.{open_view};
ghost use Rattle.shapes.specs.Declarations.{member_names, unnamed_fields};
ghost use Rattle.derive_decl.specs.Tags.{is_tuple, can_be_tagged, tag_is_taken, tag_stands, IsMisplacedTag, tuple_message, tuple_help};
ghost use Rattle.shapes.specs.Views.{member_view, form_view};

use diag::{DeriveError, Kind};
use open_types::OpenType;
use scopes::duplicate_name;
use shapes::{Form, Member, Tagging, flattened_of};
use std::alloc::Global;
use syntax::Variant;
use texts::{Span, Text};

/// Whether the type is a tuple, or the unit.
fn is_tuple(ty: &OpenType) -> bool
    ensures { result ≡ is_tuple (open_view ty.now) }
{
    match ty {
        OpenType::Unit | OpenType::Tuple(_) => true,
        _ => false,
    }
}

/// Whether unnamed fields of these types are neither several nor a tuple or the unit: no other type is looked into.
fn have_members(types: &[OpenType]) -> bool
    ensures { (tag : List ℕ) → result
        ≡ can_be_tagged (Tagging.Internal tag) (unnamed_fields (map open_view types.now)) }
{
    match types {
        [] => true,
        [ty] => !is_tuple(ty),
        _ => false,
    }
}

/// Whether the tag is not one alone beside several unnamed fields, a tuple or the unit.
fn can_be_tagged(tagging: &Tagging, form: &Form) -> bool
    ensures { result ≡ can_be_tagged tagging.now (form_view form.now) }
{
    match (tagging, form) {
        (Tagging::Internal { .. }, Form::Unnamed(types)) => have_members(types.as_slice()),
        _ => true,
    }
}

/// Whether one of the members has the name.
fn is_member(name: &Text, members: &[Member]) -> bool
    ensures { result ≡ is_in name.now (member_names (map member_view members.now)) }
{
    for member in members {
        if *name == member.name {
            return true;
        }
    }
    false
}

/// Whether the tag has the name of what stands beside it: of a member, or of the content. Beside what is flattened it stands
/// in an object of its own.
fn tag_is_taken(tagging: &Tagging, form: &Form) -> bool
    ensures { result ≡ tag_is_taken tagging.now (form_view form.now) }
{
    match (tagging, form) {
        (
            Tagging::Internal { tag },
            Form::Named {
                beside,
                members,
                ..
            },
        ) => flattened_of(beside).is_empty() && is_member(tag, members.as_slice()),
        (Tagging::Adjacent { tag, content }, Form::Named { .. }) => tag == content,
        (Tagging::Adjacent { tag, content }, Form::Unnamed(_)) => tag == content,
        _ => false,
    }
}

/// The refusal of a tag among several fields, in a tuple or in the unit.
fn tagged_tuple(alloc: Global, span: Span) -> DeriveError
    ensures { IsErrorFor (IsHelpRefusal Kind.TaggedTuple span tuple_message tuple_help) result }
{
    let message =
        "Unnamed (tuple) enum variants are unsupported for internally tagged enums using the `tag = ` serde attribute";
    let help = "Try using a different serde enum representation";
    DeriveError::refusal_with_help(alloc, Kind::TaggedTuple, span, message, help)
}

/// Refuses the variant, whose fields have this form, where its tag cannot stand.
pub(crate) fn tag_stands(
    alloc: Global,
    tagging: &Tagging,
    variant: &Variant,
    form: &Form,
) -> Result<(), DeriveError>
    ensures stands { IfOk result (λ _. tag_stands tagging.now (form_view form.now) ≡ true) }
    ensures refused { Refuses result
        (IsMisplacedTag tagging.now (variant_view variant.now) (form_view form.now)) }
{
    if !can_be_tagged(tagging, form) {
        return Err(tagged_tuple(alloc, variant.span));
    }
    if !tag_is_taken(tagging, form) {
        return Ok(());
    }
    match tagging {
        Tagging::Internal { tag } | Tagging::Adjacent { tag, .. } => {
            Err(duplicate_name(alloc, tag, variant.ident.span)?)
        }
        Tagging::External | Tagging::Untagged => Ok(()),
    }
}
