//! What in the body of an instance its schema cannot say whole.

ghost use Rattle.std.specs.Prelude.{◌≡◌, map, Option, Some, Ok, IfOk};
ghost use Rattle.std.specs.Fn.{FnReturnsAt};
ghost use Rattle.leaves.specs.Leaves.{kind_of};
ghost use Rattle.open_types.specs.Open.{open_view, opens_of, opens_view, substituted};
ghost use Rattle.shapes.specs.Declarations.{declaration_at, member_types};
ghost use Rattle.shapes.specs.Instances.{member_over, flattened_over, flattened_map_over, beside_over, form_over, variant_over, body_over};
ghost use Rattle.shapes.specs.Views.{member_view, flattened_view, flattened_map_view, beside_view, form_view, variant_view, body_view, declaration_view};
ghost use Rattle.plainness.specs.declared.unplain.Obstacle.{Obstacle};
ghost use Rattle.plainness.specs.Obstacles.{first_obstacle, TellsObstacle, is_names, is_text, is_open, is_open_struct, is_tagged, is_open_variant, are_open_variants, is_open_map, is_key, leaf_obstacle, type_obstacle, types_obstacle, all_obstacle, is_any_text, field_obstacle, flattened_obstacle, map_obstacle, beside_obstacle, form_obstacle, is_content, can_be_flattened, are_content, content_obstacle, variant_obstacle, variants_obstacle, kept_obstacle, body_obstacle};

use crate::unplain::{Misfit, Obstacle};
use leaves::{Leaf, LeafKind};
use open_types::{ClosedType, OpenType, substitute_first};
use shapes::{
    Beside, Body, Declaration, Flattened, FlattenedMap, Form, Member, Tagging, Variant, has_map,
};
use std::alloc::{AllocError, Global};
use texts::Text;

/// Whether each value is the name of a variant.
fn is_names(body: &Body) -> bool
    ensures { result ≡ is_names (body_view body.now) }
{
    matches!(
        body,
        Body::Units {
            tagging: Tagging::External,
            ..
        }
    )
}

/// Whether the declaration at the place is an enum of which each value is the name of a variant.
fn declares_names(declared: &[Declaration], place: usize) -> bool
    ensures { result ≡ is_names (declaration_at (map declaration_view declared.now) place).body }
{
    match declared.get(place) {
        Some(declaration) => is_names(&declaration.body),
        None => false,
    }
}

/// Whether the values of the built-in name are texts.
fn is_text(leaf: Leaf) -> bool
    ensures { result ≡ is_text (kind_of leaf) }
{
    leaf.kind() == LeafKind::Text
}

/// Whether serde reads a text for the type as a map's key.
fn is_key(declared: &[Declaration], ty: &OpenType) -> bool
    ensures { result ≡ is_key (map declaration_view declared.now) (open_view ty.now) }
{
    match ty {
        OpenType::Leaf(leaf) => is_text(*leaf),
        OpenType::Through(_, of) => is_key(declared, of),
        OpenType::Named(place, _) => declares_names(declared, *place),
        _ => false,
    }
}

fn leaf_obstacle(kind: LeafKind) -> Option<Obstacle>
    ensures { result ≡ leaf_obstacle kind }
{
    match kind {
        LeafKind::Float => Some(Obstacle::Float),
        _ => None,
    }
}

/// What is in the way in a type without parameters.
#[cycle(obstacle)]
fn type_obstacle(declared: &[Declaration], ty: &OpenType) -> Option<Obstacle>
    ensures { result ≡ type_obstacle (map declaration_view declared.now) (open_view ty.now) }
{
    match ty {
        OpenType::Leaf(leaf) => leaf_obstacle(leaf.kind()),
        OpenType::AnyValue | OpenType::FreeObject => None,
        OpenType::Tuple(items) => types_obstacle(declared, items.as_slice()),
        OpenType::Items(_, of) => type_obstacle(declared, of),
        OpenType::Set(_, of) => type_obstacle(declared, of),
        OpenType::Map(_, key, value) => {
            if !is_key(declared, key) {
                return Some(Obstacle::MapKey);
            }
            match type_obstacle(declared, key) {
                Some(obstacle) => Some(obstacle),
                None => type_obstacle(declared, value),
            }
        }
        OpenType::Option(of) => type_obstacle(declared, of),
        OpenType::Through(_, of) => type_obstacle(declared, of),
        OpenType::Named(_, arguments) => types_obstacle(declared, arguments.as_slice()),
        OpenType::Unit | OpenType::Param(_) => Some(Obstacle::Unit),
    }
}

/// What is in the way in the first of the types in which something is.
#[cycle(obstacle)]
fn types_obstacle(declared: &[Declaration], types: &[OpenType]) -> Option<Obstacle>
    ensures { result ≡ types_obstacle (map declaration_view declared.now)
        (opens_of (map open_view types.now)) }
{
    for ty in types {
        if let Some(obstacle) = type_obstacle(declared, ty) {
            return Some(obstacle);
        }
    }
    None
}

/// What is in the way in the type, with the arguments in the places of its parameters.
fn place_obstacle(
    alloc: Global,
    declared: &[Declaration],
    arguments: &[ClosedType],
    ty: &OpenType,
) -> Result<Option<Obstacle>, AllocError>
    ensures { IfOk result (λ obstacle. obstacle ≡ type_obstacle (map declaration_view declared.now)
        (substituted (opens_view arguments.now) (open_view ty.now))) }
{
    let put = substitute_first(alloc, ty, arguments)?;
    Ok(type_obstacle(declared, &put))
}

/// What is in the way in the first of the items in which something is, told of each by the function.
fn first_obstacle<T, F: Fn(&T) -> Result<Option<Obstacle>, AllocError>>(
    items: &[T],
    obstacle_of: F,
) -> Result<Option<Obstacle>, AllocError>
    requires { F.IsAlwaysCallable obstacle_of }
    ensures { IfOk result (λ obstacle. (o : T → Option Obstacle) →
        TellsObstacle (λ item found. FnReturnsAt F.Fn obstacle_of item (Ok found)) o →
        obstacle ≡ first_obstacle o items.now) }
{
    let mut rest = items;
    'items: while let [first, after @ ..] = rest {
        if let Some(obstacle) = obstacle_of(first)? {
            return Ok(Some(obstacle));
        }
        rest = after;
    }
    Ok(None)
}

/// What is in the way in the places of the members.
fn members_obstacle(
    alloc: Global,
    declared: &[Declaration],
    arguments: &[ClosedType],
    members: &[Member],
) -> Result<Option<Obstacle>, AllocError>
    ensures { IfOk result (λ obstacle. obstacle ≡ all_obstacle (map declaration_view declared.now)
        (member_types (map (member_over (opens_view arguments.now))
        (map member_view members.now)))) }
{
    first_obstacle(
        members,
        |member| place_obstacle(alloc, declared, arguments, &member.ty),
    )
}

/// What is in the way in these places.
fn places_obstacle(
    alloc: Global,
    declared: &[Declaration],
    arguments: &[ClosedType],
    types: &[OpenType],
) -> Result<Option<Obstacle>, AllocError>
    ensures { IfOk result (λ obstacle. obstacle ≡ all_obstacle (map declaration_view declared.now)
        (map (substituted (opens_view arguments.now)) (map open_view types.now))) }
{
    first_obstacle(types, |ty| place_obstacle(alloc, declared, arguments, ty))
}

/// That the flattened field of the name is in the way, for this reason.
fn named_misfit(alloc: Global, name: &Text, misfit: Misfit) -> Result<Option<Obstacle>, AllocError>
    ensures { IfOk result (λ obstacle. obstacle ≡ Some (Obstacle.Flattened name.now misfit)) }
{
    Ok(Some(Obstacle::Flattened(name.copy(alloc)?, misfit)))
}

/// Whether others may stand beside the members of a struct or a variant.
fn is_open(denies: bool, beside: &Option<Box<Beside>>) -> bool
    ensures { let b = beside_view denies beside.now in result ≡ is_open b.denies b.map }
{
    !denies && !has_map(beside)
}

/// Whether it is a struct with named fields beside which others may stand.
fn is_open_struct(body: &Body) -> bool
    ensures { result ≡ is_open_struct (body_view body.now) }
{
    match body {
        Body::Fields(
            Form::Named {
                denies_others,
                beside,
                ..
            },
        ) => is_open(*denies_others, beside),
        _ => false,
    }
}

/// Whether the variants have a tag.
fn is_tagged(tagging: &Tagging) -> bool
    ensures { result ≡ is_tagged tagging.now }
{
    match tagging {
        Tagging::Internal { .. } | Tagging::Adjacent { .. } => true,
        Tagging::External | Tagging::Untagged => false,
    }
}

/// Whether others may stand beside the tag and the members of a variant.
fn is_open_variant(tagging: &Tagging, form: &Form) -> bool
    ensures { result ≡ is_open_variant tagging.now (form_view form.now) }
{
    match (tagging, form) {
        (
            Tagging::Internal { .. },
            Form::Named {
                denies_others: denies,
                beside,
                ..
            },
        ) => is_open(*denies, beside),
        _ => true,
    }
}

/// Whether others may stand beside the tag and the members of each variant.
fn are_open_variants(tagging: &Tagging, variants: &[Variant]) -> bool
    ensures { result ≡ are_open_variants tagging.now (map variant_view variants.now) }
{
    for variant in variants {
        if !is_open_variant(tagging, &variant.form) {
            return false;
        }
    }
    true
}

/// Whether it is such a struct, or an enum with a tag and such variants.
fn is_open_map(body: &Body) -> bool
    ensures { result ≡ is_open_map (body_view body.now) }
{
    match body {
        Body::Fields(_) => is_open_struct(body),
        Body::Units { tagging, .. } => is_tagged(tagging),
        Body::Numbers { tagging, .. } => is_tagged(tagging),
        Body::Variants { tagging, variants } => {
            is_tagged(tagging) && are_open_variants(tagging, variants.as_slice())
        }
    }
}

/// Whether the declaration at the place is such a struct or enum.
fn declares_open_map(declared: &[Declaration], place: usize) -> bool
    ensures { result ≡ is_open_map (declaration_at (map declaration_view declared.now) place).body }
{
    match declared.get(place) {
        Some(declaration) => is_open_map(&declaration.body),
        None => false,
    }
}

/// Whether the type is such a struct or enum, passed through perhaps.
fn can_be_flattened(declared: &[Declaration], ty: &OpenType) -> bool
    ensures { result ≡ can_be_flattened (map declaration_view declared.now) (open_view ty.now) }
{
    match ty {
        OpenType::Through(_, of) => can_be_flattened(declared, of),
        OpenType::Named(place, _) => declares_open_map(declared, *place),
        _ => false,
    }
}

/// Whether the type, with the arguments in the places of its parameters, is such a struct or enum.
fn can_be_flattened_over(
    alloc: Global,
    declared: &[Declaration],
    arguments: &[ClosedType],
    ty: &OpenType,
) -> Result<bool, AllocError>
    ensures { IfOk result (λ can. can ≡ can_be_flattened (map declaration_view declared.now)
        (substituted (opens_view arguments.now) (open_view ty.now))) }
{
    let put = substitute_first(alloc, ty, arguments)?;
    Ok(can_be_flattened(declared, &put))
}

/// What is in the way in a flattened field, with the arguments in the places of its type's parameters.
fn field_obstacle(
    alloc: Global,
    declared: &[Declaration],
    arguments: &[ClosedType],
    field: &Flattened,
) -> Result<Option<Obstacle>, AllocError>
    ensures { IfOk result (λ obstacle. obstacle ≡ field_obstacle (map declaration_view declared.now)
        (flattened_over (opens_view arguments.now) (flattened_view field.now))) }
{
    if !can_be_flattened_over(alloc, declared, arguments, &field.ty)? {
        return named_misfit(alloc, &field.name, Misfit::NoOpenMap);
    }
    place_obstacle(alloc, declared, arguments, &field.ty)
}

/// What is in the way in the first of the flattened fields in which something is.
fn flattened_obstacle(
    alloc: Global,
    declared: &[Declaration],
    arguments: &[ClosedType],
    flattened: &[Flattened],
) -> Result<Option<Obstacle>, AllocError>
    ensures { IfOk result
        (λ obstacle. obstacle ≡ flattened_obstacle (map declaration_view declared.now)
        (map (flattened_over (opens_view arguments.now)) (map flattened_view flattened.now))) }
{
    first_obstacle(
        flattened,
        |field| field_obstacle(alloc, declared, arguments, field),
    )
}

/// Whether the type is that of any texts, passed through perhaps.
fn is_any_text(ty: &OpenType) -> bool
    ensures { result ≡ is_any_text (open_view ty.now) }
{
    match ty {
        OpenType::Leaf(leaf) => is_text(*leaf),
        OpenType::Through(_, of) => is_any_text(of),
        _ => false,
    }
}

/// What is in the way in a map that is all that is flattened.
fn map_obstacle(
    alloc: Global,
    declared: &[Declaration],
    arguments: &[ClosedType],
    flattened: &FlattenedMap,
) -> Result<Option<Obstacle>, AllocError>
    ensures { IfOk result (λ obstacle. obstacle ≡ map_obstacle (map declaration_view declared.now)
        (flattened_map_over (opens_view arguments.now) (flattened_map_view flattened.now))) }
{
    if !is_any_text(&substitute_first(alloc, &flattened.key, arguments)?) {
        return named_misfit(alloc, &flattened.name, Misfit::NoTexts);
    }
    place_obstacle(alloc, declared, arguments, &flattened.value)
}

/// What is in the way in what is flattened into the members of a struct that denies others or does not.
fn beside_obstacle(
    alloc: Global,
    declared: &[Declaration],
    arguments: &[ClosedType],
    denies: bool,
    beside: &Option<Box<Beside>>,
) -> Result<Option<Obstacle>, AllocError>
    ensures { let b = beside_over (opens_view arguments.now) (beside_view denies beside.now) in
        IfOk result (λ obstacle. obstacle ≡ beside_obstacle (map declaration_view declared.now)
        b.denies b.flattened b.map) }
{
    let Some(beside) = beside else {
        return Ok(None);
    };
    match (denies, beside.flattened.as_slice(), &beside.map) {
        (_, [], None) => Ok(None),
        (false, [], Some(map)) => map_obstacle(alloc, declared, arguments, map),
        (false, flattened, None) => flattened_obstacle(alloc, declared, arguments, flattened),
        (false, _, Some(map)) => named_misfit(alloc, &map.name, Misfit::NotAlone),
        (true, [], Some(map)) => named_misfit(alloc, &map.name, Misfit::Denied),
        (true, [first, ..], _) => named_misfit(alloc, &first.name, Misfit::Denied),
    }
}

/// What is in the way in the fields of a struct.
fn form_obstacle(
    alloc: Global,
    declared: &[Declaration],
    arguments: &[ClosedType],
    form: &Form,
) -> Result<Option<Obstacle>, AllocError>
    ensures { IfOk result (λ obstacle. obstacle ≡ form_obstacle (map declaration_view declared.now)
        (form_over (opens_view arguments.now) (form_view form.now))) }
{
    match form {
        Form::Named {
            denies_others,
            beside,
            members,
        } => {
            let denies = *denies_others;
            match beside_obstacle(alloc, declared, arguments, denies, beside)? {
                Some(obstacle) => Ok(Some(obstacle)),
                None => members_obstacle(alloc, declared, arguments, members.as_slice()),
            }
        }
        Form::Unnamed(types) => places_obstacle(alloc, declared, arguments, types.as_slice()),
        Form::Unit => Ok(Some(Obstacle::Unit)),
    }
}

/// Whether the declaration at the place is a struct with named fields beside which others may stand.
fn declares_open_struct(declared: &[Declaration], place: usize) -> bool
    ensures { result
        ≡ is_open_struct (declaration_at (map declaration_view declared.now) place).body }
{
    match declared.get(place) {
        Some(declaration) => is_open_struct(&declaration.body),
        None => false,
    }
}

/// Whether the type is such a struct, passed through perhaps.
fn is_content(declared: &[Declaration], ty: &OpenType) -> bool
    ensures { result ≡ is_content (map declaration_view declared.now) (open_view ty.now) }
{
    match ty {
        OpenType::Through(_, of) => is_content(declared, of),
        OpenType::Named(place, _) => declares_open_struct(declared, *place),
        _ => false,
    }
}

/// Whether the type, with the arguments in the places of its parameters, is such a struct.
fn is_content_over(
    alloc: Global,
    declared: &[Declaration],
    arguments: &[ClosedType],
    ty: &OpenType,
) -> Result<bool, AllocError>
    ensures { IfOk result (λ is. is ≡ is_content (map declaration_view declared.now)
        (substituted (opens_view arguments.now) (open_view ty.now))) }
{
    let put = substitute_first(alloc, ty, arguments)?;
    Ok(is_content(declared, &put))
}

/// Whether the types, with the arguments in the places of their parameters, are one such struct.
fn are_content(
    alloc: Global,
    declared: &[Declaration],
    arguments: &[ClosedType],
    types: &[OpenType],
) -> Result<bool, AllocError>
    ensures { IfOk result (λ are. are ≡ are_content (map declaration_view declared.now)
        (map (substituted (opens_view arguments.now)) (map open_view types.now))) }
{
    match types {
        [one] => is_content_over(alloc, declared, arguments, one),
        _ => Ok(false),
    }
}

/// What is in the way of the tag of a variant with these unnamed fields.
fn content_obstacle(
    alloc: Global,
    declared: &[Declaration],
    arguments: &[ClosedType],
    tagging: &Tagging,
    types: &[OpenType],
) -> Result<Option<Obstacle>, AllocError>
    ensures { IfOk result
        (λ obstacle. obstacle ≡ content_obstacle (map declaration_view declared.now) tagging.now
        (map (substituted (opens_view arguments.now)) (map open_view types.now))) }
{
    match tagging {
        Tagging::Internal { .. } => {
            if are_content(alloc, declared, arguments, types)? {
                Ok(None)
            } else {
                Ok(Some(Obstacle::TaggedNewtype))
            }
        }
        _ => Ok(None),
    }
}

/// What is in the way in the fields of a variant.
fn variant_obstacle(
    alloc: Global,
    declared: &[Declaration],
    arguments: &[ClosedType],
    tagging: &Tagging,
    form: &Form,
) -> Result<Option<Obstacle>, AllocError>
    ensures { IfOk result
        (λ obstacle. obstacle ≡ variant_obstacle (map declaration_view declared.now) tagging.now
        (form_over (opens_view arguments.now) (form_view form.now))) }
{
    match form {
        Form::Unit => Ok(None),
        Form::Named { .. } => form_obstacle(alloc, declared, arguments, form),
        Form::Unnamed(types) => {
            let types = types.as_slice();
            match places_obstacle(alloc, declared, arguments, types)? {
                Some(obstacle) => Ok(Some(obstacle)),
                None => content_obstacle(alloc, declared, arguments, tagging, types),
            }
        }
    }
}

/// What is in the way in the first of the variants in which something is.
fn variants_obstacle(
    alloc: Global,
    declared: &[Declaration],
    arguments: &[ClosedType],
    tagging: &Tagging,
    variants: &[Variant],
) -> Result<Option<Obstacle>, AllocError>
    ensures { IfOk result
        (λ obstacle. obstacle ≡ variants_obstacle (map declaration_view declared.now) tagging.now
        (map (variant_over (opens_view arguments.now)) (map variant_view variants.now))) }
{
    first_obstacle(variants, |variant| {
        variant_obstacle(alloc, declared, arguments, tagging, &variant.form)
    })
}

/// What is in the way in an enum that keeps these variants.
fn kept_obstacle<T>(tagging: &Tagging, kept: &[T]) -> Option<Obstacle>
    ensures { result ≡ kept_obstacle tagging.now kept.now }
{
    match (tagging, kept) {
        (Tagging::Untagged, []) => Some(Obstacle::NoVariant),
        _ => None,
    }
}

/// What is in the way in the body, with the arguments in the places of its parameters: the first of it.
pub(crate) fn body_obstacle(
    alloc: Global,
    declared: &[Declaration],
    arguments: &[ClosedType],
    body: &Body,
) -> Result<Option<Obstacle>, AllocError>
    ensures { IfOk result (λ obstacle. obstacle ≡ body_obstacle (map declaration_view declared.now)
        (body_over (opens_view arguments.now) (body_view body.now))) }
{
    match body {
        Body::Fields(form) => form_obstacle(alloc, declared, arguments, form),
        Body::Units { tagging, names } => Ok(kept_obstacle(tagging, names.as_slice())),
        Body::Numbers { tagging, numbers } => Ok(kept_obstacle(tagging, numbers.as_slice())),
        Body::Variants { tagging, variants } => {
            let variants = variants.as_slice();
            match kept_obstacle(tagging, variants) {
                Some(obstacle) => Ok(Some(obstacle)),
                None => variants_obstacle(alloc, declared, arguments, tagging, variants),
            }
        }
    }
}
