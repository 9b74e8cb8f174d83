//! Flattened fields.

ghost use Rattle.std.specs.Prelude.{◌≡◌, ◌∷◌, [], Bool, box_value, map, filter_map, option_map, IfErr, IfOk, None, Some, true};
ghost use Rattle.std.specs.List.{cons_option};
ghost use Rattle.diag.specs.Refusal.{Refuses};
ghost use Rattle.texts.specs.Lists.{Somewhere};
ghost use Rattle.syntax.specs.Items.{field_view};
ghost use Rattle.open_types.specs.Open.{open_view};
ghost use Rattle.shapes.specs.Views.{beside_view, flattened_view, flattened_map_view};
ghost use Rattle.serde_names.specs.Kept.{flattened};
ghost use Rattle.derive_decl.specs.Resolved.{all_of, text_of, typed_of, is_map, maps_among, has_one_map, flattened_fields, map_parts, map_from, beside_from};
ghost use Rattle.derive_decl.specs.Faults.{maps_message, first_map_note, second_map_note, IsFaultyType, IsSecondMap, AreSeveralMaps, AreFaultyFlattened};
ghost use Rattle.derive_decl.specs.Views.{known, typed_view, IsPartOf, IsBesideOf};

use crate::annotations::annotations_of;
use crate::push_some::push_some;
use crate::root::Root;
use diag::{DeriveError, Diagnostics, Kind};
use open_types::OpenType;
use scopes::{Container, resolve};
use serde_names::is_flattened;
use shapes::{Beside, Flattened, FlattenedMap};
use std::alloc::{AllocError, Global};
use syntax::{Field, Ident};
use texts::{List, Text};

/// A field, and what its type stands for.
#[derive(Drop)]
pub(crate) struct TypedField<'a> {
    field: &'a Field,
    ty: OpenType,
}

/// The field with its type resolved, where it is flattened.
fn resolve_field<'a>(
    alloc: Global,
    container: &Container<'_>,
    field: &'a Field,
) -> Result<Option<TypedField<'a>>, DeriveError>
    ensures typed { IfOk result
        (λ f. all_of (typed_of (known container.now)) (flattened (field_view field.now ∷ []))
        ≡ Some (map typed_view (cons_option f []))) }
    ensures refused { Refuses result (λ e. Somewhere (λ f. IsFaultyType (known container.now) f e)
        (flattened (field_view field.now ∷ []))) }
{
    if !is_flattened(alloc, field)? {
        return Ok(None);
    }
    let ty = resolve(alloc, container.scope, &field.ty, container.config)?;
    Ok(Some(TypedField { field, ty }))
}

/// The flattened fields with their types resolved.
fn resolve_fields<'a>(
    alloc: Global,
    container: &Container<'_>,
    fields: &'a [Field],
) -> Result<Vec<TypedField<'a>>, DeriveError>
    ensures typed { IfOk result
        (λ fs. all_of (typed_of (known container.now)) (flattened (map field_view fields.now))
        ≡ Some (map typed_view fs.items)) }
    ensures refused { Refuses result (λ e. Somewhere (λ f. IsFaultyType (known container.now) f e)
        (flattened (map field_view fields.now))) }
{
    let mut typed = Vec::new(alloc);
    for field in fields {
        let found = resolve_field(alloc, container, field)?;
        push_some(&mut typed, found)?;
    }
    Ok(typed)
}

/// Whether the field's type is a map as it stands.
fn is_map(typed: &TypedField<'_>) -> bool
    ensures { result ≡ is_map (typed_view typed.now) }
{
    match &typed.ty {
        OpenType::Map(..) => true,
        _ => false,
    }
}

/// The name of the field.
fn text_of(field: &Field) -> &str
    ensures { result.now ≡ text_of (field_view field.now).ident }
{
    match &field.ident {
        Some(ident) => ident.text.as_str(),
        None => "",
    }
}

/// That the struct or the variant of the name flattens several maps.
fn maps_message(alloc: Global, ident: &Ident) -> Result<Text, AllocError>
    ensures { IfOk result (λ text. text ≡ maps_message ident.now.text) }
{
    Ok(Text::from(format!(in alloc;
        "The structure `{}` contains multiple flattened map fields.",
        ident.text.as_str()
    )?))
}

/// Which of them is the first.
fn first_map_note(alloc: Global, first: &Field) -> Result<Text, AllocError>
    ensures { IfOk result
        (λ text. text ≡ first_map_note (text_of (field_view first.now).ident)) }
{
    Ok(Text::from(format!(in alloc;
        "first flattened map field was declared here as `{}`",
        text_of(first)
    )?))
}

/// Which of them is the second.
fn second_map_note(alloc: Global, second: &Field) -> Result<Text, AllocError>
    ensures { IfOk result
        (λ text. text ≡ second_map_note (text_of (field_view second.now).ident)) }
{
    Ok(Text::from(format!(in alloc;
        "second flattened map field was declared here as `{}`",
        text_of(second)
    )?))
}

/// The refusal of the second of two flattened maps of the struct or the variant of the name.
fn second_map(
    alloc: Global,
    ident: &Ident,
    first: &Field,
    second: &Field,
) -> Result<DeriveError, AllocError>
    ensures { IfOk result
        (IsSecondMap ident.now (field_view first.now) (field_view second.now)) }
{
    let message = maps_message(alloc, ident)?;
    let (one, other) = (
        first_map_note(alloc, first)?,
        second_map_note(alloc, second)?,
    );
    let kind = Kind::FlattenedMaps;
    let refused = Diagnostics::with_span(alloc, kind, second.span, message.as_str())?;
    let noted = refused.note(one.as_str())?.note(other.as_str())?;
    Ok(DeriveError::Refused(noted))
}

/// Refuses the second of these fields that is a map.
fn only_one_map(alloc: Global, ident: &Ident, fields: &[TypedField<'_>]) -> Result<(), DeriveError>
    ensures one { IfOk result (λ _. has_one_map (map typed_view fields.now) ≡ true) }
    ensures refused { Refuses result
        (AreSeveralMaps ident.now (maps_among (map typed_view fields.now))) }
{
    let mut first: Option<&TypedField<'_>> = None;
    for typed in fields {
        if is_map(typed) {
            if let Some(first) = first {
                return Err(second_map(alloc, ident, first.field, typed.field)?);
            }
            first = Some(typed);
        }
    }
    Ok(())
}

/// A flattened field, which is a map or is none.
#[derive(Drop)]
pub(crate) enum Part {
    Field(Flattened),
    Map(FlattenedMap),
}

/// The types of the map's keys and values, or the type that is no map.
fn map_parts(ty: OpenType) -> Result<(OpenType, OpenType), OpenType>
    ensures map { IfOk result
        (λ p. map_parts (open_view ty) ≡ Some (open_view p.0, open_view p.1)) }
    ensures other { IfErr result (λ t. (t ≡ ty) × (map_parts (open_view ty) ≡ None)) }
{
    match ty {
        OpenType::Map(_, key, value) => Ok((Box::into_inner(key), Box::into_inner(value))),
        ty => Err(ty),
    }
}

/// What the field is resolved to.
fn part_of(alloc: Global, typed: TypedField<'_>) -> Result<Part, AllocError>
    ensures { IfOk result (IsPartOf (typed_view typed.entry)) }
{
    let TypedField { field, ty } = typed;
    let name = Text::new(alloc, text_of(field))?;
    let annotations = annotations_of(alloc, field.attrs.as_slice())?;
    match map_parts(ty) {
        Ok((key, value)) => Ok(Part::Map(FlattenedMap {
            name,
            annotations,
            key,
            value,
        })),
        Err(ty) => Ok(Part::Field(Flattened {
            name,
            annotations,
            ty,
        })),
    }
}

/// The fields that are no maps, and the maps.
fn parts_of(
    alloc: Global,
    fields: Vec<TypedField<'_>>,
) -> Result<(List<Flattened>, Vec<FlattenedMap>), AllocError>
    ensures fields { IfOk result (λ parts. map flattened_view parts.0
        ≡ (beside_from true (map typed_view fields.entry.items)).flattened) }
    ensures maps { IfOk result (λ parts. map flattened_map_view parts.1.items
        ≡ filter_map map_from (map typed_view fields.entry.items)) }
{
    let mut flattened = List::new(alloc);
    let mut maps = Vec::new(alloc);
    for field in fields {
        match part_of(alloc, field)? {
            Part::Field(field) => flattened.push(field)?,
            Part::Map(map) => maps.push(map)?,
        }
    }
    Ok((flattened, maps))
}

/// What stands beside members of their own, where these fields are flattened.
fn beside_from(alloc: Global, fields: Vec<TypedField<'_>>) -> Result<Box<Beside>, AllocError>
    ensures { IfOk result (λ b. IsBesideOf (map typed_view fields.entry.items) (box_value b)) }
{
    let (flattened, mut maps) = parts_of(alloc, fields)?;
    let map = maps.pop();
    Ok(Box::new(alloc, Beside { flattened, map })?)
}

/// What is flattened of these fields beside those that have names of their own, where something is.
///
/// A refusal is that of the type of a flattened field, or `FlattenedMaps`, at the second one that is a map.
pub(crate) fn beside_of(
    alloc: Global,
    root: &Root<'_>,
    fields: &[Field],
) -> Result<Option<Box<Beside>>, DeriveError>
    ensures beside { IfOk result (λ b. (denies : Bool) → option_map (beside_from denies)
        (flattened_fields (known root.now.container.now) (map field_view fields.now))
        ≡ Some (beside_view denies b)) }
    ensures refused { Refuses result (AreFaultyFlattened (known root.now.container.now)
        root.now.ident.now (map field_view fields.now)) }
{
    let typed = resolve_fields(alloc, root.container, fields)?;
    if typed.is_empty() {
        return Ok(None);
    }
    only_one_map(alloc, root.ident, typed.as_slice())?;
    Ok(Some(beside_from(alloc, typed)?))
}
