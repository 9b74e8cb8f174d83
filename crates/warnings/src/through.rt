//! What written types stand for to serde, which passes over references, pointers and structs with one unnamed field. Names
//! are looked up among the declarations, of which the first of the name counts. Neither aliases nor type parameters are
//! looked up: a type parameter that is called as a declaration is taken for it, and a struct `Id<T>(T)` stands for `T`,
//! whatever its argument is.

ghost use Rattle.std.specs.Prelude.{◌≡◌, option_map};
ghost use Rattle.texts.specs.Names.{is_in};
ghost use Rattle.written_types.specs.Written.{written_view, segment_view, segments_view, arguments_view};
ghost use Rattle.syntax.specs.Items.{field_view, body_view, declaration_view};
ghost use Rattle.warnings.specs.Through.{last_segment, last_of, last_name, argument_in, argument_of, first_argument, pointers, declarations_of, only_field, is_passed_over, content_of, declared, next_of_segment, next, through};

use scopes::Places;
use serde_rules::stands_before;
use syntax::{Body, Declaration, Field, Fields};
use written_types::{GenericArgument, Ident, PathSegment, WrittenType};

/// How many references, pointers and structs are passed over, at most. Written types nest no deeper. A ring of structs ends
/// there, and so does a longer chain of structs.
pub(crate) const DEPTH: usize = 64;

/// What a type is that of.
#[derive(Clone, Copy)]
pub(crate) enum Role {
    /// The key of a map. serde writes it through references, pointers and structs with one unnamed field.
    Key,
    /// A member. Where it is missing, serde asks through pointers, and through such structs that are `transparent`.
    Member,
}

/// The segment that a path goes by.
fn last_segment(segments: &[PathSegment]) -> Option<&PathSegment>
    ensures { option_map (λ s. segment_view s.now) result
        ≡ last_segment (segments_view segments.now) }
{
    match segments {
        [] => None,
        [.., segment] => Some(segment),
    }
}

/// The first type among the arguments.
fn argument_in(arguments: &[GenericArgument]) -> Option<&WrittenType>
    ensures { option_map (λ t. written_view t.now) result
        ≡ argument_in (arguments_view arguments.now) }
{
    for argument in arguments {
        if let GenericArgument::Ty(ty) = argument {
            return Some(ty);
        }
    }
    None
}

/// The first type argument of the segment.
pub(crate) fn argument_of(segment: &PathSegment) -> Option<&WrittenType>
    ensures { option_map (λ t. written_view t.now) result ≡ argument_of (segment_view segment.now) }
{
    argument_in(segment.arguments.as_ref()?.as_slice())
}

/// The segment that a type goes by, where it is a path.
pub(crate) fn last_of(ty: &WrittenType) -> Option<&PathSegment>
    ensures { option_map (λ s. segment_view s.now) result ≡ last_of (written_view ty.now) }
{
    match ty {
        WrittenType::Path(path) => last_segment(path.segments.as_slice()),
        _ => None,
    }
}

/// The name that a type goes by, where it is a path.
pub(crate) fn last_name(ty: &WrittenType) -> Option<&str>
    ensures { option_map (λ name. name.now) result ≡ last_name (written_view ty.now) }
{
    Some(last_of(ty)?.ident.text.as_str())
}

/// The first type argument of a type.
pub(crate) fn first_argument(ty: &WrittenType) -> Option<&WrittenType>
    ensures { option_map (λ t. written_view t.now) result ≡ first_argument (written_view ty.now) }
{
    argument_of(last_of(ty)?)
}

/// Whether the name is that of a pointer or of a cell that serde passes over.
fn is_pointer(name: &str) -> bool
    ensures { result ≡ is_in name.now pointers }
{
    matches!(name, "Box" | "Rc" | "Arc" | "Cow" | "RefCell")
}

/// The only unnamed field of a struct.
pub(crate) fn only_field(body: &Body) -> Option<&Field>
    ensures { option_map (λ f. field_view f.now) result ≡ only_field (body_view body.now) }
{
    let Body::Struct(Fields::Unnamed(fields)) = body else {
        return None;
    };
    match fields.as_slice() {
        [field] => Some(field),
        _ => None,
    }
}

/// Whether serde passes over the struct, if it has one unnamed field.
fn is_passed_over(role: Role, declaration: &Declaration) -> bool
    ensures { result ≡ is_passed_over role (declaration_view declaration.now) }
{
    match role {
        Role::Key => true,
        Role::Member => stands_before(declaration.attrs.as_slice(), "transparent"),
    }
}

/// The type that the declaration stands for, if serde passes over it.
fn content_of(role: Role, declaration: &Declaration) -> Option<&WrittenType>
    ensures { option_map (λ t. written_view t.now) result
        ≡ content_of role (declaration_view declaration.now) }
{
    if is_passed_over(role, declaration) {
        Some(&only_field(&declaration.body)?.ty)
    } else {
        None
    }
}

/// The first declaration of the name.
pub(crate) fn declared<'a>(places: &'a Places<'_>, name: &Ident) -> Option<&'a Declaration>
    ensures { option_map (λ d. declaration_view d.now) result
        ≡ declared (declarations_of places.now) name.now.text }
{
    let place = places.place_of(name)?;
    places.declarations.items.as_slice().get(place)
}

/// The type that a path with this last segment stands for, if serde passes over it.
fn next_of_segment<'a>(
    role: Role,
    places: &'a Places<'_>,
    segment: &'a PathSegment,
) -> Option<&'a WrittenType>
    ensures { option_map (λ t. written_view t.now) result ≡ next_of_segment role
        (declarations_of places.now) (segment_view segment.now) }
{
    if is_pointer(segment.ident.text.as_str()) {
        argument_of(segment)
    } else {
        content_of(role, declared(places, &segment.ident)?)
    }
}

/// The type that the type stands for, if serde passes over it.
fn next<'a>(role: Role, places: &'a Places<'_>, ty: &'a WrittenType) -> Option<&'a WrittenType>
    ensures { option_map (λ t. written_view t.now) result
        ≡ next role (declarations_of places.now) (written_view ty.now) }
{
    match (role, ty) {
        (Role::Key, WrittenType::Reference(of)) => Some(of),
        _ => next_of_segment(role, places, last_of(ty)?),
    }
}

/// What the type stands for, behind all that serde passes over, `DEPTH` of them at most.
pub(crate) fn through<'a>(
    role: Role,
    places: &'a Places<'_>,
    ty: &'a WrittenType,
) -> &'a WrittenType
    ensures { written_view result.now ≡ through role
        (declarations_of places.now) DEPTH (written_view ty.now) }
{
    let mut of = ty;
    for _passed in 0..DEPTH {
        match next(role, places, of) {
            Some(inner) => of = inner,
            None => return of,
        }
    }
    of
}
