//! What the reader may do about the faults of declarations.

ghost use Rattle.std.specs.Prelude.{◌≡◌, option_map, option_and_then, slice_get, IfOk, Some};
ghost use Rattle.diag.specs.Diagnostics.{HasFirst};
ghost use Rattle.syntax.specs.Items.{declaration_view};
ghost use Rattle.scopes.specs.Names.{place_among};
ghost use Rattle.derive_decl.specs.Attributed.{first_feature};
ghost use Rattle.gathering.specs.Telling.{unknown_type};
ghost use Rattle.file_derivation.specs.Helps.{first_help, second_help, feature_help, excluded_help, arity_help, around_help, told_fault, origin_around, declared_around};

use derive_decl::{Feature, first_feature};
use diag::{Diagnostics, Kind};
use gathering::{file_name, told_by, unknown_type};
use prepare::{FileItem, is_in};
use scopes::Places;
use std::alloc::{AllocError, Global};
use syntax::Declaration;
use telling::{Told, place_in};
use texts::Text;

/// Declarations, and what they are read from.
#[derive(Clone, Copy)]
pub(crate) struct Around<'a> {
    /// The names of the files.
    pub(crate) names: &'a [Text],
    /// The names that are excluded.
    pub(crate) excluded: &'a [Text],
    /// Of each declaration that from whose text it is read.
    pub(crate) from: &'a [&'a FileItem],
    /// The declarations, by their names.
    pub(crate) places: &'a Places<'a>,
}

/// That the declaration, which is read from the item, has its name first.
fn first_text(
    alloc: Global,
    around: &Around<'_>,
    declaration: &Declaration,
    item: &FileItem,
) -> Result<Option<Text>, AllocError>
    ensures { IfOk result (λ help. help ≡ first_help (origin_around around.now)
        (Some (declaration_view declaration.now)) (Some item.now)) }
{
    let name = file_name(around.names, item.file);
    let offset = declaration.ident.span.start;
    let place = place_in(alloc, name, &item.place, item.text.as_str(), offset)?;
    let help = format!(in alloc;
        "the first stands at {}; leave one out by --exclude PATH:LINE",
        place.as_str()
    )?;
    Ok(Some(Text::from(help)))
}

/// That the declaration at this place is the first of its name, where there is one.
fn first_help(alloc: Global, around: &Around<'_>, first: usize) -> Result<Option<Text>, AllocError>
    ensures { IfOk result (λ help. help ≡ first_help (origin_around around.now)
        (slice_get (declared_around around.now) first)
        (slice_get (origin_around around.now).from first)) }
{
    let declarations = around.places.declarations.items.as_slice();
    match (declarations.get(first), around.from.get(first)) {
        (Some(declaration), Some(item)) => first_text(alloc, around, declaration, item),
        _ => Ok(None),
    }
}

/// Which declaration is the first of the name of the one at the place, where that is another.
fn second_help(
    alloc: Global,
    around: &Around<'_>,
    at: usize,
    declaration: &Declaration,
) -> Result<Option<Text>, AllocError>
    ensures { IfOk result (λ help. help ≡ option_and_then
        (second_help (origin_around around.now) (declared_around around.now) at)
        (place_among (declared_around around.now) declaration.now.ident.text)) }
{
    match around.places.place_of(&declaration.ident) {
        Some(first) if first != at => first_help(alloc, around, first),
        _ => Ok(None),
    }
}

/// That the feature is not built.
fn feature_help(alloc: Global, feature: Feature) -> Result<Text, AllocError>
    ensures { IfOk result (λ help. help ≡ feature_help feature) }
{
    let help = format!(in alloc; "`{}` is not built", feature.name())?;
    Ok(Text::from(help))
}

/// Which feature the declaration asks for that is not built.
fn built_help(alloc: Global, declaration: &Declaration) -> Result<Option<Text>, AllocError>
    ensures { IfOk result (λ help. help
        ≡ option_map feature_help (first_feature (declaration_view declaration.now))) }
{
    match first_feature(declaration) {
        Some(feature) => Ok(Some(feature_help(alloc, feature)?)),
        None => Ok(None),
    }
}

/// That the name is excluded, where it is.
fn excluded_help(alloc: Global, around: &Around<'_>, name: &str) -> Result<Option<Text>, AllocError>
    ensures { IfOk result (λ help. help ≡ excluded_help (origin_around around.now) name.now) }
{
    if !is_in(name, around.excluded) {
        return Ok(None);
    }
    let help = format!(in alloc; "{name} is excluded by --exclude")?;
    Ok(Some(Text::from(help)))
}

/// That the type in the message is excluded, where it is.
fn unknown_help(
    alloc: Global,
    around: &Around<'_>,
    message: &str,
) -> Result<Option<Text>, AllocError>
    ensures { IfOk result (λ help. help ≡ option_and_then
        (excluded_help (origin_around around.now)) (unknown_type message.now)) }
{
    match unknown_type(message) {
        Some(name) => excluded_help(alloc, around, name),
        None => Ok(None),
    }
}

/// What the reader may do about a wrong number of type arguments, or about a tuple form without a field, by the message.
fn arity_help(message: &str) -> &'static str
    ensures { result.now ≡ arity_help message.now }
{
    if message == "a tuple form without a field" {
        return "give it a field of the type `[u8; 0]`: its JSON, too, is the empty array";
    }
    "write each of its type arguments, also one that has a default; an alias has none"
}

/// What the reader may do about the fault of the declaration at the place, by what is around it.
fn around_help(
    alloc: Global,
    around: &Around<'_>,
    at: usize,
    declaration: &Declaration,
    refusal: &Diagnostics,
) -> Result<Option<Text>, AllocError>
    ensures { IfOk result (λ help. HasFirst refusal.now (λ entry. help
        ≡ around_help (origin_around around.now) (declared_around around.now) at
        (declaration_view declaration.now) entry.kind entry.message)) }
{
    match refusal.kind() {
        Kind::DuplicateName => second_help(alloc, around, at, declaration),
        Kind::Syntax => built_help(alloc, declaration),
        Kind::UnknownType => unknown_help(alloc, around, refusal.message()),
        Kind::Arity => Ok(Some(Text::new(alloc, arity_help(refusal.message()))?)),
        Kind::FlattenedMaps => {
            Ok(Some(Text::new(alloc, "flatten one map; give the other field a name")?))
        }
        _ => Ok(None),
    }
}

/// What is told of the fault of the declaration at the place, which is read from the item.
pub(crate) fn told_fault(
    alloc: Global,
    around: &Around<'_>,
    at: usize,
    declaration: &Declaration,
    item: &FileItem,
    refusal: &Diagnostics,
) -> Result<Told, AllocError>
    ensures { IfOk result (λ told. told
        ≡ told_fault (origin_around around.now) (declared_around around.now) at
        (declaration_view declaration.now) item.now refusal.now) }
{
    let name = file_name(around.names, item.file);
    let mut told = told_by(alloc, name, &item.place, item.text.as_str(), refusal)?;
    if let Some(help) = around_help(alloc, around, at, declaration, refusal)? {
        told.help = Some(help);
    }
    Ok(told)
}
