//! What is said of the types of fields.

ghost use Rattle.std.specs.Prelude.{◌≡◌, ◌++◌, map, OnOk};
ghost use Rattle.texts.specs.Names.{is_in};
ghost use Rattle.written_types.specs.Written.{written_view};
ghost use Rattle.serde_rules.specs.Value.{is_required};
ghost use Rattle.warnings.specs.Rules.{warning_view};
ghost use Rattle.warnings.specs.Through.{declarations_of};
ghost use Rattle.warnings.specs.Types.{maps, span_of, is_number, is_number_type, is_number_key, is_option, holds_option, is_option_of_option, option_warnings};

use crate::through::{Role, first_argument, last_name, through};
use crate::warning::Warning;
use leaves::{Leaf, LeafKind};
use scopes::Places;
use serde_rules::SerdeValue;
use std::alloc::AllocError;
use texts::{List, Span};
use written_types::WrittenType;

/// What is said of a member that is asked for, and whose type is no `Option`, but stands for one.
pub const NONE_WHERE_MISSING: &str =
    "serde takes a missing member for None; the schema asks for it";

/// What is said of a member whose type is an `Option` of an `Option` that tells an absent member from null.
pub const MISSING_IS_NULL: &str = "null and a missing member are one to the schema";

/// The bytes of a type without the references around it.
pub(crate) fn span_of(ty: &WrittenType) -> Span
    ensures { result ≡ span_of (written_view ty.now) }
{
    match ty {
        WrittenType::Path(path) => path.span,
        WrittenType::Reference(of) => span_of(of),
        WrittenType::Tuple(_, span)
        | WrittenType::Slice(_, span)
        | WrittenType::Array(_, span)
        | WrittenType::TraitObject(_, span) => *span,
    }
}

/// Whether the name is that of a map.
pub(crate) fn is_map(name: &str) -> bool
    ensures { result ≡ is_in name.now maps }
{
    matches!(name, "HashMap" | "BTreeMap" | "Map" | "IndexMap")
}

/// Whether the name is that of a number, or of the truth values.
fn is_number(name: &str) -> bool
    ensures { result ≡ is_number name.now }
{
    match Leaf::named(name) {
        Some(leaf) => leaf.kind() != LeafKind::Text,
        None => false,
    }
}

/// Whether the type is that of numbers, or of the truth values.
fn is_number_type(ty: &WrittenType) -> bool
    ensures { result ≡ is_number_type (written_view ty.now) }
{
    match last_name(ty) {
        Some(name) => is_number(name),
        None => false,
    }
}

/// Whether the type of a key stands for that of numbers, or of the truth values.
pub(crate) fn is_number_key(places: &Places<'_>, key: &WrittenType) -> bool
    ensures { result ≡ is_number_key (declarations_of places.now) (written_view key.now) }
{
    is_number_type(through(Role::Key, places, key))
}

/// Whether the type is an `Option`.
pub(crate) fn is_option(ty: &WrittenType) -> bool
    ensures { result ≡ is_option (written_view ty.now) }
{
    match last_name(ty) {
        Some(name) => name == "Option",
        None => false,
    }
}

/// Whether the type is no `Option`, but stands for one.
pub(crate) fn holds_option(places: &Places<'_>, ty: &WrittenType) -> bool
    ensures { result ≡ holds_option (declarations_of places.now) (written_view ty.now) }
{
    !is_option(ty) && is_option(through(Role::Member, places, ty))
}

/// Whether the type is an `Option` of an `Option`.
pub(crate) fn is_option_of_option(ty: &WrittenType) -> bool
    ensures { result ≡ is_option_of_option (written_view ty.now) }
{
    match first_argument(ty) {
        Some(of) => is_option(ty) && is_option(of),
        None => false,
    }
}

/// Whether the member of a field must be there, in what has a `default` or not.
pub(crate) fn is_required(value: &SerdeValue, default: bool) -> bool
    ensures { result ≡ is_required value.now default }
{
    !(value.skip_serializing_if || value.double_option || value.default || default)
}

/// Adds what is said of the type of a member that is asked for, and tells an absent member from null, or not.
pub(crate) fn push_option(
    warnings: &mut List<Warning>,
    places: &Places<'_>,
    required: bool,
    double_option: bool,
    ty: &WrittenType,
) -> Result<(), AllocError>
    ensures { OnOk result (map warning_view warnings.new ≡ map warning_view warnings.old
        ++ option_warnings (declarations_of places.now) required double_option
        (written_view ty.now)) }
{
    let span = span_of(ty);
    if required && holds_option(places, ty) {
        return warnings.push(Warning {
            span,
            message: NONE_WHERE_MISSING,
        });
    }
    if double_option && is_option_of_option(ty) {
        return warnings.push(Warning {
            span,
            message: MISSING_IS_NULL,
        });
    }
    Ok(())
}
