//! The rules of what is said of serde's items.

ghost use Rattle.std.specs.Prelude.{◌≡◌};
ghost use Rattle.warnings.specs.Rules.{is_of_form, stands_at};

use attributes::SerdeText;

/// The module of `with` that tells an absent member from null.
const DOUBLE_OPTION: &str = "::serde_with::rust::double_option";

/// How an item is written.
#[derive(Clone, Copy, Debug, PartialEq, Eq)]
pub enum Form {
    /// In any form.
    Any,
    /// Without a text, as `rename(..)`.
    NoText,
    /// With the empty text, as `rename = ""`.
    EmptyText,
    /// In any form, but not `with = "::serde_with::rust::double_option"`.
    NoDoubleOption,
}

/// Where an item stands.
#[derive(Clone, Copy, Debug, PartialEq, Eq)]
pub enum Place {
    /// Before a struct with named fields: whether one that is no map is flattened.
    Struct {
        flattens: bool,
    },
    /// Before a struct with unnamed fields, or without fields: whether it has several.
    Tuple {
        several: bool,
    },
    /// Before an enum: whether it has a `content`, and whether a variant that is kept has named fields.
    Enum {
        content: bool,
        named: bool,
    },
    /// Before a variant: whether it has named fields.
    Variant {
        named: bool,
    },
    /// Before a named field: whether others are denied beside it, whether its type is an `Option`, and whether it or what has
    /// it has a `default`.
    Field {
        denied: bool,
        option: bool,
        default: bool,
    },
    /// Before a flattened field: whether others are denied beside it, and whether the schema asks for what its type holds.
    Flattened {
        denied: bool,
        asked: bool,
    },
    /// Before an unnamed field.
    Unnamed,
}

/// The places that a rule is of.
#[derive(Clone, Copy, Debug, PartialEq, Eq)]
pub enum Site {
    /// Structs and enums.
    Declaration,
    /// Structs with named fields.
    Struct,
    /// Structs with a flattened field that is no map.
    FlatteningStruct,
    /// Structs with several unnamed fields.
    SeveralUnnamed,
    /// Enums, and structs and variants with named fields.
    Naming,
    /// Enums of which a variant that is kept has named fields.
    NamedEnum,
    /// Enums with a `content`.
    ContentEnum,
    /// Enums without a `content` of which a variant that is kept has named fields.
    OtherNamedEnum,
    /// Variants.
    Variant,
    /// Named fields that are not flattened.
    Field,
    /// Named fields.
    AnyField,
    /// Named fields beside which others are denied.
    DeniedField,
    /// Named fields that are not flattened, whose type is no `Option`, without `default`.
    NeededField,
    /// Named fields that are not flattened, whose type is an `Option`, without `default`.
    NeededOption,
    /// Flattened fields of which the schema asks for what their type holds.
    AskedFlattened,
}

/// The name of an item, its form, its places, and what is said of it there.
pub type Rule = (&'static str, Form, Site, &'static str);

/// What is said of serde's items.
pub const RULES: [Rule; 33] = [
    (
        "rename",
        Form::NoText,
        Site::Field,
        "`rename(..)` names one direction alone; the schema says the identifier",
    ),
    (
        "rename",
        Form::NoText,
        Site::Variant,
        "`rename(..)` names one direction alone; the schema says the identifier",
    ),
    (
        "rename",
        Form::EmptyText,
        Site::Field,
        "serde gives the empty name; the schema says the identifier",
    ),
    (
        "rename",
        Form::EmptyText,
        Site::Variant,
        "serde gives the empty name; the schema says the identifier",
    ),
    (
        "rename_all",
        Form::NoText,
        Site::Naming,
        "`rename_all(..)` names one direction alone; the schema says the identifiers",
    ),
    (
        "rename_all_fields",
        Form::Any,
        Site::NamedEnum,
        "serde names the fields of variants by it; the schema says the identifiers",
    ),
    (
        "alias",
        Form::Any,
        Site::Field,
        "serde reads a further name; the schema does not describe it",
    ),
    (
        "alias",
        Form::Any,
        Site::Variant,
        "serde reads a further name; the schema refuses it",
    ),
    (
        "other",
        Form::Any,
        Site::Variant,
        "serde reads every other name as this variant; the schema refuses them",
    ),
    (
        "untagged",
        Form::Any,
        Site::Variant,
        "serde reads this variant without a name; the schema asks for its name",
    ),
    (
        "deny_unknown_fields",
        Form::Any,
        Site::ContentEnum,
        "serde refuses other members beside tag and content; the schema accepts them",
    ),
    (
        "deny_unknown_fields",
        Form::Any,
        Site::OtherNamedEnum,
        "serde refuses other members in variants; the schema accepts them",
    ),
    (
        "deny_unknown_fields",
        Form::Any,
        Site::FlatteningStruct,
        "serde refuses members that no field takes; the schema lets them stand",
    ),
    (
        "transparent",
        Form::Any,
        Site::Struct,
        "serde's JSON is that of the field; the schema is an object with this member",
    ),
    (
        "transparent",
        Form::Any,
        Site::SeveralUnnamed,
        "serde's JSON is that of one field; the schema is a list of all",
    ),
    (
        "from",
        Form::Any,
        Site::Declaration,
        "serde reads the JSON of another type; the schema is that of the declaration",
    ),
    (
        "try_from",
        Form::Any,
        Site::Declaration,
        "serde reads the JSON of another type; the schema is that of the declaration",
    ),
    (
        "into",
        Form::Any,
        Site::Declaration,
        "serde writes the JSON of another type; the schema is that of the declaration",
    ),
    (
        "tag",
        Form::Any,
        Site::Struct,
        "serde writes the struct's name as this member, too; the schema does not describe it",
    ),
    (
        "with",
        Form::NoDoubleOption,
        Site::AnyField,
        "serde reads and writes by other functions; the schema is that of the field's type",
    ),
    (
        "serialize_with",
        Form::Any,
        Site::AnyField,
        "serde writes by another function; the schema is that of the field's type",
    ),
    (
        "deserialize_with",
        Form::Any,
        Site::AnyField,
        "serde reads by another function; the schema is that of the field's type",
    ),
    (
        "with",
        Form::NoDoubleOption,
        Site::Variant,
        "serde reads and writes by other functions; the schema is that of the variant's name and fields",
    ),
    (
        "serialize_with",
        Form::Any,
        Site::Variant,
        "serde writes by another function; the schema is that of the variant's name and fields",
    ),
    (
        "deserialize_with",
        Form::Any,
        Site::Variant,
        "serde reads by another function; the schema is that of the variant's name and fields",
    ),
    (
        "skip_serializing",
        Form::Any,
        Site::DeniedField,
        "serde reads this member; the schema refuses it",
    ),
    (
        "skip_deserializing",
        Form::Any,
        Site::DeniedField,
        "serde writes this member; the schema refuses it",
    ),
    (
        "skip_serializing",
        Form::Any,
        Site::Variant,
        "serde reads this variant; the schema refuses it",
    ),
    (
        "skip_deserializing",
        Form::Any,
        Site::Variant,
        "serde writes this variant; the schema refuses it",
    ),
    (
        "skip_serializing_if",
        Form::Any,
        Site::NeededField,
        "serde asks for this member when it reads; the schema does not",
    ),
    (
        "with",
        Form::NoDoubleOption,
        Site::NeededOption,
        "serde asks for this member when it reads; the schema does not",
    ),
    (
        "deserialize_with",
        Form::Any,
        Site::NeededOption,
        "serde asks for this member when it reads; the schema does not",
    ),
    (
        "skip_serializing_if",
        Form::Any,
        Site::AskedFlattened,
        "serde may leave out the members of the type; the schema asks for them",
    ),
];

/// The items that change no JSON where no item is read.
pub const HARMLESS: [&str; 7] = [
    "crate",
    "bound",
    "borrow",
    "expecting",
    "deny_unknown_fields",
    "remote",
    "getter",
];

/// The items beside them that change none before a struct with unnamed fields or without fields, or of which a rule speaks there.
pub const KNOWN_ON_TUPLE: [&str; 5] = ["rename", "from", "try_from", "into", "transparent"];

/// What is said of others before a struct with unnamed fields, or without fields.
pub const UNREAD_ON_TUPLE: &str = "serde's items on a struct with unnamed fields are not read";

/// What is said of others before an unnamed field.
pub const UNREAD_ON_UNNAMED: &str =
    "serde's items on unnamed fields are not read; the schema has all of them";

/// Whether an item with the value has the form.
pub(crate) fn is_of_form(form: Form, value: &Option<SerdeText>) -> bool
    ensures { result ≡ is_of_form form value.now }
{
    match (form, value) {
        (Form::Any, _) => true,
        (Form::NoText, value) => value.is_none(),
        (Form::EmptyText, Some(literal)) => literal.text.as_str().is_empty(),
        (Form::EmptyText, None) => false,
        (Form::NoDoubleOption, Some(literal)) => literal.text.as_str() != DOUBLE_OPTION,
        (Form::NoDoubleOption, None) => true,
    }
}

/// Whether the place is one of the site.
pub(crate) fn stands_at(site: Site, place: Place) -> bool
    ensures { result ≡ stands_at site place }
{
    match (site, place) {
        (Site::Declaration, Place::Struct { .. } | Place::Tuple { .. } | Place::Enum { .. }) =>
            true,
        (Site::Struct, Place::Struct { .. }) => true,
        (Site::FlatteningStruct, Place::Struct { flattens }) => flattens,
        (Site::SeveralUnnamed, Place::Tuple { several }) => several,
        (Site::Naming, Place::Struct { .. } | Place::Enum { .. }) => true,
        (Site::Naming, Place::Variant { named }) => named,
        (Site::NamedEnum, Place::Enum { named, .. }) => named,
        (Site::ContentEnum, Place::Enum { content, .. }) => content,
        (Site::OtherNamedEnum, Place::Enum { content, named }) => !content && named,
        (Site::Variant, Place::Variant { .. }) => true,
        (Site::Field, Place::Field { .. }) => true,
        (Site::AnyField, Place::Field { .. } | Place::Flattened { .. }) => true,
        (Site::DeniedField, Place::Field { denied, .. } | Place::Flattened { denied, .. }) =>
            denied,
        (
            Site::NeededField,
            Place::Field {
                option,
                default,
                ..
            },
        ) => !option && !default,
        (
            Site::NeededOption,
            Place::Field {
                option,
                default,
                ..
            },
        ) => option && !default,
        (Site::AskedFlattened, Place::Flattened { asked, .. }) => asked,
        _ => false,
    }
}
