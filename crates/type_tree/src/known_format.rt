ghost use Rattle.std.specs.Prelude.{◌≡◌, ◌≢◌, ◌↔◌, IsTrue, IfOk};
ghost use Rattle.leaves.specs.Leaves.{leaf_of};
ghost use Rattle.type_tree.specs.Formats.{format_of};
ghost use Rattle.type_tree.specs.TypeTrees.{schema_path_view, last_name};

use crate::path::SchemaPath;
use leaves::Leaf;
use std::alloc::{AllocError, Global};
use texts::Text;

/// A format of a schema: one that has a name of its own, any other text, or none that is known.
#[derive(Debug, Drop, PartialEq, Eq)]
pub enum KnownFormat {
    Int32,
    Int64,
    Float,
    Double,
    Byte,
    Binary,
    Date,
    DateTime,
    Duration,
    Password,
    Email,
    IdnEmail,
    Hostname,
    IdnHostname,
    Ipv4,
    Ipv6,
    UriTemplate,
    JsonPointer,
    RelativeJsonPointer,
    Regex,
    Custom(Text),
    Unknown,
}

impl KnownFormat {
    /// The format of a built-in name; `Unknown` where it has none, and for every other name.
    pub fn from_path(path: &SchemaPath<'_>) -> KnownFormat
        ensures { result ≡ format_of (leaf_of (last_name (schema_path_view path.now))) }
    {
        match Leaf::named(path.last_name()) {
            None => KnownFormat::Unknown,
            Some(leaf) => format_of_leaf(leaf),
        }
    }

    /// Whether it is any but `Unknown`.
    pub fn is_known_format(&self) -> bool
        ensures { IsTrue result ↔ (self.now ≢ KnownFormat.Unknown) }
    {
        !matches!(self, KnownFormat::Unknown)
    }

    /// Another value of the same format.
    pub fn copy(&self, alloc: Global) -> Result<KnownFormat, AllocError>
        ensures { IfOk result (λ copy. copy ≡ self.now) }
    {
        Ok(match self {
            KnownFormat::Int32 => KnownFormat::Int32,
            KnownFormat::Int64 => KnownFormat::Int64,
            KnownFormat::Float => KnownFormat::Float,
            KnownFormat::Double => KnownFormat::Double,
            KnownFormat::Byte => KnownFormat::Byte,
            KnownFormat::Binary => KnownFormat::Binary,
            KnownFormat::Date => KnownFormat::Date,
            KnownFormat::DateTime => KnownFormat::DateTime,
            KnownFormat::Duration => KnownFormat::Duration,
            KnownFormat::Password => KnownFormat::Password,
            KnownFormat::Email => KnownFormat::Email,
            KnownFormat::IdnEmail => KnownFormat::IdnEmail,
            KnownFormat::Hostname => KnownFormat::Hostname,
            KnownFormat::IdnHostname => KnownFormat::IdnHostname,
            KnownFormat::Ipv4 => KnownFormat::Ipv4,
            KnownFormat::Ipv6 => KnownFormat::Ipv6,
            KnownFormat::UriTemplate => KnownFormat::UriTemplate,
            KnownFormat::JsonPointer => KnownFormat::JsonPointer,
            KnownFormat::RelativeJsonPointer => KnownFormat::RelativeJsonPointer,
            KnownFormat::Regex => KnownFormat::Regex,
            KnownFormat::Custom(name) => KnownFormat::Custom(name.copy(alloc)?),
            KnownFormat::Unknown => KnownFormat::Unknown,
        })
    }
}

fn format_of_leaf(leaf: Leaf) -> KnownFormat
    ensures { result ≡ format_of (Some leaf) }
{
    match leaf {
        Leaf::I8 | Leaf::I16 | Leaf::I32 | Leaf::U8 | Leaf::U16 | Leaf::U32 => KnownFormat::Int32,
        Leaf::I64 | Leaf::U64 => KnownFormat::Int64,
        Leaf::F32 => KnownFormat::Float,
        Leaf::F64 => KnownFormat::Double,
        _ => KnownFormat::Unknown,
    }
}
