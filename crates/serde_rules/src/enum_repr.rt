//! How enums are represented.

ghost use Rattle.std.specs.Prelude.{◌≡◌, ◌⊎◌, codes, IfOk};
ghost use Rattle.diag.specs.Refusal.{IsRefusal, Refuses};
ghost use Rattle.serde_rules.specs.Container.{with_tag, with_content, with_item, IsTagRefusal};

use crate::items::{is_named, literal_for};
use attributes::{SerdeItem, SerdeText};
use diag::{DeriveError, Kind};
use std::alloc::{AllocError, Global};
use texts::Text;

/// How the values of an enum are represented. The default is what holds without attributes.
#[derive(Debug, Default, Drop, PartialEq, Eq)]
pub enum SerdeEnumRepr {
    /// An object with the variant's name as its only member's name.
    #[default]
    ExternallyTagged,
    /// The variant's name is the value of a member among the others.
    InternallyTagged { tag: Text },
    /// The variant's name is the value of one member, and what the variant holds that of another.
    AdjacentlyTagged { tag: Text, content: Text },
    /// What the variant holds, without its name.
    Untagged,
    /// A content is named and no tag, as it is up to the tag of an adjacently tagged enum.
    UnfinishedAdjacentlyTagged { content: Text },
}

impl SerdeEnumRepr {
    /// Another representation with equal fields.
    pub fn copy(&self, alloc: Global) -> Result<SerdeEnumRepr, AllocError>
        ensures { IfOk result (λ copy. copy ≡ self.now) }
    {
        match self {
            SerdeEnumRepr::ExternallyTagged => Ok(SerdeEnumRepr::ExternallyTagged),
            SerdeEnumRepr::InternallyTagged { tag } => {
                let tag = tag.copy(alloc)?;
                Ok(SerdeEnumRepr::InternallyTagged { tag })
            }
            SerdeEnumRepr::AdjacentlyTagged { tag, content } => {
                let tag = tag.copy(alloc)?;
                let content = content.copy(alloc)?;
                Ok(SerdeEnumRepr::AdjacentlyTagged { tag, content })
            }
            SerdeEnumRepr::Untagged => Ok(SerdeEnumRepr::Untagged),
            SerdeEnumRepr::UnfinishedAdjacentlyTagged { content } => {
                let content = content.copy(alloc)?;
                Ok(SerdeEnumRepr::UnfinishedAdjacentlyTagged { content })
            }
        }
    }
}

/// The refusal at the literal.
pub fn refusal(alloc: Global, kind: Kind, literal: &SerdeText, message: &str) -> DeriveError
    ensures { (result ≡ DeriveError.Memory) ⊎ IsRefusal kind literal.now.span message.now result }
{
    DeriveError::refusal(alloc, kind, literal.span, message)
}

/// The representation after `tag = ..`.
fn with_tag(
    alloc: Global,
    repr: SerdeEnumRepr,
    literal: &SerdeText,
) -> Result<SerdeEnumRepr, DeriveError>
    ensures next { IfOk result (λ next. with_tag literal.now repr ≡ Ok next) }
    ensures refused { Refuses result (IsTagRefusal (with_tag literal.now repr)) }
{
    let message = match repr {
        SerdeEnumRepr::ExternallyTagged => {
            let tag = literal.text.copy(alloc)?;
            return Ok(SerdeEnumRepr::InternallyTagged { tag });
        }
        SerdeEnumRepr::UnfinishedAdjacentlyTagged { content } => {
            let tag = literal.text.copy(alloc)?;
            return Ok(SerdeEnumRepr::AdjacentlyTagged { tag, content });
        }
        SerdeEnumRepr::InternallyTagged { .. } | SerdeEnumRepr::AdjacentlyTagged { .. } => {
            "Duplicate serde tag argument"
        }
        SerdeEnumRepr::Untagged => "Untagged enum cannot have tag",
    };
    Err(refusal(alloc, Kind::SerdeTag, literal, message))
}

/// The representation after `content = ..`.
fn with_content(
    alloc: Global,
    repr: SerdeEnumRepr,
    literal: &SerdeText,
) -> Result<SerdeEnumRepr, DeriveError>
    ensures next { IfOk result (λ next. with_content literal.now repr ≡ Ok next) }
    ensures refused { Refuses result (IsTagRefusal (with_content literal.now repr)) }
{
    let message = match repr {
        SerdeEnumRepr::ExternallyTagged => {
            let content = literal.text.copy(alloc)?;
            return Ok(SerdeEnumRepr::UnfinishedAdjacentlyTagged { content });
        }
        SerdeEnumRepr::InternallyTagged { tag } => {
            let content = literal.text.copy(alloc)?;
            return Ok(SerdeEnumRepr::AdjacentlyTagged { tag, content });
        }
        SerdeEnumRepr::UnfinishedAdjacentlyTagged { .. } | SerdeEnumRepr::AdjacentlyTagged { .. } =>
            "Duplicate serde content argument",
        SerdeEnumRepr::Untagged => "Untagged enum cannot have content",
    };
    Err(refusal(alloc, Kind::SerdeTag, literal, message))
}

/// The representation after the item.
pub fn with_item(
    alloc: Global,
    repr: SerdeEnumRepr,
    item: &SerdeItem,
) -> Result<SerdeEnumRepr, DeriveError>
    ensures next { IfOk result (λ next. with_item item.now repr ≡ Ok next) }
    ensures refused { Refuses result (IsTagRefusal (with_item item.now repr)) }
{
    if is_named(item, "untagged") {
        return Ok(SerdeEnumRepr::Untagged);
    }
    if let Some(literal) = literal_for(item, "tag") {
        return with_tag(alloc, repr, literal);
    }
    match literal_for(item, "content") {
        Some(literal) => with_content(alloc, repr, literal),
        None => Ok(repr),
    }
}
