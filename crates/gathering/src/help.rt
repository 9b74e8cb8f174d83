//! What the reader may do about a fault.

ghost use Rattle.std.specs.Prelude.{◌≡◌, option_map, IfOk};
ghost use Rattle.diag.specs.Diagnostics.{HasFirst};
ghost use Rattle.gathering.specs.Telling.{help_of, unknown_type, declare_help, plain_help, kind_help, entry_help};

use diag::{Diagnostics, Kind, Suggestion};
use std::alloc::{AllocError, Global};
use texts::Text;

/// The text of the first help.
fn help_of(suggestions: &[Suggestion]) -> Option<&Text>
    ensures { option_map (λ text. text.now) result ≡ help_of suggestions.now }
{
    match suggestions {
        [Suggestion::Help(text), ..] => Some(text),
        _ => None,
    }
}

/// The name in the message of an unknown type.
pub fn unknown_type(message: &str) -> Option<&str>
    ensures { option_map (λ name. name.now) result ≡ unknown_type message.now }
{
    match message.strip_prefix("unknown type ") {
        Some(name) => Some(name),
        None => None,
    }
}

/// That a declaration of the name may be added.
fn declare_help(alloc: Global, name: &str) -> Result<Text, AllocError>
    ensures { IfOk result (λ help. help ≡ declare_help name.now) }
{
    let help = format!(in alloc;
        "add a declaration that says its JSON, as `struct {name}(String);`, or the file that declares it; stand_ins/ has types of other crates, and no `type` with parameters is read, nor one in a block"
    )?;
    Ok(Text::from(help))
}

/// What the reader may do about a fault of the kind, whatever is told of it.
fn plain_help(kind: Kind) -> Option<&'static str>
    ensures { option_map (λ help. help.now) result ≡ plain_help kind }
{
    match kind {
        Kind::BadRow => {
            Some("an alias is the text of a type, as it stands behind the `:` of a field")
        }
        Kind::AliasDepth => Some("leave out the alias, and declare a struct of its name"),
        Kind::TooDeep => Some("give an inner type a struct of its own"),
        Kind::Syntax => Some(
            "rewrite it; or leave the declaration out by --exclude PATH:LINE, the line of its name, and add one that says its JSON",
        ),
        Kind::SerdeTag => {
            Some("keep one `tag` or `untagged`, and `content` only beside a `tag`")
        }
        Kind::MissingRow => Some("give it a `rename`"),
        Kind::DuplicateName => Some(
            "rename one; of two under a `cfg`, leave the declaration out by --exclude PATH:LINE, the line of its name, and add it with one of them",
        ),
        Kind::BadArgument => Some("give it a struct of its own"),
        Kind::TypeSize => Some("give a part of it a struct of its own"),
        Kind::TooManyInstances => Some("raise `limit` in the configuration, at most to 4096"),
        Kind::NameClash => Some("rename one of the declarations"),
        Kind::InlineDepth => Some(
            "put a struct with named fields in place of a tuple, of a map's key or of a type argument",
        ),
        Kind::TooManyCopies => Some("raise `copies` in the configuration, at most to 100000"),
        _ => None,
    }
}

/// What the reader may do about an unknown type, by the message.
fn unknown_help(alloc: Global, message: &str) -> Result<Option<Text>, AllocError>
    ensures { IfOk result (λ help. help ≡ option_map declare_help (unknown_type message.now)) }
{
    match unknown_type(message) {
        Some(name) => Ok(Some(declare_help(alloc, name)?)),
        None => Ok(None),
    }
}

/// What the reader may do about a fault of the kind, with this message.
fn kind_help(alloc: Global, kind: Kind, message: &str) -> Result<Option<Text>, AllocError>
    ensures { IfOk result (λ help. help ≡ kind_help kind message.now) }
{
    if kind == Kind::UnknownType {
        return unknown_help(alloc, message);
    }
    match plain_help(kind) {
        Some(help) => Ok(Some(Text::new(alloc, help)?)),
        None => Ok(None),
    }
}

/// What the reader may do about the refusal: its first help, or else what its kind and its message tell.
pub(crate) fn entry_help(alloc: Global, refusal: &Diagnostics) -> Result<Option<Text>, AllocError>
    ensures { IfOk result (λ help. HasFirst refusal.now (λ entry. help ≡ entry_help entry)) }
{
    match help_of(refusal.suggestions()) {
        Some(help) => Ok(Some(help.copy(alloc)?)),
        None => kind_help(alloc, refusal.kind(), refusal.message()),
    }
}
