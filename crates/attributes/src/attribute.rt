ghost use Rattle.std.specs.Prelude.{◌≡◌};
ghost use Rattle.written_types.specs.Written.{path_view, segments_view};
ghost use Rattle.attributes.specs.Attributes.{is_only, is_word};

use crate::serde_item::SerdeItem;
use texts::{List, Span, Text};
use tokens::{Group, TokenTree};
use written_types::{Path, PathSegment};

/// What stands behind an attribute's path.
#[derive(Debug, Drop)]
#[derive_where(PartialEq, Eq)]
pub enum Meta {
    /// Nothing, as in `#[deprecated]`.
    Word,
    /// What follows `=`, at least one tree.
    NameValue(List<TokenTree>),
    /// A group, as in `#[serde(default)]`.
    Items(Group),
    /// The text of a doc comment: what follows its first three characters, without a closing `*/`.
    Doc(Text),
}

/// An attribute. The path of a doc comment is `doc`. The span goes from `#` to the closing bracket, or is the whole
/// comment. The items are those of the list behind `serde`; other attributes have none. Two are equal where they say the
/// same, by text.
#[derive(Debug, Drop)]
#[derive_where(PartialEq, Eq)]
pub struct Attribute {
    pub path: Path,
    pub meta: Meta,
    pub items: List<SerdeItem>,
    #[derive_where(skip(EqHashOrd))]
    pub span: Span,
}

/// Whether the only segment is the word, without arguments.
fn is_only(segments: &[PathSegment], word: &str) -> bool
    ensures { result ≡ is_only word.now (segments_view segments.now) }
{
    match segments {
        [segment] => match &segment.arguments {
            None => segment.ident.text.as_str() == word,
            Some(_) => false,
        },
        _ => false,
    }
}

/// Whether the path is the word alone.
pub(crate) fn is_word(path: &Path, word: &str) -> bool
    ensures { result ≡ is_word word.now (path_view path.now) }
{
    !path.leading && is_only(path.segments.as_slice(), word)
}

impl Attribute {
    /// Whether the path is the word alone, as `serde` in `#[serde(default)]`.
    pub fn is(&self, word: &str) -> bool
        ensures { result ≡ is_word word.now (path_view self.now.path) }
    {
        is_word(&self.path, word)
    }
}
