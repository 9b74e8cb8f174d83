use crate::serde_trait::SerdeTrait;
use reaching::Node;
use telling::Place;
use texts::{List, Span, Text};

/// A declaration of a struct or an enum in one of several files. It is first where it derives one of the traits by which
/// declarations are chosen, and it names what stands in the types of its fields, but for its own
/// parameters and for fields that serde skips.
#[derive(Debug, Drop)]
pub struct FileItem {
    /// The number of its file, from 0.
    pub file: usize,
    pub declared: Node,
    /// Its own text, from the first attribute or doc comment to the end.
    pub text: Text,
    /// Where that text stands in the file.
    pub place: Place,
    /// The line of its name, from 1.
    pub line: usize,
    /// How many bytes of the file there are up to the end of that text.
    pub end: usize,
    /// The bytes of the file that are not read of that text: the defaults of its parameters, the arguments of `PhantomData`,
    /// fields with names that serde skips, and `repr` where that does nothing to its JSON.
    pub unread: List<Span>,
}

/// An impl of a trait of serde's that is written by hand in one of several files.
#[derive(Debug, Drop)]
pub struct FileImpl {
    /// The number of its file, from 0.
    pub file: usize,
    pub of: SerdeTrait,
    /// The last name of the path of the type that it is for.
    pub name: Text,
    /// Its head, from the word `impl` to the end of what stands before the block.
    pub text: Text,
    /// Where that text stands in the file.
    pub place: Place,
}

/// A name that one of several files gives to a type: by a `type` item, or by `as` in a `use`.
#[derive(Debug, Drop)]
pub struct FileAlias {
    /// The number of its file, from 0.
    pub file: usize,
    /// It is not first, and names what stands in its type.
    pub declared: Node,
    /// Whether a `use` gives the name.
    pub is_import: bool,
    /// The text of the type.
    pub of: Text,
    /// Its own text: from the word `type` to the end of the type, or `B as C`.
    pub text: Text,
    /// Where that text stands in the file.
    pub place: Place,
}
