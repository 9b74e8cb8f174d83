//! What words ask for, and why they may ask for nothing.

use selecting::Selection;
use texts::{List, Text};

/// What is answered without any file.
#[derive(Clone, Copy, Debug, PartialEq, Eq)]
pub enum Question {
    /// How to use the program.
    Help,
    /// Which program this is.
    Version,
}

/// An option without a value.
#[derive(Clone, Copy, Debug, PartialEq, Eq)]
pub enum Flag {
    /// `--serde`: declarations that derive serde's traits are selected.
    Serde,
    /// `--strict`: warnings are refusals.
    Strict,
    /// `--any-of`: `anyOf` stands where `oneOf` would.
    AnyOf,
    /// `--pretty`: the document is indented.
    Pretty,
    /// `--skip-refused`: what is refused is left out.
    SkipRefused,
    /// `--not-plain`: what is not plain is warned of.
    NotPlain,
}

/// An option that has a value.
#[derive(Clone, Copy, Debug, PartialEq, Eq)]
pub enum Valued {
    /// `--config`, with the path of a configuration.
    Config,
    /// `--only`, with the name of a declaration.
    Only,
    /// `--exclude`, with the name of a declaration or an alias, or the line where it stands.
    Exclude,
    /// `--stand-in`, with the path of a file that says the JSON of another crate's types.
    StandIn,
    /// `--openapi`, with the path of an OpenAPI document.
    OpenApi,
    /// `--check`, with the path of a document to compare with.
    Check,
}

/// Why words ask for nothing.
#[derive(Debug, Drop)]
pub enum Misuse {
    /// There is no option of this name.
    UnknownOption(Text),
    /// The words end where the option's value is to stand.
    NoValue(Valued),
    /// The option stands twice, and may stand once.
    GivenTwice(Valued),
    /// The input is named twice.
    InputTwice,
    /// No file is named.
    NoFile,
}

/// What words ask for: the document of files.
#[derive(Debug, Drop)]
pub struct Request {
    /// Which of the declarations in the files.
    pub selection: Selection,
    /// Whether warnings are refusals.
    pub strict: bool,
    /// Whether `anyOf` stands where `oneOf` would.
    pub any_of: bool,
    /// Whether the document is indented.
    pub pretty: bool,
    /// The path of the configuration, where one is named.
    pub config: Option<Text>,
    /// The path of the OpenAPI document that the components go into, where one is named.
    pub openapi: Option<Text>,
    /// The path of the document that is compared with, where one is named; nothing is written then.
    pub check: Option<Text>,
    /// The paths of the files, in order, and then those of the stand-ins; `-` is the input.
    pub files: List<Text>,
    /// The paths of stand-ins, until all words are taken.
    pub stand_ins: List<Text>,
}
