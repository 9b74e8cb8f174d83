use std::alloc::AllocError;
use std::fmt;
use thiserror::Error;

/// A part of what a row gives.
#[derive(Clone, Copy, Debug)]
pub enum Part {
    /// A member of the name.
    Member(&'static str),
    Text,
    Number,
    List,
    /// A list of two.
    Pair,
}

impl fmt::Display for Part {
    fn fmt<W: fmt::Write>(&self, f: &mut fmt::Formatter<W>) -> fmt::Result {
        match self {
            Part::Member(name) => write!(f, "a member {name}"),
            Part::Text => f.write_str("a text"),
            Part::Number => f.write_str("a number"),
            Part::List => f.write_str("a list"),
            Part::Pair => f.write_str("a list of two"),
        }
    }
}

/// Why a line has no row, or a call no answer.
#[derive(Debug, Drop, Error)]
pub enum RowError {
    #[error("a row is no JSON list of a call's name, what it is given and what it answers: {0}")]
    Form(String),
    #[error("{0} is wanted")]
    Wanted(Part),
    #[error("out of memory")]
    Memory,
}

impl From<AllocError> for RowError {
    ghost use Rattle.std.specs.Prelude.{◌≡◌};
    ghost use Rattle.rows.specs.declared.error.RowError.TheVariants.{Memory};

    ghost from_gives = { λ _ error. error ≡ Memory };

    fn from(_error: AllocError) -> RowError {
        RowError::Memory
    }
}
