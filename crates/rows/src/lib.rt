//! Rows of tests: what a call is given, and what it must answer.
//!
//! A program over rows reads them from its input, makes each call, and prints what differs and how many rows there were.
#![tactic(auto)]

mod error;
pub mod given;
mod program;
mod refusal;
mod row;
mod tally;

pub use error::{Part, RowError};
pub use program::run;
pub use refusal::{refusal_text, report_text};
pub use row::Row;
pub use tally::Tally;
