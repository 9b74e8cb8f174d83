//! Diagnostics, refusals and rename rules, beside the texts, lists and byte spans that they speak of.
#![tactic(auto)]

mod diagnostics;
mod error;
mod kind;
mod law;
mod rename_row;
mod rename_rule;
mod rename_table;
mod suggestion;

pub use diagnostics::{Diagnostics, DiangosticsInner};
pub use error::DeriveError;
pub use kind::Kind;
pub use law::kinds_and_rules_are_equal;
pub use rename_row::{RenamePlace, RenameRow};
pub use rename_rule::{RenameRule, UnknownRule, rules_have_own_names};
pub use rename_table::RenameTable;
pub use suggestion::{Suggestion, suggestions_are_ordered};
pub use texts::{List, Span, Text};
