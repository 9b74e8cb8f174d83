//! Which of the declarations of files are selected, and which of their aliases with them.
#![tactic(auto)]

mod clashes;
mod derives;
mod elsewhere;
mod imports;
mod known;
mod law;
mod nodes;
mod selected;
mod selection;
mod standing;
mod types;

pub use clashes::{clash_lines, told_deep};
pub use elsewhere::Elsewhere;
pub use known::{unknown_exclude, unknown_only};
pub use law::one_selecting;
pub use selected::{Selected, select};
pub use selection::Selection;
