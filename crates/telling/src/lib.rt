//! How faults of many files are told, as compilers tell them: where a part of a file stands in it, the line of a fault
//! and marks under it.
#![tactic(auto)]

mod law;
mod marked;
mod part;
mod position;
mod printing;
mod told;

pub use law::{parts_tell_of_their_files, reports_command_nothing};
pub use marked::{place_in, place_text, told_in};
pub use part::{Place, Places};
pub use position::{Position, place};
pub use printing::printable;
pub use told::{Shown, Told, all_told, first_told, told_text};
