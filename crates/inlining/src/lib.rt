//! Instances whose schemas stand in those of others: how deep they are inlined, in which order they can be made, how many
//! copies stand in all, which are shown, and which are components.
#![tactic(auto)]

mod copies;
mod law;
mod order;
mod shown;

pub use copies::are_more_copies;
pub use law::orders_stand;
pub use order::{Depth, inline_order};
pub use shown::{Shown, find_shown};
