//! Which instances are plain, so that the component of each accepts exactly the JSON that serde reads for it; and why others
//! are not.
#![tactic(auto)]

mod edges;
mod find;
mod law;
mod obstacle;
mod origins;
mod turned;
mod unplain;

pub use find::unplain_instances;
pub use law::obstacles_are_exact;
pub use unplain::{Misfit, Obstacle, Reason, Unplain};
