// The order of a pass of the elimination: the redundancies of the roles, and the foremost of those left.
#![tactic(auto)]

mod front;
mod ranks;
mod redundancy;
mod worklist;

pub use front::{Front, foremost};
pub use ranks::{Ranks, fill_ranks};
pub use worklist::strikable_roles;
