// Whether roles can be struck: which grants are covered by which roles.
#![tactic(auto)]

mod removal;
mod walk;

pub use removal::{can_strike, removable};
pub use walk::grants_covered;
