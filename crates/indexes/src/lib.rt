// The index of a record: what a call computes once beside it, and then only reads.
#![tactic(auto)]

mod index;
mod own;
mod shared;
mod state;

pub use index::{Holders, Index};
pub use state::fill_index;
