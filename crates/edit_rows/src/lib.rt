// Taking a role out of a record and putting it back, in place: the standing mark, the row of the role and the rows of its immediate seniors and
// juniors are written anew, and nothing else. The table of immediate seniors beside the record is kept true.
#![tactic(auto)]

mod change;
mod links;

pub use change::{heirs, put_back, put_back_at, take_out, take_out_at};
pub use links::Links;
