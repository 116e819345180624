// The lines in which the lister prints the roles of a record, and a refusal, written into bytes.
#![tactic(auto)]

mod head;
mod lines;

pub use head::{put_head, put_refusal};
pub use lines::put_lines;
