// Rows of a record computed anew for a standing set and stored: of a few roles, or of all of them where a record is built afresh. The immediate
// seniors stand in a table beside the record, which the functions that alter links keep true.
#![tactic(auto)]

mod build;
mod link;
mod lower;
mod upper;

pub use build::build_rows;
pub use link::relink_uppers;
pub use lower::rewrite_lowers;
