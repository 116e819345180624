// Whether a record's rows are those of the building of its standing set. Each row is computed and held against the record's words at once, so that
// no second record is built; the immediate seniors fall out on the way.
#![tactic(auto)]

mod all;
mod lower;
mod upper;

pub use all::rows_match;
