// The counts of a record's rows, and what they weigh.
#![tactic(auto)]

mod counts;
mod weighing;
mod weights;

pub use counts::{Counts, count_rows};
pub use weighing::weigh;
pub use weights::{Tolerance, Weights};
