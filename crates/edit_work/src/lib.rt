// What an elimination computes once beside the record: what the redundancies of its roles are found from.
#![tactic(auto)]

mod fill;
mod further;
mod holders;
mod samples;
mod work;

pub use fill::fill_order;
pub use work::Work;
