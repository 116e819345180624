// Whole records: written afresh, and judged.
#![tactic(auto)]

mod begin;
mod check;
mod cover;
mod fresh;
mod head;

pub use check::is_sound;
pub use fresh::write_fresh;
