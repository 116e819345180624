// The lines of a crew text: the first, and the row of a user, each read whole or not at all; and how many digits a row has.
#![tactic(auto)]

mod digits;
mod header;
mod row;

pub use digits::digits_for;
pub use header::{Header, read_header};
pub use row::read_row;
