// The columns of a table of sets: which sets hold an item. One by one, or all of them by transposing blocks of bits.
#![tactic(auto)]

mod all;
mod one;

pub use all::{fill_columns, fill_columns_for};
pub use one::{column, gathered, in_first_word};
