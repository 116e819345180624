// Fields of a text, read and written by themselves: fixed bytes, decimals, and the digits of both. specs/ says what each field is.
#![tactic(auto)]

mod decimal;
mod digit;
mod fixed;
mod line;
mod rest;

pub use decimal::{decimal_length, put_decimal};
pub use digit::digit_byte;
pub use fixed::put_bytes;
pub use line::put_first_line;
pub use rest::Rest;
