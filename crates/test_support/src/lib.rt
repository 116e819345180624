// What the test programs share: how a case is printed, and the digest that stands for the words, or the bytes, that a call left.
#![tactic(auto)]

mod answer;
mod bytes;
mod files;
mod mixing;
mod show;
mod words;

pub use answer::{number_alone, pair_told, told};
pub use bytes::widen;
pub use files::next_file;
pub use mixing::digest;
pub use show::{case, number, text};
pub use words::lent;
