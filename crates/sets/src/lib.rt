// Sets held in 64-bit words and carried by value: item i is bit i mod 64 of word i / 64. specs/ says what each operation means.
#![tactic(auto)]

mod items;
mod set;
mod word;

pub use items::{Items, highest_item, lowest_item};
pub use set::{Set, Set128, Set256};
pub use word::{Place, bit_at, count_of, mask_below, place_of, with_bit};
