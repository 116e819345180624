// What the calls share: the entrance of those on a record, and checks of their numbers.
#![tactic(auto)]

mod entrance;
mod numbers;

pub use entrance::{enter, enter_to_read, length_refusal, soundness_refusal};
pub use numbers::{allowed_weights, pair_refusal};
