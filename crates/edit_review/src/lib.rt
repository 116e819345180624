// The review: absent candidates restored where that makes the quality strictly smaller.
#![tactic(auto)]

mod turn;
mod walk;

pub use walk::review_all;
