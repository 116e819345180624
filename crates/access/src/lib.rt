// Who may do what: the roles that others reach by links, and the question `may`.
#![tactic(auto)]

mod reach;
mod rights;

pub use reach::reached_from;
pub use rights::may;
