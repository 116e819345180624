// The rows of the roles, from tables of sets that are lent: 4 words to a set of permissions, 2 to a set of roles or users.
#![tactic(auto)]

mod lower;
mod rows;
mod seniors;
mod sieve;

pub use lower::lower_of;
pub use rows::{juniors_of, members_of, permissions_of};
pub use seniors::seniors_of;
pub use sieve::{less, maximal_of};
