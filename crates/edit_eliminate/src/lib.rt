// The elimination: strikable roles struck, in passes, while the quality stays within the tolerance.
#![tactic(auto)]

mod all;

pub use all::eliminate_all;
