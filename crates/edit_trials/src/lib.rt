// The counts that a strike or a restoration would give, found at the role's neighbours without writing it.
#![tactic(auto)]

mod count;
mod lost;
mod progress;
mod restore;
mod strike;
mod taken;
mod trial;

pub use progress::Progress;
pub use restore::if_restored;
pub use strike::if_struck;
pub use trial::Trial;
