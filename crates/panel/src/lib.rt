// The outside calls; and a list of them served one after the other, which is what condition 3 speaks of.
#![tactic(auto)]

mod exports;
mod list;

pub use calls_edit::Done;
pub use exports::{
    panel_eliminate, panel_may, panel_mine, panel_quality, panel_read_crew, panel_restore,
    panel_review, panel_strike, panel_write_crew,
};
pub use list::{NotServed, serve};
pub use refusals::Refusal;
pub use text_crew::CrewSize;
