use edit_rows::Links;
use quality::Counts;

// The counts that the record would have with a role taken out or put back, and the role's links where it stands.
#[derive(Clone, Copy)]
pub struct Trial {
    pub counts: Counts,
    pub links: Links,
}
