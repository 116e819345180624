// What the calls that edit have in common: what their passes give, and laws.
#![tactic(auto)]

// How many roles an edit's passes struck or restored, and how many they examined.
#[derive(Clone, Copy)]
pub struct Done {
    pub changed: u64,
    pub examined: u64,
}
