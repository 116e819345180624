// "Who sends a call back": the refusals of document 01, and those that requests of 02 add, each with its number and what it says.
#![tactic(auto)]

ghost use Rattle.std.specs.Prelude.{◌≡◌};
ghost use Rattle.refusals.specs.Numbers.{number_of};

#[derive(Clone, Copy, Debug, PartialEq, Eq)]
pub enum Refusal {
    // The record's length is not 2,056 words.
    Length = 1,
    // n or m is outside its limits.
    Limits = 2,
    // The crew words are not 4n, or for the reader its buffer is not 512 words; or a bit at m or above.
    Crew = 3,
    // There are more than 128 candidates.
    Candidates = 4,
    // The record is not sound.
    Unsound = 5,
    // u, p or k is not below n, m or c.
    Number = 6,
    // Strike of an absent role, or restoring one that stands.
    Standing = 7,
    // The role can't be struck: a grant would be left bare.
    Bare = 8,
    // A weight or a tolerance is outside its range.
    Range = 9,
    // The text breaks its form, more bytes follow, or it is over 16,384 bytes.
    Text = 10,
    // Request 1: the lent buffer is shorter than the text.
    Short = 11,
}

impl Refusal {
    pub fn number(self) -> u64
        ensures { result ≡ number_of self }
    {
        self as u64
    }
}
