// A set of items, in as many words as its type says.
ghost use Rattle.std.specs.Prelude.{◌≡◌, ℕ, ◌*◌, ◌^◌, ◌<◌, eqb, ltb, get_or};
ghost use Rattle.std.specs.Int.Count.{ones};
ghost use Rattle.std.specs.Ordering.{nat_cmp};
ghost use Rattle.sets.specs.Extremes.{highest, lowest};
ghost use Rattle.sets.specs.Held.{set_of};
ghost use Rattle.sets.specs.Sets.{has, ◌∩◌, ◌∪◌, ◌∖◌, single, subset, proper_subset, collect};
ghost use Rattle.sets.specs.Truth.{when◌then◌else◌};
ghost use Rattle.sets.specs.Walks.{FirstItem, LastItem};
ghost use Rattle.sets.specs.Words.{value, word};

use crate::items::Items;
use crate::word::{bit_at, count_of, highest_or, less_or, mask_below, place_of};
use std::array;
use std::cmp::Ordering;

// A set of items below 64 WORDS.
#[derive(Clone, Copy, PartialEq, Eq)]
pub struct Set<const WORDS: usize> {
    pub words: [u64; WORDS],
}

// Of roles or users, and of permissions.
pub type Set128 = Set<2>;

pub type Set256 = Set<4>;

impl<const WORDS: usize> Set<WORDS> {
    pub fn empty() -> Self
        ensures { set_of result ≡ 0 }
    {
        Self { words: [0; WORDS] }
    }

    pub fn from_words(ws: [u64; WORDS]) -> Self
        ensures { set_of result ≡ value ws.entry }
    {
        Self { words: ws }
    }

    // The one item i; past the width there is none.
    pub fn only(i: usize) -> Self
        ensures { set_of result ≡ (when ltb i (64 * WORDS) then single i else 0) }
    {
        Self {
            words: array::from_fn(|j| bit_at(i, j)),
        }
    }

    // All items below n.
    pub fn below(n: usize) -> Self
        ensures { set_of result ≡ collect (64 * WORDS) (λ i. ltb i n) }
    {
        Self {
            words: array::from_fn(|j| mask_below(n, j.saturating_mul(64))),
        }
    }

    // Word j; past the last there are no items.
    pub fn word(self, j: usize) -> u64
        ensures { result ≡ word (set_of self.entry) j }
    {
        if j < WORDS { self.words[j] } else { 0 }
    }

    pub fn contains(self, i: usize) -> bool
        ensures { result ≡ has (set_of self.entry) i }
    {
        let p = place_of(i);
        (self.word(p.word) >> p.bit) & 1 == 1
    }

    // An item past the width is left out.
    pub fn insert(self, i: usize) -> Self
        ensures { set_of result ≡ (when ltb i (64 * WORDS) then set_of self.entry ∪ single i else set_of self.entry) }
    {
        self.union(Self::only(i))
    }

    pub fn remove(self, i: usize) -> Self
        ensures { set_of result ≡ set_of self.entry ∖ single i }
    {
        self.difference(Self::only(i))
    }

    // Each word made of those of both.
    fn wordwise<F: Fn(u64, u64) -> u64>(self, other: Self, f: F) -> Self
        requires callable { (x y : ℕ) → F.pre f x y }
        ensures { (h : ℕ → ℕ → ℕ) → ((x y t : ℕ) → F.post f x y t → t ≡ h x y) → (j : ℕ) → j < WORDS → get_or result.words j 0 ≡ h (get_or self.entry.words j 0) (get_or other.entry.words j 0) }
    {
        let a = self.words;
        let b = other.words;
        Self {
            words: array::from_fn(
                |j|
                    requires { (j < WORDS) × ((x y : ℕ) → F.pre f x y) }
                    ensures { F.post f (get_or a j 0) (get_or b j 0) result }
                { f(a[j], b[j]) },
            ),
        }
    }

    pub fn intersection(self, other: Self) -> Self
        ensures { set_of result ≡ set_of self.entry ∩ set_of other.entry }
    {
        self.wordwise(other, |x, y| x & y)
    }

    pub fn union(self, other: Self) -> Self
        ensures { set_of result ≡ set_of self.entry ∪ set_of other.entry }
    {
        self.wordwise(other, |x, y| x | y)
    }

    pub fn difference(self, other: Self) -> Self
        ensures { set_of result ≡ set_of self.entry ∖ set_of other.entry }
    {
        self.wordwise(other, |x, y| x & !y)
    }

    pub fn is_empty(self) -> bool
        ensures { result ≡ eqb (set_of self.entry) 0 }
    {
        // all words at once, without a branch for each
        self.words.iter().fold(0, |all, w| all | *w) == 0
    }

    pub fn is_subset(self, other: Self) -> bool
        ensures { result ≡ subset (set_of self.entry) (set_of other.entry) }
    {
        self.difference(other).is_empty()
    }

    pub fn is_proper_subset(self, other: Self) -> bool
        ensures { result ≡ proper_subset (set_of self.entry) (set_of other.entry) }
    {
        self.is_subset(other) & (self != other)
    }

    // As numbers.
    pub fn compare(self, other: Self) -> Ordering
        ensures { result ≡ nat_cmp (set_of self.entry) (set_of other.entry) }
    {
        if other.less(self) {
            Ordering::Greater
        } else if self == other {
            Ordering::Equal
        } else {
            Ordering::Less
        }
    }

    // A word decides before those below it. All are compared, without a branch for each.
    pub fn less(self, other: Self) -> bool
        ensures { result ≡ ltb (set_of self.entry) (set_of other.entry) }
    {
        let mut less = false;
        for j in 0..WORDS {
            less = less_or(self.words[j], other.words[j], less);
        }
        less
    }

    pub fn count(self) -> usize
        requires { 64 * WORDS < 2 ^ 64 }
        ensures { result ≡ ones (set_of self.entry) }
    {
        self.words.iter().map(|w| count_of(*w)).sum()
    }

    // A word is asked at its own place: what picks one by a computed place would put the set into memory.
    pub fn lowest(self) -> Option<usize>
        requires { 64 * WORDS < 2 ^ 64 }
        ensures value { result ≡ lowest (64 * WORDS) (set_of self.entry) }
        ensures told { FirstItem (64 * WORDS) (set_of self.entry) result }
    {
        for j in 0..WORDS {
            if self.words[j] != 0 {
                return Some(64 * j + u64::trailing_zeros(self.words[j]) as usize);
            }
        }
        None
    }

    pub fn highest(self) -> Option<usize>
        requires { 64 * WORDS < 2 ^ 64 }
        ensures value { result ≡ highest (64 * WORDS) (set_of self.entry) }
        ensures told { LastItem (64 * WORDS) (set_of self.entry) result }
    {
        let mut highest = None;
        for j in 0..WORDS {
            highest = highest_or(self.words[j], 64 * j, highest);
        }
        highest
    }

    // From the lowest up.
    pub fn items(self) -> Items<WORDS>
        requires { 64 * WORDS < 2 ^ 64 }
        ensures { set_of result.rest ≡ set_of self.entry }
    {
        Items { rest: self }
    }
}
