// The items of a set, one after another.
ghost use Rattle.std.specs.Prelude.{◌≢◌, ◌*◌, ◌^◌, ◌<◌};
ghost use Rattle.std.specs.Int.Count.{ones};
ghost use Rattle.std.specs.Iterator.{at_most};
ghost use Rattle.sets.specs.Extremes.{LowestItem, HighestItem};
ghost use Rattle.sets.specs.Held.{set_of};
ghost use Rattle.sets.specs.Walks.{NextItem};

use crate::set::Set;

// The lowest item of a set that has one.
pub fn lowest_item<const WORDS: usize>(s: Set<WORDS>) -> usize
    requires numbered { 64 * WORDS < 2 ^ 64 }
    requires some { set_of s ≢ 0 }
    ensures { LowestItem (64 * WORDS) (set_of s.entry) result }
{
    s.lowest().unwrap()
}

// The highest.
pub fn highest_item<const WORDS: usize>(s: Set<WORDS>) -> usize
    requires numbered { 64 * WORDS < 2 ^ 64 }
    requires some { set_of s ≢ 0 }
    ensures { HighestItem (64 * WORDS) (set_of s.entry) result }
{
    s.highest().unwrap()
}

// The items that are left, the lowest first.
#[derive(Drop)]
pub struct Items<const WORDS: usize> {
    pub rest: Set<WORDS>,
    ghost numbered: { 64 * WORDS < 2 ^ 64 },
}

impl<const WORDS: usize> Iterator for Items<WORDS> {
    type Item = usize;

    ghost next_gives = { λ s r t. NextItem (64 * WORDS) (set_of s.rest) r (set_of t.rest) };

    ghost remaining = { λ s. at_most (ones (set_of s.rest)) };

    fn next(&mut self) -> Option<usize> {
        let item = self.rest.lowest()?;
        self.rest = self.rest.remove(item);
        Some(item)
    }
}
