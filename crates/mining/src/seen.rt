// The meets that mining has seen. What stands in a slot is in the table of candidates, so that it needs no search; a slot where there is none yet is
// empty, and one that two sets share has the later one.
ghost use Rattle.std.specs.Prelude.{◌<◌};
ghost use Rattle.sets.specs.Held.{set_of};
ghost use Rattle.mining.specs.Mining.{sets_of, Known, Remembered};

use sets::Set256;

// How many slots there are.
const SLOTS: usize = 128;

pub type Slots = [Set256; SLOTS];

// The slot of a set. Any answer is right; one that differs for most sets is quick. The words are shifted so that equal ones do not cancel.
fn slot_of(x: Set256) -> usize
    ensures { result < 128 }
{
    let all = x.word(0) ^ (x.word(1) << 5) ^ (x.word(2) << 11) ^ (x.word(3) << 19);
    let half = (all ^ (all >> 29)) % 4294967296;
    ((half * 2654435769) >> 20) as usize % SLOTS
}

// Whether y, the meet of a row and x, has no need of a search: it is x, it was seen before, or it is empty.
pub fn is_known(seen: &Slots, x: Set256, y: Set256) -> bool
    ensures { Known (sets_of seen.now) (set_of x) (set_of y) result }
{
    y == x || y == seen[slot_of(y)] || y.is_empty()
}

// Puts x in its slot.
pub fn remember(seen: &mut Slots, x: Set256)
    ensures { Remembered (set_of x) (sets_of seen.old) (sets_of seen.new) }
{
    seen[slot_of(x)] = x;
}
