// What a set of any width does with one of its words.
ghost use Rattle.std.specs.Prelude.{Some, ◌≡◌, ◌+◌, ◌-◌, ◌/◌, ◌%◌, ◌^◌, ◌≤◌, ◌<◌, min, eqb, ltb};
ghost use Rattle.std.specs.Int.Count.{ones, count_leading_zeros};
ghost use Rattle.sets.specs.Sets.{◌∪◌, single};
ghost use Rattle.sets.specs.Truth.{when◌then◌else◌};
ghost use Rattle.sets.specs.Words.{word};

// The word that holds an item, and the item's bit in it.
#[derive(Clone, Copy)]
pub struct Place {
    pub word: usize,
    pub bit: usize,
}

// The only place where an item becomes a word and a bit.
pub fn place_of(i: usize) -> Place
    ensures word_value { result.word ≡ i / 64 }
    ensures bit_value { result.bit ≡ i % 64 }
{
    Place {
        word: i / 64,
        bit: i % 64,
    }
}

// Item i as it stands in word j: its bit, or nothing where it is in another word. What picks a word by a computed place would put the whole set
// into memory; this keeps it in registers.
pub fn bit_at(i: usize, j: usize) -> u64
    ensures { result ≡ word (single i) j }
{
    let p = place_of(i);
    if p.word == j { 1 << p.bit } else { 0 }
}

// A word with the bit of item i put in where `held` says so, without a branch.
pub fn with_bit(w: u64, i: usize, held: bool) -> u64
    ensures { result ≡ (when held then w ∪ single (i % 64) else w) }
{
    w | (u64::from(held) << place_of(i).bit)
}

pub fn count_of(w: u64) -> usize
    ensures value { result ≡ ones w }
    ensures upper_bound { result ≤ 64 }
{
    u64::count_ones(w) as usize
}

// Whether a is less than b; where they are equal, what the words below say.
pub fn less_or(a: u64, b: u64, lower: bool) -> bool
    ensures { result ≡ (when eqb a b then lower else ltb a b) }
{
    if a == b { lower } else { a < b }
}

// The highest item of a word whose first item is `at`, or else what the words below have.
pub fn highest_or(w: u64, at: usize, below: Option<usize>) -> Option<usize>
    requires { at + 64 ≤ 2 ^ 64 }
    ensures { result ≡ (when eqb w 0 then below else Some (at + (63 - count_leading_zeros 64 w))) }
{
    if w == 0 {
        return below;
    }
    Some(at + (63 - u64::leading_zeros(w) as usize))
}

// The items below n, of a word whose first item is `at`.
pub fn mask_below(n: usize, at: usize) -> u64
    ensures { result ≡ 2 ^ min 64 (n - at) - 1 }
{
    if n <= at {
        return 0;
    }
    if 64 <= n - at {
        return !0;
    }
    (1 << (n - at)) - 1
}
