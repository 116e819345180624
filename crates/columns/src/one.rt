ghost use Rattle.std.specs.Prelude.{◌≡◌, Bool, ℕ, ◌+◌, ◌*◌, ◌≤◌, ◌<◌, min, length, get_or};
ghost use Rattle.sets.specs.Held.{set_of};
ghost use Rattle.sets.specs.Sets.{has, collect};
ghost use Rattle.model.specs.Lists.{set_at};

use sets::{Set128, place_of, with_bit};

// The items below n for which the test holds. A word of the answer is gathered at a time.
pub fn gathered<F: Fn(usize) -> bool>(n: usize, test: F) -> Set128
    requires n_bound { n ≤ 128 }
    requires callable { (i : ℕ) → i < n → F.pre test i }
    ensures { (f : ℕ → Bool) → ((i : ℕ) (t : Bool) → i < n → F.post test i t → t ≡ f i) → set_of result ≡ collect n f }
{
    let first = in_first_word(n);
    Set128::from_words([word_of(&test, 0, first), word_of(&test, 64, n - first)])
}

// Bit q tells of item `from` + q, for `count` items.
fn word_of<F: Fn(usize) -> bool>(test: &F, from: usize, count: usize) -> u64
    requires bounds { (from ≤ 64) × (count ≤ 64) }
    requires callable { (q : ℕ) → q < count → F.pre test.now (from + q) }
    ensures { (f : ℕ → Bool) → ((q : ℕ) (t : Bool) → q < count → F.post test.now (from + q) t → t ≡ f q) → result ≡ collect count f }
{
    let mut bits = 0;
    for q in 0..count {
        bits = with_bit(bits, q, test(from + q));
    }
    bits
}

// The places below n whose set in the table holds k: a column of the table, read downward.
pub fn column<const WORDS: usize>(table: &[u64], n: usize, k: usize) -> Set128
    requires n_bound { n ≤ 128 }
    requires n_in_bounds { WORDS * n ≤ length table.now }
    ensures { set_of result ≡ collect n (λ i. has (set_at WORDS table.now (WORDS * i)) k) }
{
    let p = place_of(k);
    let j = p.word;
    let b = p.bit;
    if WORDS <= j {
        return Set128::empty();
    }
    gathered(
        n,
        |i|
            requires { (WORDS * i + j < length table.now) × (b < 64) }
            ensures { result ≡ has (get_or table.entry.now (WORDS * i + j) 0) b }
        { (table[WORDS * i + j] >> b) & 1 == 1 },
    )
}

// Of n items, how many stand in the first word.
pub fn in_first_word(n: usize) -> usize
    ensures { result ≡ min n 64 }
{
    n.min(64)
}
