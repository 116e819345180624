// All columns of a table of sets, 64 at a time: a word of the sets is a block of bits that is transposed.
ghost use Rattle.std.specs.Prelude.{◌≡◌, List, [], ◌∷◌, ℕ, ◌+◌, ◌-◌, ◌*◌, ◌≤◌, ◌<◌, min, length, get_or};
ghost use Rattle.std.proofs.Math.Bool.{So};
ghost use Rattle.sets.specs.Held.{set_of};
ghost use Rattle.sets.specs.Sets.{has, collect};
ghost use Rattle.sets.specs.Words.{value};
ghost use Rattle.model.specs.Lists.{set_at};
ghost use Rattle.tables.specs.Tables.{Filled};
ghost use Rattle.columns.specs.Filling.{FilledFor};
ghost use Rattle.columns.specs.Loading.{Loaded};

use crate::one::{column, in_first_word};
use blocks::transpose;
use sets::{Set128, Set256};
use tables::store;

// The columns of a table of n sets: entry k holds the places whose set holds k. A few are gathered one by one, since a block has 64.
pub fn fill_columns<const WORDS: usize>(table: &[u64], n: usize, c: usize, out: &mut [u64])
    requires { (WORDS ≤ 4) × (n ≤ 128) × (WORDS * n ≤ length table.now) × (c ≤ 64 * WORDS) × (2 * c ≤ length out.old) }
    ensures { Filled 2 c (λ k. collect n (λ i. has (set_at WORDS table.now (WORDS * i)) k)) out.old out.new }
{
    if c < 16 {
        fill_columns_for::<WORDS>(table, n, Set256::below(c), out);
        return;
    }
    for j in 0..c.div_ceil(64) {
        fill_word::<WORDS>(table, n, j, c, out);
    }
}

// Those of these items only.
pub fn fill_columns_for<const WORDS: usize>(table: &[u64], n: usize, items: Set256, out: &mut [u64])
    requires { (n ≤ 128) × (WORDS * n ≤ length table.now) × ((k : ℕ) → So (has (set_of items) k) → 2 * k + 2 ≤ length out.old) }
    ensures { FilledFor (set_of items) (λ k. collect n (λ i. has (set_at WORDS table.now (WORDS * i)) k)) out.old out.new }
{
    for k in items.items() {
        store(out, 2 * k, column::<WORDS>(table, n, k));
    }
}

// Those of them all that word j of the sets tells.
fn fill_word<const WORDS: usize>(table: &[u64], n: usize, j: usize, c: usize, out: &mut [u64])
    requires { (WORDS ≤ 4) × (n ≤ 128) × (WORDS * n ≤ length table.now) × (j < WORDS) × (64 * j ≤ c) × (2 * c ≤ length out.old) }
    ensures { (before : List ℕ) → Filled 2 (64 * j) (λ k. collect n (λ i. has (set_at WORDS table.now (WORDS * i)) k)) before out.old → Filled 2 (64 * j + min (c - 64 * j) 64) (λ k. collect n (λ i. has (set_at WORDS table.now (WORDS * i)) k)) before out.new }
{
    let first = in_first_word(n);
    let mut low = [0u64; 64];
    let mut high = [0u64; 64];
    gather_all::<WORDS>(table, 0, first, j, &mut low);
    gather_all::<WORDS>(table, 64, n - first, j, &mut high);
    store_pairs(&low, &high, 64 * j, in_first_word(c - 64 * j), out);
}

// The columns of 64 items at once, from word j of `count` sets. The block is empty at first.
fn gather_all<const WORDS: usize>(
    table: &[u64],
    from: usize,
    count: usize,
    j: usize,
    block: &mut [u64],
)
    requires { (length block.old ≡ 64) × ((b : ℕ) → get_or block.old b 0 ≡ 0) × (from ≤ 64) × (count ≤ 64) × ((q : ℕ) → q < count → WORDS * (from + q) + j < length table.now) }
    ensures { (b : ℕ) → b < 64 → get_or block.new b 0 ≡ collect count (λ q. has (get_or table.now (WORDS * (from + q) + j) 0) b) }
{
    if count == 0 {
        return;
    }
    load_words::<WORDS>(table, from, count, j, block);
    transpose(block);
}

// Word j of `count` sets from set `from` on.
fn load_words<const WORDS: usize>(
    table: &[u64],
    from: usize,
    count: usize,
    j: usize,
    block: &mut [u64],
)
    requires { (length block.old ≡ 64) × (from ≤ 64) × (count ≤ 64) × ((q : ℕ) → q < count → WORDS * (from + q) + j < length table.now) }
    ensures { Loaded count (λ q. get_or table.now (WORDS * (from + q) + j) 0) block.old block.new }
{
    for q in 0..count {
        block[q] = table[WORDS * (from + q) + j];
    }
}

// Entry `at` + b is made of word b of both, for `count` entries.
fn store_pairs(low: &[u64], high: &[u64], at: usize, count: usize, out: &mut [u64])
    requires { (length low.now ≡ 64) × (length high.now ≡ 64) × (count ≤ 64) × (2 * (at + count) ≤ length out.old) }
    ensures { (f : ℕ → ℕ) (before : List ℕ) → ((b : ℕ) → b < count → value (get_or low.now b 0 ∷ get_or high.now b 0 ∷ []) ≡ f (at + b)) → Filled 2 at f before out.old → Filled 2 (at + count) f before out.new }
{
    for b in 0..count {
        store(out, 2 * (at + b), Set128::from_words([low[b], high[b]]));
    }
}
