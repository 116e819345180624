// A slice of words as a table of sets: a set at a place read and written, a region copied and compared, a growing table searched; the layout of a record.
#![tactic(auto)]

mod growing;
mod layout;

ghost use Rattle.std.specs.Prelude.{◌≡◌, ◌↔◌, ℕ, ◌+◌, ◌*◌, ◌≤◌, eqb, length, get_or};
ghost use Rattle.std.proofs.Math.Bool.{So};
ghost use Rattle.sets.specs.Held.{set_of};
ghost use Rattle.sets.specs.Truth.{all};
ghost use Rattle.model.specs.Lists.{set_at, rows_at};
ghost use Rattle.stores.specs.Stores.{put_at};
ghost use Rattle.tables.specs.Rows.{rows_of};
ghost use Rattle.tables.specs.Stores.{words_of};
ghost use Rattle.tables.specs.Tables.{ZeroFrom};

pub use growing::{insert, search};
pub use layout::{
    CREW, JUNIORS, LENGTH, MEMBERS, PERMISSIONS, Record, SETS, STANDING, Table128, Table256,
    candidate_sets, direct_members, direct_permissions, immediate_juniors,
};
use sets::Set;

// The set whose words stand from place `at` on.
pub fn load<const WORDS: usize>(ws: &[u64], at: usize) -> Set<WORDS>
    requires { at + WORDS ≤ length ws.now }
    ensures { set_of result ≡ set_at WORDS ws.now at }
{
    let mut words = [0; WORDS];
    words.copy_from_slice(&ws[at..at + WORDS]);
    Set::from_words(words)
}

// The n rows of four words each that stand from place `at` on.
pub fn as_rows(ws: &[u64], at: usize, n: usize) -> &[[u64; 4]]
    requires { at + 4 * n ≤ length ws.now }
    ensures value { rows_of result.now ≡ rows_at n ws.now at }
    ensures count { length result.now ≡ n }
{
    &ws[at..].as_chunks().0[..n]
}

pub fn store<const WORDS: usize>(ws: &mut [u64], at: usize, s: Set<WORDS>)
    requires { at + WORDS ≤ length ws.old }
    ensures { ws.new ≡ put_at ws.old at (words_of WORDS (set_of s.entry)) }
{
    copy(ws, at, &s.words);
}

// Puts all of src into ws, from place `at` on. Word by word: the library's `copy_from_slice` is a move of memory where the compiler doesn't see that
// the two slices are apart, and the archive is to need no `memmove`.
pub fn copy(ws: &mut [u64], at: usize, src: &[u64])
    requires { at + length src.now ≤ length ws.old }
    ensures { ws.new ≡ put_at ws.old at src.now }
{
    for i in 0..src.len() {
        ws[at + i] = src[i];
    }
}

// Whether ws holds all of src, from place `at` on. All words are compared, without a branch for each.
pub fn equal_at(ws: &[u64], at: usize, src: &[u64]) -> bool
    requires { at + length src.now ≤ length ws.now }
    ensures { result ≡ all (length src.now) (λ i. eqb (get_or ws.now (at + i) 0) (get_or src.now i 0)) }
{
    let mut differing = 0;
    for i in 0..src.len() {
        differing |= ws[at + i] ^ src[i];
    }
    differing == 0
}

// Whether the words from place `from` on and before place `to` are zero, without a branch for each.
pub fn zeros(ws: &[u64], from: usize, to: usize) -> bool
    requires from_le_to { from ≤ to }
    requires to_in_bounds { to ≤ length ws.now }
    ensures { So result ↔ ZeroFrom ws.now from to }
{
    ws[from..to].iter().fold(0, |found, w| found | *w) == 0
}

// Puts zero into every word.
pub fn clear(ws: &mut [u64])
    ensures { (i : ℕ) → get_or ws.new i 0 ≡ 0 }
{
    ws.fill(0);
}
