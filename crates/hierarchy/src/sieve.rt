// What is left of a set when the sets of others are taken away.
ghost use Rattle.std.specs.Prelude.{◌≡◌, ◌*◌, ◌<◌, ◌^◌, length};
ghost use Rattle.sets.specs.Held.{set_of};
ghost use Rattle.model.specs.Hierarchy.{Roles, candidate_count};
ghost use Rattle.model.specs.Indexes.{lower, maximal};
ghost use Rattle.tables.specs.Tables.{HoldsSets};
ghost use Rattle.hierarchy.specs.Tables.{Numbered, less_all};

use sets::{Set, Set128};
use tables::{Table128, load};

// s less the sets of the roles js.
pub fn less<const WORDS: usize>(table: &[u64], s: Set<WORDS>, js: Set128) -> Set<WORDS>
    requires { length table.now ≡ 128 * WORDS }
    ensures { set_of result ≡ less_all WORDS table.now (set_of s.entry) (set_of js) }
{
    let mut left = s;
    for j in js.items() {
        left = left.difference(load(table, WORDS * j));
    }
    left
}

// The roles of s that lie below no other of s: the highest is one of them, and what lies below it is none.
pub fn maximal_of(index: &Table128, s: Set128) -> Set128
    ensures { (ρ : Roles) → Numbered ρ → HoldsSets 2 (candidate_count ρ) (lower ρ) index.now → set_of s < 2 ^ candidate_count ρ → set_of result ≡ maximal ρ (set_of s) }
{
    let mut found = Set128::empty();
    let mut rest = s;
    while let Some(k) = rest.highest() {
        found = found.insert(k);
        rest = rest.difference(load(index, 2 * k)).remove(k);
    }
    found
}
