// The immediate seniors of a role, found from the index where the record does not hold them yet.
ghost use Rattle.std.specs.Prelude.{◌≡◌, ◌^◌, ◌<◌, eqb};
ghost use Rattle.sets.specs.Held.{set_of};
ghost use Rattle.sets.specs.Sets.{has, ◌∩◌, ◌∪◌, single};
ghost use Rattle.sets.specs.Truth.{◌and◌, when◌then◌else◌};
ghost use Rattle.model.specs.Hierarchy.{Roles, candidate_count};
ghost use Rattle.model.specs.Indexes.{lower};
ghost use Rattle.tables.specs.Tables.{HoldsSets};
ghost use Rattle.hierarchy.specs.Tables.{Numbered, immediate_seniors};

use sets::Set128;
use tables::{Table128, load};

// The set with i in it where k is below i, and none of the set is.
fn with_senior(found: Set128, i: usize, below: Set128, k: usize) -> Set128
    requires { i < 128 }
    ensures { set_of result ≡ (when has (set_of below) k and eqb (set_of below ∩ set_of found) 0 then set_of found ∪ single i else set_of found) }
{
    if below.contains(k) & below.intersection(found).is_empty() {
        return found.insert(i);
    }
    found
}

// The lowest ones of the standing roles above k. A role below another has a lower number, so that from the lowest number up each role
// has only to be held against those that were found before it.
pub fn seniors_of(low: &Table128, standing: Set128, k: usize) -> Set128
    ensures { (ρ : Roles) → Numbered ρ → HoldsSets 2 (candidate_count ρ) (lower ρ) low.now → set_of standing < 2 ^ candidate_count ρ → set_of result ≡ immediate_seniors ρ (set_of standing) k }
{
    if !standing.contains(k) {
        return Set128::empty();
    }
    let mut found = Set128::empty();
    for i in standing.difference(Set128::below(k)).items() {
        found = with_senior(found, i, load(low, 2 * i), k);
    }
    found
}
