// Sample users, one for each set of roles that users have: whoever has the same roles gives the same numbers to the redundancies.
ghost use Rattle.std.specs.Prelude.{◌≡◌, ℕ, ◌+◌, ◌≤◌, ◌<◌};
ghost use Rattle.std.specs.Int.Count.{ones};
ghost use Rattle.sets.specs.Held.{set_of};
ghost use Rattle.sets.specs.Sets.{◌∪◌, single};
ghost use Rattle.model.specs.Hierarchy.{Roles, candidate_count};
ghost use Rattle.model.specs.Indexes.{roles_of_user};
ghost use Rattle.indexes.specs.Index.{Indexed};
ghost use Rattle.edit_work.specs.Work.{entries, users_with_roles, SamplesOf};

use indexes::Index;
use sets::Set128;
use tables::{Table128, load, store};

// The table is lent, and the count handed on, by itself: the count serves only while the work is filled, and a struct of the two in `Work` would keep a
// number that no redundancy reads.

// Puts the roles s of one more user after the first `count` sets of the table, unless the last of them is the same. Answers how many there are then.
fn add_sample(table: &mut Table128, count: usize, s: Set128) -> usize
    requires { count < 128 }
    ensures upper_bound { result ≤ count + 1 }
    ensures by_index { (users u : ℕ) (roles : ℕ → ℕ) → SamplesOf users roles count (entries table.old) → set_of s ≡ roles u → SamplesOf (users ∪ single u) roles result (entries table.new) }
{
    if 0 < count && load(table, 2 * count - 2) == s {
        return count;
    }
    store(table, 2 * count, s);
    count + 1
}

// The samples of these users, after those that are there.
fn add_samples(index: &Index, users: Set128, table: &mut Table128, count: usize) -> usize
    requires { count + ones (set_of users) ≤ 128 }
    ensures upper_bound { result ≤ count + ones (set_of users) }
    ensures by_index { (met : ℕ) → SamplesOf met (entries index.now.roles) count (entries table.old) → SamplesOf (met ∪ set_of users) (entries index.now.roles) result (entries table.new) }
{
    let mut found = count;
    for u in users.items() {
        found = add_sample(table, found, load(&index.roles, 2 * u));
    }
    found
}

// The samples of all users, and how many they are. A user is met at the highest of the user's roles, from the last role down: so users with the same
// roles come together, and a sample that has all roles of another and a higher one comes before it.
pub fn find_samples(index: &Index, c: usize, table: &mut Table128) -> usize
    requires { c ≤ 128 }
    ensures upper_bound { result ≤ 128 }
    ensures samples_of { (ρ : Roles) → candidate_count ρ ≡ c → Indexed ρ index.now → SamplesOf (users_with_roles ρ) (roles_of_user ρ) result (entries table.new) }
{
    let mut count = 0;
    let mut met = Set128::empty();
    for k in (0..c).rev() {
        let users = load(&index.users, 2 * k).difference(met);
        count = add_samples(index, users, table, count);
        met = met.union(users);
    }
    count
}
