ghost use Rattle.std.specs.Prelude.{◌≡◌, ℕ, ◌^◌, ◌≤◌, ◌<◌};
ghost use Rattle.sets.specs.Held.{set_of};
ghost use Rattle.sets.specs.Sets.{has, ◌∪◌};
ghost use Rattle.sets.specs.Truth.{when◌then◌else◌};
ghost use Rattle.model.specs.Hierarchy.{RoleRows};
ghost use Rattle.model.specs.Chains.{link, reached};
ghost use Rattle.tables.specs.Tables.{HoldsSets};
ghost use Rattle.access.specs.Reach.{Downward};

use sets::Set128;
use tables::{Table128, load};

// The roles that those of s reach by zero or more links. A junior has a lower number, so one pass downward meets each role after all that
// lead to it. Over all numbers and not over the items of a set: the set grows on the way.
pub fn reached_from(juniors: &Table128, s: Set128) -> Set128
    ensures { (b : RoleRows) (c : ℕ) → c ≤ 128 → HoldsSets 2 c b.juniors juniors.now → Downward c b → set_of s < 2 ^ c → set_of result ≡ reached (link b) c (set_of s) }
{
    let mut found = s;
    for k in (0..128).rev() {
        found = with_juniors(found, k, load(juniors, 2 * k));
    }
    found
}

// The roles, with x besides where k is one of them.
fn with_juniors(roles: Set128, k: usize, x: Set128) -> Set128
    ensures { set_of result ≡ (when has (set_of roles) k then set_of roles ∪ set_of x else set_of roles) }
{
    if roles.contains(k) {
        return roles.union(x);
    }
    roles
}
