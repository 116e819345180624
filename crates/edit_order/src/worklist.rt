// The roles that an elimination begins with.
ghost use Rattle.std.specs.Prelude.{◌≡◌, ◌<◌};
ghost use Rattle.sets.specs.Held.{set_of};
ghost use Rattle.sets.specs.Sets.{◌∪◌, single};
ghost use Rattle.sets.specs.Truth.{when◌then◌else◌};
ghost use Rattle.model.specs.Coverage.{strikables};
ghost use Rattle.model.specs.Record.{built, Limits};
ghost use Rattle.model.specs.State.{State, roles_of};
ghost use Rattle.indexes.specs.Index.{Indexed, AllHolders};

use edit_test::removable;
use indexes::Index;
use sets::Set128;
use tables::{Record, STANDING, load};

// The set with k in it where `strikable` says so.
fn with_strikable(found: Set128, k: usize, strikable: bool) -> Set128
    requires { k < 128 }
    ensures { set_of result ≡ (when strikable then set_of found ∪ single k else set_of found) }
{
    if strikable {
        return found.insert(k);
    }
    found
}

// The strikable roles of a record. Only a standing role can be strikable, so the others are not asked about.
pub fn strikable_roles(rec: &Record, index: &Index) -> Set128
    ensures { (st : State) → Limits st → rec.now ≡ built st → Indexed (roles_of st) index.now → AllHolders (roles_of st) index.now → set_of result ≡ strikables (roles_of st) st.standing }
{
    let mut found = Set128::empty();
    for k in load::<2>(rec, STANDING).items() {
        found = with_strikable(found, k, removable(rec, index, k));
    }
    found
}
