// Whether a role can be struck.
ghost use Rattle.std.specs.Prelude.{◌≡◌, ◌≤◌, ◌<◌, get_or};
ghost use Rattle.std.proofs.Math.Bool.{So};
ghost use Rattle.sets.specs.Sets.{has};
ghost use Rattle.model.specs.Hierarchy.{Roles, direct_permissions};
ghost use Rattle.model.specs.Coverage.{strikable};
ghost use Rattle.model.specs.Record.{built, Limits};
ghost use Rattle.model.specs.State.{State, roles_of};
ghost use Rattle.indexes.specs.Index.{Indexed, HoldersFor};

use crate::walk::grants_covered;
use holders::fill_holders;
use indexes::Index;
use sets::Set128;
use tables::{MEMBERS, PERMISSIONS, Record, load};

// Whether each grant that the standing role k covers is covered by another standing role. Only its direct members' direct permissions can be
// left bare, so the walk is over these.
pub fn removable(rec: &Record, index: &Index, k: usize) -> bool
    requires k_bound { k < 128 }
    ensures { (st : State) → Limits st → rec.now ≡ built st → Indexed (roles_of st) index.now → HoldersFor (roles_of st) (direct_permissions (roles_of st) st.standing k) index.now → So (has st.standing k) → result ≡ strikable (roles_of st) st.standing k }
{
    grants_covered(
        rec,
        index,
        Set128::only(k),
        load(rec, MEMBERS + 2 * k),
        load(rec, PERMISSIONS + 4 * k),
    )
}

// The same for one role alone: of the permissions' holders only those of its direct permissions are looked for.
pub fn can_strike(rec: &Record, index: &mut Index, k: usize) -> bool
    requires k_bound { k < 128 }
    requires rec_bound { get_or rec.now 2 0 ≤ 128 }
    ensures value { (st : State) → Limits st → rec.now ≡ built st → Indexed (roles_of st) index.old → So (has st.standing k) → result ≡ strikable (roles_of st) st.standing k }
    ensures indexed { (ρ : Roles) → Indexed ρ index.old → Indexed ρ index.new }
{
    fill_holders(rec, index, load(rec, PERMISSIONS + 4 * k));
    removable(rec, index, k)
}
