// Immediate juniors and direct permissions: what a role has by those below it.
ghost use Rattle.std.specs.Prelude.{◌≡◌, ℕ, ◌≤◌, ◌<◌};
ghost use Rattle.sets.specs.Held.{set_of};
ghost use Rattle.sets.specs.Sets.{◌∖◌, single};
ghost use Rattle.model.specs.Hierarchy.{candidate_count, RoleRows};
ghost use Rattle.model.specs.State.{State, roles_of};
ghost use Rattle.rows.specs.Partway.{Partway, Target};

use hierarchy::{juniors_of, permissions_of};
use indexes::Index;
use sets::Set128;
use tables::{JUNIORS, PERMISSIONS, Record, candidate_sets, store};

// Those of role i.
pub fn rewrite_upper(rec: &mut Record, index: &Index, standing: Set128, i: usize)
    requires i_bound { i < 128 }
    ensures { (old : RoleRows) (st : State) (s p t : ℕ) → Target st (set_of standing) index.now → Partway old st s p t rec.old → Partway old st (s ∖ single i) (p ∖ single i) t rec.new }
{
    let juniors = juniors_of(&index.lower, standing, i);
    let permissions = permissions_of(candidate_sets(rec), juniors, standing, i);
    store(rec, JUNIORS + 2 * i, juniors);
    store(rec, PERMISSIONS + 4 * i, permissions);
}

// Those of all c candidates, for a record that is built afresh, by number: that is faster than taking them out of a set. The table of immediate
// seniors is filled when they are all there.
pub fn fill_uppers(rec: &mut Record, index: &Index, standing: Set128, c: usize)
    requires c_bound { c ≤ 128 }
    ensures { (old : RoleRows) (st : State) (t : ℕ) → Target st (set_of standing) index.now → candidate_count (roles_of st) ≡ c → Partway old st (set_of standing) (set_of standing) t rec.old → Partway old st 0 0 t rec.new }
{
    for k in 0..c {
        rewrite_upper(rec, index, standing, k);
    }
}
