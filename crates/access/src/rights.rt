// May u use p: does some role have u as direct member and reach a role with p direct?
ghost use Rattle.std.specs.Prelude.{◌≡◌, ◌*◌, ◌≤◌, get_or};
ghost use Rattle.std.proofs.Math.Bool.{So};
ghost use Rattle.sets.specs.Held.{set_of};
ghost use Rattle.sets.specs.Sets.{has};
ghost use Rattle.sets.specs.Truth.{◌and◌, any};
ghost use Rattle.model.specs.Lists.{set_at};
ghost use Rattle.model.specs.Hierarchy.{candidate_count};
ghost use Rattle.model.specs.Chains as model;
ghost use Rattle.model.specs.State.{roles_of};
ghost use Rattle.model.specs.Record.{state_of, sound, role_rows_of};

use crate::reach::reached_from;
use columns::column;
use sets::Set128;
use tables::{Record, Table256, direct_members, direct_permissions, immediate_juniors, load};

pub fn may(rec: &Record, u: usize, p: usize) -> bool
    requires rec_bound { get_or rec.now 2 0 ≤ 128 }
    ensures { So (sound rec.now) → result ≡ model.may (candidate_count (roles_of (state_of rec.now))) (role_rows_of rec.now) u p }
{
    let c = rec[2] as usize;
    let direct = column::<2>(direct_members(rec), c, u);
    let reached = reached_from(immediate_juniors(rec), direct);
    some_has(direct_permissions(rec), reached, p)
}

// Whether one of the roles has p in its set.
fn some_has(permissions: &Table256, roles: Set128, p: usize) -> bool
    ensures { result ≡ any 128 (λ j. has (set_of roles) j and has (set_at 4 permissions.now (4 * j)) p) }
{
    roles
        .items()
        .any(|j| load::<4>(permissions, 4 * j).contains(p))
}
