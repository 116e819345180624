// Direct members: what a role has by those above it.
ghost use Rattle.std.specs.Prelude.{◌≡◌, ℕ, ◌≤◌, ◌<◌};
ghost use Rattle.sets.specs.Held.{set_of};
ghost use Rattle.sets.specs.Sets.{◌∖◌, single};
ghost use Rattle.model.specs.Hierarchy.{candidate_count, RoleRows};
ghost use Rattle.model.specs.State.{State, roles_of};
ghost use Rattle.rows.specs.Linked.{Linked};
ghost use Rattle.rows.specs.Partway.{Partway, Target};

use hierarchy::members_of;
use indexes::Index;
use sets::Set128;
use tables::{MEMBERS, Record, Table128, load, store};

// Those of role j. The juniors that the record holds, and with them the seniors, are those of the standing set already.
fn rewrite_lower(rec: &mut Record, index: &Index, seniors: &Table128, standing: Set128, j: usize)
    requires j_bound { j < 128 }
    ensures { (old : RoleRows) (st : State) (p t : ℕ) → Target st (set_of standing) index.now → Linked rec.old seniors.now → Partway old st 0 p t rec.old → Partway old st 0 p (t ∖ single j) rec.new }
{
    let above = load(seniors, 2 * j);
    let members = members_of(&index.users, above, standing, j);
    store(rec, MEMBERS + 2 * j, members);
}

// Those of the roles in `roles`.
pub fn rewrite_lowers(
    rec: &mut Record,
    index: &Index,
    seniors: &Table128,
    standing: Set128,
    roles: Set128,
)
    ensures { (old : RoleRows) (st : State) (p : ℕ) → Target st (set_of standing) index.now → Linked rec.old seniors.now → Partway old st 0 p (set_of roles) rec.old → Partway old st 0 p 0 rec.new × Linked rec.new seniors.now }
{
    for j in roles.items() {
        rewrite_lower(rec, index, seniors, standing, j);
    }
}

// Those of all c candidates, for a record that is built afresh.
pub fn fill_lowers(rec: &mut Record, index: &Index, seniors: &Table128, standing: Set128, c: usize)
    requires c_bound { c ≤ 128 }
    ensures { (old : RoleRows) (st : State) (p : ℕ) → Target st (set_of standing) index.now → candidate_count (roles_of st) ≡ c → Linked rec.old seniors.now → Partway old st 0 p (set_of standing) rec.old → Partway old st 0 p 0 rec.new × Linked rec.new seniors.now }
{
    for j in 0..c {
        rewrite_lower(rec, index, seniors, standing, j);
    }
}
