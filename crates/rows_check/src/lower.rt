// Direct members.
ghost use Rattle.std.specs.Prelude.{◌≡◌, ◌↔◌, ℕ, ◌≤◌, ◌<◌};
ghost use Rattle.std.proofs.Math.Bool.{So};
ghost use Rattle.sets.specs.Held.{set_of};
ghost use Rattle.model.specs.Hierarchy.{immediate_juniors};
ghost use Rattle.model.specs.State.{State, roles_of};
ghost use Rattle.rows.specs.Linked.{juniors_in, Linked};
ghost use Rattle.rows.specs.Partway.{Target};
ghost use Rattle.rows_check.specs.Held.{LowerHeld};

use hierarchy::members_of;
use indexes::Index;
use sets::Set128;
use tables::{MEMBERS, Record, Table128, load};

// Those of role j. The juniors that the record holds, and with them the seniors, are those of the standing set.
fn lower_matches(
    rec: &Record,
    index: &Index,
    seniors: &Table128,
    standing: Set128,
    j: usize,
) -> bool
    requires j_bound { j < 128 }
    ensures { (st : State) → Target st (set_of standing) index.now → Linked rec.now seniors.now → ((i : ℕ) → i < 128 → juniors_in rec.now i ≡ immediate_juniors (roles_of st) (set_of standing) i) → So result ↔ LowerHeld st rec.now j }
{
    let above = load(seniors, 2 * j);
    let members = members_of(&index.users, above, standing, j);
    load(rec, MEMBERS + 2 * j) == members
}

// Those of all c candidates.
pub fn lowers_match(
    rec: &Record,
    index: &Index,
    seniors: &Table128,
    standing: Set128,
    c: usize,
) -> bool
    requires c_bound { c ≤ 128 }
    ensures { (st : State) → Target st (set_of standing) index.now → Linked rec.now seniors.now → ((i : ℕ) → i < 128 → juniors_in rec.now i ≡ immediate_juniors (roles_of st) (set_of standing) i) → So result ↔ ((k : ℕ) → k < c → LowerHeld st rec.now k) }
{
    (0..c).all(|j| lower_matches(rec, index, seniors, standing, j))
}
