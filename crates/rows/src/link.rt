// Immediate juniors rewritten where the table of immediate seniors holds those of the record: it is altered with them.
ghost use Rattle.std.specs.Prelude.{◌≡◌, ◌≢◌, ℕ, ◌<◌};
ghost use Rattle.sets.specs.Held.{set_of};
ghost use Rattle.sets.specs.Sets.{◌∪◌, ◌∖◌, single};
ghost use Rattle.sets.specs.Truth.{when◌then◌else◌};
ghost use Rattle.model.specs.Hierarchy.{RoleRows};
ghost use Rattle.model.specs.State.{State};
ghost use Rattle.rows.specs.Linked.{Turned, Linked};
ghost use Rattle.rows.specs.Partway.{Partway, Target};

use crate::upper::rewrite_upper;
use indexes::Index;
use sets::Set128;
use tables::{JUNIORS, Record, Table128, load, store};

// The set with the item i, or without it.
fn with_or_without(s: Set128, i: usize, with: bool) -> Set128
    requires { i < 128 }
    ensures { set_of result ≡ (when with then set_of s ∪ single i else set_of s ∖ single i) }
{
    if with {
        return s.insert(i);
    }
    s.remove(i)
}

// Where the juniors of role i were `old` and are `new`, it becomes a senior of those that it gained and none of those that it lost. The others'
// entries are as they were.
fn relink(seniors: &mut Table128, i: usize, old: Set128, new: Set128)
    requires i_bound { i < 128 }
    ensures { (f g : ℕ → ℕ) → Turned f seniors.old → set_of old ≡ f i → set_of new ≡ g i → ((a : ℕ) → a < 128 → a ≢ i → g a ≡ f a) → Turned g seniors.new }
{
    for j in old.difference(new).union(new.difference(old)).items() {
        let entry = load(seniors, 2 * j);
        store(seniors, 2 * j, with_or_without(entry, i, new.contains(j)));
    }
}

// The immediate juniors and direct permissions of role i.
fn relink_upper(rec: &mut Record, index: &Index, seniors: &mut Table128, standing: Set128, i: usize)
    requires i_bound { i < 128 }
    ensures { (old : RoleRows) (st : State) (s p t : ℕ) → Target st (set_of standing) index.now → Partway old st s p t rec.old → Linked rec.old seniors.old → Partway old st (s ∖ single i) (p ∖ single i) t rec.new × Linked rec.new seniors.new }
{
    let old = load(rec, JUNIORS + 2 * i);
    rewrite_upper(rec, index, standing, i);
    let new = load(rec, JUNIORS + 2 * i);
    relink(seniors, i, old, new);
}

// Those of the roles in `roles`.
pub fn relink_uppers(
    rec: &mut Record,
    index: &Index,
    seniors: &mut Table128,
    standing: Set128,
    roles: Set128,
)
    ensures { (old : RoleRows) (st : State) (t : ℕ) → Target st (set_of standing) index.now → Partway old st (set_of roles) (set_of roles) t rec.old → Linked rec.old seniors.old → Partway old st 0 0 t rec.new × Linked rec.new seniors.new }
{
    for i in roles.items() {
        relink_upper(rec, index, seniors, standing, i);
    }
}
