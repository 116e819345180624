// The roles that hold a permission.
#![tactic(auto)]

ghost use Rattle.std.specs.Prelude.{◌≡◌, ◌*◌, ◌≤◌, get_or};
ghost use Rattle.sets.specs.Held.{set_of};
ghost use Rattle.sets.specs.Sets.{has, collect};
ghost use Rattle.model.specs.Lists.{set_at};
ghost use Rattle.model.specs.Hierarchy.{Roles};
ghost use Rattle.model.specs.Record.{built, Limits};
ghost use Rattle.model.specs.State.{State, roles_of};
ghost use Rattle.indexes.specs.Index.{Indexed, HoldersFor};
ghost use Rattle.columns.specs.Filling.{HoldsFor};

use columns::{fill_columns, fill_columns_for};
use indexes::{Holders, Index};
use sets::Set256;
use tables::{Record, Table256, candidate_sets};

// The holders of each of these permissions, in the index. Its other tables are left.
pub fn fill_holders(rec: &Record, index: &mut Index, permissions: Set256)
    requires rec_bound { get_or rec.now 2 0 ≤ 128 }
    ensures holders_for { (st : State) → Limits st → rec.now ≡ built st → HoldersFor (roles_of st) (set_of permissions) index.new }
    ensures indexed { (ρ : Roles) → Indexed ρ index.old → Indexed ρ index.new }
{
    let c = rec[2] as usize;
    fill_holders_of(candidate_sets(rec), c, permissions, &mut index.holders);
}

// Those of a table of c sets. A strike asks for the role's direct permissions only; where they are many, a transposition that tells all 256 costs less
// than a column for each.
fn fill_holders_of(sets: &Table256, c: usize, permissions: Set256, out: &mut Holders)
    requires c_bound { c ≤ 128 }
    ensures { HoldsFor (set_of permissions) (λ p. collect c (λ k. has (set_at 4 sets.now (4 * k)) p)) out.new }
{
    if permissions.count() < 24 {
        fill_columns_for::<4>(sets, c, permissions, out);
    } else {
        fill_columns::<4>(sets, c, 256, out);
    }
}
