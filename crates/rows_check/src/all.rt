ghost use Rattle.std.specs.Prelude.{◌≡◌, ◌↔◌, ◌≤◌, get_or};
ghost use Rattle.std.proofs.Math.Bool.{So};
ghost use Rattle.model.specs.Record.{built, Limits};
ghost use Rattle.model.specs.State.{State, roles_of};
ghost use Rattle.indexes.specs.Index.{Indexed};
ghost use Rattle.rows.specs.Linked.{Linked};
ghost use Rattle.rows.specs.Partway.{Headed};
ghost use Rattle.rows_check.specs.Held.{NoneBehind};

use crate::lower::lowers_match;
use crate::upper::uppers_match;
use columns::fill_columns;
use indexes::Index;
use tables::{
    JUNIORS, LENGTH, MEMBERS, PERMISSIONS, Record, STANDING, Table128, clear, immediate_juniors,
    load, zeros,
};

// Whether there is nothing behind the rows of c roles.
fn none_behind(rec: &Record, c: usize) -> bool
    requires c_bound { c ≤ 128 }
    ensures { So result ↔ NoneBehind rec.now c }
{
    zeros(rec, PERMISSIONS + 4 * c, MEMBERS)
        && zeros(rec, MEMBERS + 2 * c, JUNIORS)
        && zeros(rec, JUNIORS + 2 * c, LENGTH)
}

// Whether a record whose header, crew rows and candidates are in order is built afresh, row by row. Once its juniors are known to be right, the seniors
// are a transposition of them; they are left in the table.
pub fn rows_match(rec: &Record, index: &Index, seniors: &mut Table128) -> bool
    requires rec_bound { get_or rec.now 2 0 ≤ 128 }
    ensures { (st : State) → Limits st → Headed st rec.now → Indexed (roles_of st) index.now → (So result ↔ (rec.now ≡ built st)) × (So result → Linked rec.now seniors.new) }
{
    let c = rec[2] as usize;
    let standing = load(rec, STANDING);
    if !none_behind(rec, c) {
        return false;
    }
    if !uppers_match(rec, index, standing, c) {
        return false;
    }
    clear(seniors);
    fill_columns::<2>(immediate_juniors(rec), c, c, seniors);
    lowers_match(rec, index, seniors, standing, c)
}
