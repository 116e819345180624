// The rows of all standing roles, for a record that is built afresh.
ghost use Rattle.std.specs.Prelude.{◌≡◌, ◌≤◌, get_or};
ghost use Rattle.model.specs.Record.{built, Limits};
ghost use Rattle.model.specs.State.{State, roles_of};
ghost use Rattle.indexes.specs.Index.{Indexed};
ghost use Rattle.rows.specs.Linked.{Linked};
ghost use Rattle.rows.specs.Partway.{WithoutRows};

use crate::lower::fill_lowers;
use crate::upper::fill_uppers;
use columns::fill_columns;
use indexes::Index;
use tables::{Record, STANDING, Table128, clear, immediate_juniors, load};

// Into a record with zero rows. Where all roles are linked at once, the seniors are a transposition of the juniors.
pub fn build_rows(rec: &mut Record, index: &Index, seniors: &mut Table128)
    requires rec_bound { get_or rec.old 2 0 ≤ 128 }
    ensures { (st : State) → Limits st → WithoutRows st rec.old → Indexed (roles_of st) index.now → (rec.new ≡ built st) × Linked rec.new seniors.new }
{
    let c = rec[2] as usize;
    let standing = load(rec, STANDING);
    fill_uppers(rec, index, standing, c);
    clear(seniors);
    fill_columns::<2>(immediate_juniors(rec), c, c, seniors);
    fill_lowers(rec, index, seniors, standing, c);
}
