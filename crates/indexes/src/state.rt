// The whole index.
ghost use Rattle.std.specs.Prelude.{◌≤◌, length, get_or, take, drop};
ghost use Rattle.model.specs.Record.{sets_start};
ghost use Rattle.model.specs.State.{State, roles_of};
ghost use Rattle.indexes.specs.Index.{Indexed};
ghost use Rattle.indexes.specs.Tables.{FillsFrom, Source};
ghost use Rattle.tables.specs.Rows.{rows_of};
ghost use Rattle.tables.specs.Tables.{table256_length};

use crate::index::Index;
use crate::own::fill_roles;
use crate::shared::fill_shared;
use columns::fill_columns;
use tables::{Record, candidate_sets};

// The index of a record that has its header and its candidates, for users with these rows: the rows that give members are handed over, since they need
// not be those of the record that gives the candidates. It takes a search to a user, at most c subset tests for each row that
// differs, a transposition of bits, and for each role that is nobody's row an intersection with the roles of each row that contains it. For 128 roles
// that are all rows these are 8,128 tests.
pub fn fill_index(rec: &Record, rows: &[[u64; 4]], index: &mut Index)
    requires fills_from { FillsFrom rec.now }
    requires rows_len { length rows.now ≤ 128 }
    ensures { (st : State) → Source st (rows_of rows.now) (length rows.now) (take table256_length (drop sets_start rec.now)) (get_or rec.now 2 0) → Indexed (roles_of st) index.new }
{
    let c = rec[2] as usize;
    let sets = candidate_sets(rec);
    let own = fill_roles(rows, sets, c, &mut index.lower, &mut index.roles);
    fill_columns::<2>(&index.roles, rows.len(), c, &mut index.users);
    fill_shared(&index.roles, &index.users, own, c, &mut index.lower);
}
