// A freshly mined record.
ghost use Rattle.std.specs.Prelude.{◌≡◌, length};
ghost use Rattle.model.specs.Candidates.{candidates};
ghost use Rattle.model.specs.Record.{built, Limits};
ghost use Rattle.model.specs.State.{fresh};
ghost use Rattle.tables.specs.Rows.{rows_of};

use crate::begin::{begin_record, complete_record};
use indexes::Index;
use mining::Candidates;
use sets::Set128;
use tables::{Record, SETS, clear, copy};

// Writes the record of a crew list, with all its candidates standing. Whatever the record held is cleared first.
pub fn write_fresh(rec: &mut Record, found: &Candidates, rows: &[[u64; 4]], m: u64)
    requires limits { Limits (fresh (length rows.now) m (rows_of rows.now)) }
    requires mined { found.now ≡ candidates (rows_of rows.now) }
    ensures { rec.new ≡ built (fresh (length rows.now) m (rows_of rows.now)) }
{
    clear(rec);
    copy(rec, SETS, found.table());
    let c = found.count();
    begin_record(rec, rows, m, c, Set128::below(c));
    let mut index = Index::empty();
    let mut seniors = [0u64; 256];
    complete_record(rec, &mut index, &mut seniors);
}
