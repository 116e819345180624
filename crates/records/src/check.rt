// Whether a record is sound: its candidates are mined anew from its own header and crew rows, its rows computed anew, and each part compared.
ghost use Rattle.std.specs.Prelude.{◌≡◌, get_or};
ghost use Rattle.std.proofs.Math.Bool.{So};
ghost use Rattle.sets.specs.Truth.{◌and◌};
ghost use Rattle.model.specs.Lists.{rows_at};
ghost use Rattle.model.specs.Record.{crew_start, state_of, sound, Limits};
ghost use Rattle.model.specs.State.{within_limits, rows_within};
ghost use Rattle.rows.specs.Linked.{Ready};
ghost use Rattle.rows.specs.Partway.{Headed};

use crate::begin::index_record;
use crate::cover::all_covered;
use crate::head::is_headed;
use indexes::Index;
use limits::{limits_kept, rows_within};
use mining::{Candidates, mine};
use rows_check::rows_match;
use sets::Set128;
use tables::{CREW, Record, STANDING, Table128, as_rows, load};

// Whether the header and the crew rows keep the limits, which are judged before any loop runs by them.
fn within(rec: &Record) -> bool
    ensures { result ≡ (within_limits (get_or rec.now 0 0) (get_or rec.now 1 0) and rows_within (get_or rec.now 1 0) (rows_at (get_or rec.now 0 0) rec.now crew_start)) }
{
    let n = rec[0];
    let m = rec[1];
    limits_kept(n, m) && rows_within(as_rows(rec, CREW, n as usize), m as usize)
}

// Whether a record that is in order before its rows covers its grants and has the rows of its building. The index and the immediate seniors made on
// the way are left.
fn matches(rec: &Record, index: &mut Index, seniors: &mut Table128) -> bool
    requires limits { Limits (state_of rec.now) }
    requires headed { Headed (state_of rec.now) rec.now }
    ensures value { result ≡ sound rec.now }
    ensures ready { So (sound rec.now) → Ready (state_of rec.now) rec.now index.new seniors.new }
{
    index_record(rec, index);
    all_covered(rec, index) && rows_match(rec, index, seniors)
}

// Whether the record is sound. What is cheap to test comes first; no second record is built. Where it is sound, `index` and `seniors` hold what is
// computed beside it.
pub fn is_sound(rec: &Record, index: &mut Index, seniors: &mut Table128) -> bool
    ensures value { result ≡ sound rec.now }
    ensures ready { So (sound rec.now) → Ready (state_of rec.now) rec.now index.new seniors.new }
{
    if !within(rec) {
        return false;
    }
    let n = rec[0] as usize;
    let mut found = Candidates::none();
    let Some(c) = mine(as_rows(rec, CREW, n), &mut found) else {
        return false;
    };
    if !load(rec, STANDING).is_subset(Set128::below(c)) {
        return false;
    }
    if !is_headed(rec, &found) {
        return false;
    }
    matches(rec, index, seniors)
}
