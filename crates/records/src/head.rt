// Whether a record's header, crew rows and candidates are in order.
ghost use Rattle.std.specs.Prelude.{◌≡◌, ◌↔◌, ◌≤◌, get_or};
ghost use Rattle.std.proofs.Math.Bool.{So};
ghost use Rattle.model.specs.Candidates.{candidates};
ghost use Rattle.model.specs.Record.{state_of};
ghost use Rattle.rows.specs.Partway.{Headed};
ghost use Rattle.records.specs.Records.{UnusedZero};

use mining::Candidates;
use tables::{CREW, Record, SETS, equal_at, zeros};

// Whether words 3, 6 and 7 are zero, and what is behind the crew rows of n users.
fn unused_zero(rec: &Record, n: usize) -> bool
    requires n_bound { n ≤ 128 }
    ensures { So result ↔ UnusedZero rec.now n }
{
    zeros(rec, 3, 4) && zeros(rec, 6, CREW) && zeros(rec, CREW + 4 * n, SETS)
}

// Whether all before the rows is what the record's own state gives, whose candidates were found.
pub fn is_headed(rec: &Record, found: &Candidates) -> bool
    requires rec_bound { get_or rec.now 0 0 ≤ 128 }
    requires mined { found.now ≡ candidates (state_of rec.now).rows }
    ensures { So result ↔ Headed (state_of rec.now) rec.now }
{
    let c = found.count();
    let table = found.table();
    rec[2] as usize == c && unused_zero(rec, rec[0] as usize) && equal_at(rec, SETS, table)
}
