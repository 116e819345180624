// The crew text of a record, written into bytes.
#![tactic(auto)]

ghost use Rattle.std.specs.Prelude.{◌≡◌, List, ℕ, ◌+◌, ◌≤◌, length};
ghost use Rattle.std.proofs.Math.Bool.{So};
ghost use Rattle.model.specs.Record.{sound};
ghost use Rattle.stores.specs.Stores.{put_at};
ghost use Rattle.text.specs.Decimal.{decimal};
ghost use Rattle.text_lines.specs.Format.{header_line, crew_text};
ghost use Rattle.text_write.specs.Text.{record_text};

mod rows;

use crate::rows::put_rows;
use tables::Record;
use text::{decimal_length, put_first_line};
use text_lines::digits_for;

// The crew text of 128 users and 256 permissions: no record has a longer one.
pub const LONGEST_WRITTEN: usize = 8735;

// How many bytes the crew text of n users and m permissions has, whatever their rows are.
pub fn text_length(n: u64, m: u64) -> usize
    requires n_bound { n ≤ 128 }
    requires m_bound { m ≤ 256 }
    ensures { (rows : List ℕ) → result ≡ length (crew_text n m rows) }
{
    // `crew,`, a comma and the line's end; for each row a comma and the line's end
    let header = 7 + decimal_length(n) + decimal_length(m);
    let row = 2 + digits_for(m);
    header + (0..n).map(|u| decimal_length(u) + row).sum::<usize>()
}

// The first line; the place after it.
fn put_header(out: &mut [u8], n: u64, m: u64) -> usize
    requires { 7 + length (decimal n) + length (decimal m) ≤ length out.old }
    ensures value { result ≡ length (header_line n m) }
    ensures out_after { out.new ≡ put_at out.old 0 (header_line n m) }
{
    put_first_line(out, b"crew,", n, m)
}

// Writes the crew text of a record from the first byte on.
pub fn put_crew(rec: &Record, out: &mut [u8])
    requires so { So (sound rec.now) }
    requires rec_in_bounds { length (record_text rec.now) ≤ length out.old }
    ensures { out.new ≡ put_at out.old 0 (record_text rec.now) }
{
    let start = put_header(out, rec[0], rec[1]);
    put_rows(rec, rec[0] as usize, rec[1], out, start);
}
