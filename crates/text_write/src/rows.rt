// The rows of a crew text.
ghost use Rattle.std.specs.Prelude.{◌≡◌, ◌+◌, ◌*◌, ◌<◌, ◌≤◌, length};
ghost use Rattle.model.specs.Lists.{set_at, rows_at};
ghost use Rattle.model.specs.Record.{crew_start};
ghost use Rattle.stores.specs.Stores.{put_at};
ghost use Rattle.text.specs.Decimal.{decimal};
ghost use Rattle.text_lines.specs.Format.{digits_for, row_line, row_lines};

use tables::{CREW, Record, load};
use text::{put_bytes, put_decimal};
use text_lines::digits_for;
use text_sets::put_hexadecimal;

// The line of user u of a record, from place `at` on; the place after it.
fn put_row(rec: &Record, u: usize, m: u64, out: &mut [u8], at: usize) -> usize
    requires u_bound { u < 128 }
    requires m_bound { m ≤ 256 }
    requires m_in_bounds { at + (length (decimal u) + 1 + digits_for m + 1) ≤ length out.old }
    ensures value { result ≡ at + length (row_line m u (set_at 4 rec.now (crew_start + 4 * u))) }
    ensures out_after { out.new ≡ put_at out.old at (row_line m u (set_at 4 rec.now (crew_start + 4 * u))) }
{
    let between = put_decimal(out, at, u as u64);
    let row = put_bytes(out, between, b",");
    let end = put_hexadecimal(out, row, &load::<4>(rec, CREW + 4 * u), digits_for(m));
    put_bytes(out, end, b"\n")
}

// The lines of the n users of a record, from place `start` on; the place after them.
pub fn put_rows(rec: &Record, n: usize, m: u64, out: &mut [u8], start: usize) -> usize
    requires n_bound { n ≤ 128 }
    requires m_bound { m ≤ 256 }
    requires n_in_bounds { start + length (row_lines m (rows_at n rec.now crew_start) n) ≤ length out.old }
    ensures value { result ≡ start + length (row_lines m (rows_at n rec.now crew_start) n) }
    ensures out_after { out.new ≡ put_at out.old start (row_lines m (rows_at n rec.now crew_start) n) }
{
    let mut at = start;
    for u in 0..n {
        at = put_row(rec, u, m, out, at);
    }
    at
}
