// The rows, one after another.
ghost use Rattle.std.specs.Prelude.{◌≡◌, ◌≤◌, []};
ghost use Rattle.text_crew.specs.Reader.{RowsLaid, laid, rows_end, rows_to};

use refusals::Refusal;
use sets::Set256;
use tables::store;
use text::Rest;
use text_lines::{digits_for, read_row};
use text_sets::hexadecimal_set;

// Reads n rows into empty words, which are of use only where all rows are read; the place after them.
pub fn read_rows(start: Rest, n: usize, m: u64, words: &mut [u64]) -> Result<usize, Refusal>
    requires { (n ≤ 128) × (m ≤ 256) × (words.old ≡ laid []) }
    ensures value { result ≡ rows_end (rows_to start.entry.text.now m start.entry.at n) }
    ensures rows_laid { RowsLaid (rows_to start.entry.text.now m start.entry.at n) words.new }
{
    let d = digits_for(m);
    let allowed = Set256::below(m as usize);
    let mut rest = start;
    for u in 0..n {
        let digits = read_row(rest, u, d).ok_or(Refusal::Text)?;
        let s = hexadecimal_set(digits, d);
        if !s.is_subset(allowed) {
            return Err(Refusal::Crew);
        }
        store(words, 4 * u, s);
        rest = digits.skip(d + 1);
    }
    Ok(rest.at)
}
