// Mining: the candidates of a crew list.
#![tactic(auto)]

mod candidates;
mod seen;

ghost use Rattle.std.specs.Prelude.{◌≡◌, []};
ghost use Rattle.model.specs.Candidates.{candidates};
ghost use Rattle.tables.specs.Rows.{rows_of};
ghost use Rattle.mining.specs.Mining.{Mines};

pub use candidates::Candidates;
use sets::Set256;

// Mines the rows. It answers how many candidates there are, or nothing where there are more than 128: it stops at the first candidate too many, since
// more rows never give fewer candidates.
// A row that is empty or a candidate by then costs one search at most. Each other row is a new candidate, so there are at most 128 of
// them, however many rows there are, and they meet at most 128 sets each, and the sets that they give once more. A meet is an AND and two or three
// tests of four words, and one search where it is not in its slot of the meets that were seen. At most 128 sets are put in, each with at most 508
// words moved.
pub fn mine(rows: &[[u64; 4]], found: &mut Candidates) -> Option<usize>
    requires none_yet { found.old ≡ [] }
    ensures { Mines (candidates (rows_of rows.now)) found.new result }
{
    for row in rows {
        found.add_row(Set256::from_words(*row))?;
    }
    let count = found.count();
    Some(count)
}
