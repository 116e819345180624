// A growing table of sets: searched, and a set put at its place.
ghost use Rattle.std.specs.Prelude.{◌+◌, ◌*◌, ◌≤◌, length};
ghost use Rattle.sets.specs.Held.{set_of};
ghost use Rattle.model.specs.Candidates.{Growing};
ghost use Rattle.tables.specs.Rows.{rows_of};
ghost use Rattle.tables.specs.Search.{Finds, Inserts};

use crate::store;
use sets::Set256;

// Looks for x among sets that grow: its place, or as an error the place where it belongs. Among 128 sets it compares 8 times.
pub fn search(sets: &[[u64; 4]], x: Set256) -> Result<usize, usize>
    requires growing { Growing (rows_of sets.now) }
    ensures { Finds (length sets.now) (rows_of sets.now) (set_of x) result }
{
    sets.binary_search_by(|row| Set256::from_words(*row).compare(x))
}

// Moves the sets from place `at` on up by one place, the last word first, and puts x at `at`.
pub fn insert(table: &mut [u64], n: usize, at: usize, x: Set256)
    requires at_le_n { at ≤ n }
    requires n_in_bounds { 4 * (n + 1) ≤ length table.old }
    ensures { Inserts n at (set_of x) table.old table.new }
{
    for i in (4 * at + 4..4 * n + 4).rev() {
        table[i] = table[i - 4];
    }
    store(table, 4 * at, x);
}
