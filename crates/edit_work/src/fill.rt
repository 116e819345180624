// What an elimination's redundancies are computed from.
ghost use Rattle.std.specs.Prelude.{◌≡◌, ◌*◌, ◌≤◌};
ghost use Rattle.sets.specs.Sets.{◌∪◌, single};
ghost use Rattle.model.specs.Hierarchy.{Roles, candidate_count};
ghost use Rattle.model.specs.Lists.{set_at};
ghost use Rattle.tables.specs.Tables.{Filled};
ghost use Rattle.hierarchy.specs.Tables.{Numbered};
ghost use Rattle.indexes.specs.Index.{Indexed, AllHolders};
ghost use Rattle.edit_work.specs.Work.{Prepared, IndexedFor};

use crate::further::fill_further;
use crate::holders::first_holders;
use crate::samples::find_samples;
use crate::work::Work;
use columns::fill_columns;
use indexes::Index;
use tables::{Table128, load, store};

// Each role with those below it.
fn fill_down(low: &Table128, c: usize, down: &mut Table128)
    requires { c ≤ 128 }
    ensures { Filled 2 c (λ k. set_at 2 low.now (2 * k) ∪ single k) down.old down.new }
{
    for k in 0..c {
        store(down, 2 * k, load::<2>(low, 2 * k).insert(k));
    }
}

// All of it.
pub fn fill_order(index: &Index, m: usize, c: usize, work: &mut Work)
    requires indexed_for { IndexedFor c index.now }
    requires m_bound { m ≤ 256 }
    ensures { (ρ : Roles) → candidate_count ρ ≡ c → ρ.permissions ≡ m → Numbered ρ → Indexed ρ index.now → AllHolders ρ index.now → Prepared ρ work.new }
{
    fill_down(&index.lower, c, &mut work.down);
    fill_columns::<2>(&work.down, c, c, &mut work.up);
    let count = find_samples(index, c, &mut work.samples);
    fill_columns::<2>(&work.samples, count, c, &mut work.holding);
    fill_further(work, count);
    work.first = first_holders(&index.holders, m);
}
