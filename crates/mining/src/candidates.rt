// What is found while rows are mined, and how one more row adds to it.
ghost use Rattle.std.specs.Prelude.{◌≡◌, ◌≤◌, [], length};
ghost use Rattle.sets.specs.Held.{set_of};
ghost use Rattle.model.specs.Candidates.{place, add_row, Listed, Growing, Table};
ghost use Rattle.tables.specs.Search.{Between, Finds};
ghost use Rattle.mining.specs.Mining.{Adds, Written};

use crate::seen::{Slots, is_known, remember};
use sets::Set256;
use std::marker::Model;
use tables::{Table256, as_rows, insert, load, search};

// The most sets that there is room for.
const LIMIT: usize = 128;

// The candidates that were found so far, each once. A contract sees the list of these sets.
#[derive(Drop)]
pub struct Candidates {
    // their words, as numbers that grow, and zeros behind them
    table: Table256,
    count: usize,
    // meets that are among them
    seen: Slots,
}

impl Model for Candidates {
    ghost use Rattle.std.specs.Prelude.{List, ℕ};
    ghost use Rattle.model.specs.Lists.{rows_at};
    ghost use Rattle.mining.specs.Mining.{Gathered, sets_of};

    ghost Value = { List ℕ };

    ghost view = { λ c. rows_at c.count c.table 0 };

    ghost invariant = { λ c. Gathered c.table c.count (sets_of c.seen) };
}

impl Candidates {
    pub fn none() -> Self
        ensures { result ≡ [] }
    {
        Candidates {
            table: [0; 512],
            count: 0,
            seen: [Set256::empty(); 128],
        }
    }

    pub fn count(&self) -> usize
        ensures value { result ≡ length self.now }
        ensures upper_bound { result ≤ 128 }
    {
        self.count
    }

    // Their words, four to a set, and zeros behind them.
    pub fn table(&self) -> &Table256
        ensures { Written result.now self.now }
    {
        &self.table
    }

    fn find(&self, x: Set256) -> Result<usize, usize>
        ensures place { Finds (length self.now) self.now (set_of x) result }
        ensures grows { Growing self.now }
    {
        search(as_rows(&self.table, 0, self.count), x)
    }

    // Puts x, which is not there, at its place. Like each function below it gives nothing where there is no room for another set.
    fn put(&mut self, at: usize, x: Set256) -> Option<()>
        requires { Between (length self.old) self.old (set_of x) at }
        ensures { Adds (place (set_of x) self.old) self.new result }
    {
        if self.count == LIMIT {
            return None;
        }
        insert(&mut self.table, self.count, at, x);
        self.count += 1;
        Some(())
    }

    // One search, and x is put at its place where it is new.
    fn place(&mut self, x: Set256) -> Option<()>
        ensures { Adds (place (set_of x) self.old) self.new result }
    {
        let Err(at) = self.find(x) else {
            return Some(());
        };
        self.put(at, x)
    }

    // The same, and from now on x is known.
    fn admit(&mut self, x: Set256) -> Option<()>
        ensures { Adds (place (set_of x) self.old) self.new result }
    {
        self.place(x)?;
        remember(&mut self.seen, x);
        Some(())
    }

    // Admits the intersections of r, which is there, with the sets that are. They come into the same table while it is walked: one
    // that comes below place i moves the set at i up, so that its meet is asked for again, and is known then; one that comes above is
    // within r, and is its own meet. So no set is left out, and no copy of the table is needed.
    fn add_meets(&mut self, r: Set256) -> Option<()>
        requires grows { Growing self.old }
        requires there { Listed self.old (set_of r) }
        ensures { Adds (add_row (set_of r) self.old) self.new result }
    {
        let mut i = 0;
        while i < self.count {
            let x = load(&self.table, 4 * i);
            let y = r.intersection(x);
            i += 1;
            if is_known(&self.seen, x, y) {
                continue;
            }
            self.admit(y)?;
        }
        Some(())
    }

    // One more user's row. An empty row, or one that is there, adds nothing; another is put at its place, and then its intersections with the sets
    // that were there.
    pub(crate) fn add_row(&mut self, r: Set256) -> Option<()>
        requires { Table self.old }
        ensures { Adds (add_row (set_of r) self.old) self.new result }
    {
        if r.is_empty() {
            return Some(());
        }
        let Err(at) = self.find(r) else {
            return Some(());
        };
        self.put(at, r)?;
        self.add_meets(r)
    }
}
