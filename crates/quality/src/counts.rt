// The four counts over a record's rows.
ghost use Rattle.std.specs.Prelude.{◌≡◌, ◌≤◌, get_or};
ghost use Rattle.model.specs.Lists.{set_at};
ghost use Rattle.model.specs.Record.{role_rows_of};
ghost use Rattle.model.specs.Quality as model;
ghost use Rattle.quality.specs.Numbers.{counts_in, Few};

use tables::{JUNIORS, MEMBERS, PERMISSIONS, Record, STANDING, load};

#[derive(Clone, Copy)]
pub struct Counts {
    pub roles: u64,
    pub members: u64,
    pub permissions: u64,
    pub links: u64,
}

// The counts over the rows of the record's roles. Three calls count, and each would have the sums, which the compiler widens, in its own code.
#[inline(never)]
pub fn count_rows(rec: &Record) -> Counts
    requires rec_bound { get_or rec.now 2 0 ≤ 128 }
    ensures result_value { counts_in result ≡ model.counted (get_or rec.now 2 0) (role_rows_of rec.now) (set_at 2 rec.now 4) }
    ensures few { Few result }
{
    let c = rec[2] as usize;
    let roles = load::<2>(rec, STANDING).count();
    let members = (0..c)
        .map(|k| load::<2>(rec, MEMBERS + 2 * k).count())
        .sum::<usize>();
    let permissions = (0..c)
        .map(|k| load::<4>(rec, PERMISSIONS + 4 * k).count())
        .sum::<usize>();
    let links = (0..c)
        .map(|k| load::<2>(rec, JUNIORS + 2 * k).count())
        .sum::<usize>();
    Counts {
        roles: roles as u64,
        members: members as u64,
        permissions: permissions as u64,
        links: links as u64,
    }
}
