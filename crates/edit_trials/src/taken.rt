// What the neighbours of a role would take over from it if it were struck: what is direct with it, and is with none of their other neighbours.
ghost use Rattle.std.specs.Prelude.{◌≡◌, ◌<◌};
ghost use Rattle.sets.specs.Held.{set_of};
ghost use Rattle.quality.specs.Numbers.{counts_in, Few};
ghost use Rattle.edit_trials.specs.Trying.{taken_at};

use edit_rows::{Links, heirs};
use hierarchy::less;
use indexes::Index;
use quality::Counts;
use tables::{JUNIORS, MEMBERS, PERMISSIONS, Record, Table128, candidate_sets, load};

// What the neighbours of k would take over: its juniors direct members, its seniors direct permissions and links to its juniors.
pub fn taken(rec: &Record, index: &Index, seniors: &Table128, k: usize, links: Links) -> Counts
    requires k_bound { k < 128 }
    ensures few { Few result }
    ensures result_value { counts_in result ≡ taken_at rec.now index.now seniors.now k (set_of links.above) (set_of links.below) }
{
    let Links { above, below } = links;
    let users = load::<2>(rec, MEMBERS + 2 * k);
    let own = load::<4>(rec, PERMISSIONS + 4 * k);
    let sets = candidate_sets(rec);
    let members = heirs(users, below)
        .items()
        .map(|j| less(&index.users, users, load(seniors, 2 * j).remove(k)).count())
        .sum::<usize>();
    let permissions = heirs(own, above)
        .items()
        .map(|i| less(sets, own, load(rec, JUNIORS + 2 * i).remove(k)).count())
        .sum::<usize>();
    let links = heirs(below, above)
        .items()
        .map(|i| less(&index.lower, below, load(rec, JUNIORS + 2 * i).remove(k)).count())
        .sum::<usize>();
    Counts {
        roles: 0,
        members: members as u64,
        permissions: permissions as u64,
        links: links as u64,
    }
}
