// What the neighbours of a role would lose to it if it came back: what is direct with them today, and would be direct with it.
ghost use Rattle.std.specs.Prelude.{◌≡◌, ◌<◌};
ghost use Rattle.sets.specs.Held.{set_of};
ghost use Rattle.quality.specs.Numbers.{counts_in};
ghost use Rattle.edit_trials.specs.Trying.{lost_at};

use edit_rows::Links;
use indexes::Index;
use quality::Counts;
use tables::{JUNIORS, MEMBERS, PERMISSIONS, Record, SETS, load};

// What the neighbours of k would lose to it: its juniors direct members, its seniors direct permissions and links.
pub fn lost(rec: &Record, index: &Index, k: usize, links: Links) -> Counts
    requires k_bound { k < 128 }
    ensures { counts_in result ≡ lost_at rec.now index.now k (set_of links.above) (set_of links.below) }
{
    let Links { above, below } = links;
    let users = load(&index.users, 2 * k);
    let own = load(rec, SETS + 4 * k);
    let members = below
        .items()
        .map(|j| load::<2>(rec, MEMBERS + 2 * j).intersection(users).count())
        .sum::<usize>();
    let permissions = above
        .items()
        .map(|i| load::<4>(rec, PERMISSIONS + 4 * i)
            .intersection(own)
            .count())
        .sum::<usize>();
    let links = above
        .items()
        .map(|i| load::<2>(rec, JUNIORS + 2 * i).intersection(below).count())
        .sum::<usize>();
    Counts {
        roles: 0,
        members: members as u64,
        permissions: permissions as u64,
        links: links as u64,
    }
}
