// Counts of one role, and counts corrected.
ghost use Rattle.std.specs.Prelude.{◌≡◌};
ghost use Rattle.sets.specs.Held.{set_of};
ghost use Rattle.quality.specs.Numbers.{counts_in, Few};
ghost use Rattle.edit_trials.specs.Trying.{role_counts, Within, Corrected};

use edit_rows::Links;
use quality::Counts;
use sets::{Set128, Set256};

// A role with this row: itself, its direct members and permissions, and a link to each junior and from each senior.
pub fn role_counts(members: Set128, permissions: Set256, links: Links) -> Counts
    ensures few { Few result }
    ensures result_value { counts_in result ≡ role_counts (set_of members) (set_of permissions) (set_of links.above) (set_of links.below) }
{
    let neighbours = links.below.count() + links.above.count();
    Counts {
        roles: 1,
        members: members.count() as u64,
        permissions: permissions.count() as u64,
        links: neighbours as u64,
    }
}

// The counts q less some of them, and with others added.
pub fn corrected(q: Counts, before: Counts, after: Counts) -> Counts
    requires few { Few q }
    requires few_2 { Few after }
    requires within { Within before q }
    ensures { Corrected q before after result }
{
    Counts {
        roles: q.roles - before.roles + after.roles,
        members: q.members - before.members + after.members,
        permissions: q.permissions - before.permissions + after.permissions,
        links: q.links - before.links + after.links,
    }
}
