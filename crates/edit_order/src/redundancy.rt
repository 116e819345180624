// The redundancy of a role.
ghost use Rattle.std.specs.Prelude.{◌≡◌, ◌^◌, ◌≤◌, ◌<◌};
ghost use Rattle.std.specs.Int.Count.{ones};
ghost use Rattle.sets.specs.Held.{set_of};
ghost use Rattle.sets.specs.Sets.{has, ◌∩◌};
ghost use Rattle.sets.specs.Truth.{when◌then◌else◌};
ghost use Rattle.model.specs.Hierarchy.{Roles, candidate_count};
ghost use Rattle.model.specs.Machine.{redundancy};
ghost use Rattle.model.specs.Record.{Limits};
ghost use Rattle.model.specs.State.{State, roles_of};
ghost use Rattle.edit_order.specs.Ranking.{LeastTo};
ghost use Rattle.edit_work.specs.Work.{entries, Prepared, PreparedFor};

use edit_work::Work;
use sets::Set128;
use tables::load;

// What the redundancy of k cannot be below: k itself covers each grant that it covers, so it is counted there if it is counted at all.
fn floor_of(counted: Set128, k: usize) -> usize
    ensures { result ≡ (when has (set_of counted) k then 1 else 0) }
{
    usize::from(counted.contains(k))
}

// One sample's part: the least of `bound` and, over these first holders, of how many counted roles of the sample are up from the holder. Those down
// from one that was asked have no fewer up from them, so they are not asked. The walk stops at the floor.
fn least_of(
    work: &Work,
    i: usize,
    counted: Set128,
    holders: Set128,
    bound: usize,
    floor: usize,
) -> usize
    requires i_bound { i < 128 }
    requires prepared { (ρ : Roles) × Prepared ρ work.now × (set_of holders < 2 ^ candidate_count ρ) }
    ensures { LeastTo floor result bound (set_of holders) (λ g. ones (entries work.now.samples i ∩ set_of counted ∩ entries work.now.up g)) }
{
    let own = load(&work.samples, 2 * i).intersection(counted);
    let mut least = bound;
    let mut rest = holders;
    while let Some(g) = rest.highest() {
        let covering = own.intersection(load(&work.up, 2 * g)).count();
        least = covering.min(least);
        if least <= floor {
            return least;
        }
        rest = rest.difference(load(&work.down, 2 * g));
    }
    least
}

// The least, over the grants that role k covers, of the number of roles of `counted` that cover the grant; c where k covers none. The roles that
// cover a grant are the user's roles that are up from the first holder of the permission. So sample users are asked, those with few roles first, which
// have the higher numbers: whoever has all their roles, and more, gives no smaller number and is not asked.
pub fn redundancy(work: &Work, c: usize, counted: Set128, k: usize) -> usize
    requires prepared_for { PreparedFor c work.now }
    requires k_lt_c { k < c }
    ensures upper_bound { result ≤ c }
    ensures value { (st : State) → Limits st → candidate_count (roles_of st) ≡ c → Prepared (roles_of st) work.now → result ≡ redundancy (roles_of st) (set_of counted) k }
{
    let floor = floor_of(counted, k);
    let holders = load(&work.down, 2 * k).intersection(work.first);
    let mut least = c;
    let mut samples = load::<2>(&work.holding, 2 * k);
    while let Some(i) = samples.highest() {
        least = least_of(work, i, counted, holders, least, floor);
        if least <= floor {
            return least;
        }
        samples = samples.difference(load(&work.further, 2 * i));
    }
    least
}
