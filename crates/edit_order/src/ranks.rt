// The roles of a pass by their redundancy.
ghost use Rattle.std.specs.Prelude.{◌≡◌, ◌^◌, ◌<◌};
ghost use Rattle.sets.specs.Held.{set_of};
ghost use Rattle.model.specs.Hierarchy.{candidate_count};
ghost use Rattle.model.specs.Machine.{redundancy};
ghost use Rattle.model.specs.Record.{Limits};
ghost use Rattle.model.specs.State.{State, roles_of};
ghost use Rattle.edit_order.specs.Ranking.{sets_of, Keyed};
ghost use Rattle.edit_work.specs.Work.{Prepared, PreparedFor};

use crate::redundancy::redundancy;
use edit_work::Work;
use sets::Set128;

// A set of roles to each redundancy from 0 to 128.
pub type Ranks = [Set128; 129];

// The roles of the worklist, those of redundancy q at entry q. A pass computes them once: it "orders the worklist from the state at its start".
pub fn fill_ranks(work: &Work, c: usize, counted: Set128, worklist: Set128, ranks: &mut Ranks)
    requires prepared_for { PreparedFor c work.now }
    requires worklist_bound { set_of worklist < 2 ^ c }
    ensures { (st : State) → Limits st → candidate_count (roles_of st) ≡ c → Prepared (roles_of st) work.now → Keyed c (sets_of ranks.new) (set_of worklist) (redundancy (roles_of st) (set_of counted)) }
{
    *ranks = [Set128::empty(); 129];
    for k in worklist.items() {
        let q = redundancy(work, c, counted, k);
        ranks[q] = ranks[q].insert(k);
    }
}
