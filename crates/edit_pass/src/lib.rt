// One pass of an elimination over its worklist.
#![tactic(auto)]

ghost use Rattle.std.specs.Prelude.{◌≡◌, ◌+◌, ◌≤◌};
ghost use Rattle.sets.specs.Held.{set_of};
ghost use Rattle.model.specs.Coverage.{strikables};
ghost use Rattle.model.specs.Machine.{pass};
ghost use Rattle.model.specs.Record.{state_of};
ghost use Rattle.model.specs.State.{roles_of};
ghost use Rattle.edit_work.specs.Work.{Prepared};
ghost use Rattle.edit_turn.specs.Turning.{most_examined, take_up_by, run_in, Underway, RunReached};

use edit_order::{fill_ranks, foremost};
use edit_turn::{Terms, Turn, take_up};
use edit_work::Work;
use indexes::Index;
use sets::Set128;
use tables::{Record, Table128};

// A pass: the redundancies at its start, counted over the strikable roles, and then each role of the worklist taken up, the ranks in falling order.
pub fn pass(
    rec: &mut Record,
    index: &Index,
    seniors: &mut Table128,
    work: &Work,
    terms: Terms,
    counted: Set128,
    turn: Turn,
) -> Turn
    requires underway { Underway rec.old index.now seniors.old turn }
    requires prepared { Prepared (roles_of (state_of rec.old)) work.now }
    requires counted_value { set_of counted ≡ strikables (roles_of (state_of rec.old)) (state_of rec.old).standing }
    requires examined_bound { turn.progress.examined + 128 ≤ most_examined }
    ensures run_reached { RunReached (state_of rec.old) rec.new index.now seniors.new result (pass (roles_of (state_of rec.old)) (take_up_by (roles_of (state_of rec.old)) terms) (run_in rec.old turn)) }
    ensures prepared_2 { Prepared (roles_of (state_of rec.new)) work.now }
{
    let c = rec[2] as usize;
    let mut ranks = [Set128::empty(); 129];
    fill_ranks(work, c, counted, turn.worklist, &mut ranks);
    let mut run = turn;
    let mut todo = turn.worklist;
    let mut top = c;
    // the next is the foremost by its rank, so this is no walk in the set's own order
    while let Some(front) = foremost(&ranks, todo, top) {
        let k = front.role;
        run = take_up(rec, index, seniors, terms, k, run);
        todo = todo.remove(k);
        top = front.rank;
    }
    run
}
