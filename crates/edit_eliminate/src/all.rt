// All passes.
ghost use Rattle.model.specs.Coverage.{strikables};
ghost use Rattle.model.specs.Machine.{begin, eliminated};
ghost use Rattle.model.specs.Record.{state_of};
ghost use Rattle.model.specs.State.{roles_of};
ghost use Rattle.rows.specs.Linked.{Ready};
ghost use Rattle.quality.specs.Numbers.{weights_in, tolerance_in};
ghost use Rattle.edit_trials.specs.Trying.{Exact};
ghost use Rattle.edit_work.specs.Work.{Prepared};
ghost use Rattle.edit_turn.specs.Turning.{RunReached};
ghost use Rattle.edit_eliminate.specs.Ending.{EliminationEnded};

use edit_order::strikable_roles;
use edit_pass::pass;
use edit_trials::Progress;
use edit_turn::{Terms, Turn};
use edit_work::{Work, fill_order};
use holders::fill_holders;
use indexes::Index;
use quality::Counts;
use sets::Set256;
use tables::{Record, Table128};

// Passes, from the strikable roles on, while the worklist is not empty and the pass before struck something. Each before the last strikes a role, so
// c + 1 are enough.
fn run_passes(
    rec: &mut Record,
    index: &Index,
    seniors: &mut Table128,
    work: &Work,
    terms: Terms,
    turn: Turn,
) -> Progress
    requires run_reached { RunReached (state_of rec.old) rec.old index.now seniors.old turn (begin (roles_of (state_of rec.old)) (weights_in terms.weights) (strikables (roles_of (state_of rec.old)) (state_of rec.old).standing) (state_of rec.old).standing) }
    requires prepared { Prepared (roles_of (state_of rec.old)) work.now }
    ensures { EliminationEnded (state_of rec.old) rec.new index.now seniors.new result (eliminated (roles_of (state_of rec.old)) (weights_in terms.weights) (tolerance_in terms.tolerance) (state_of rec.old).standing) }
{
    let c = rec[2] as usize;
    let mut run = turn;
    let mut counted = turn.worklist;
    for _pass in 0..c + 1 {
        if run.worklist.is_empty() {
            return run.progress;
        }
        let next = pass(rec, index, seniors, work, terms, counted, run);
        if next.progress.changed == run.progress.changed {
            return next.progress;
        }
        run = next;
        counted = strikable_roles(rec, index);
    }
    run.progress
}

// The elimination of a record whose index, immediate seniors and counts these are. Where no role is strikable there is nothing to order.
pub fn eliminate_all(
    rec: &mut Record,
    index: &mut Index,
    seniors: &mut Table128,
    terms: Terms,
    counts: Counts,
) -> Progress
    requires ready { Ready (state_of rec.old) rec.old index.old seniors.old }
    requires exact { Exact rec.old counts }
    ensures { EliminationEnded (state_of rec.old) rec.new index.new seniors.new result (eliminated (roles_of (state_of rec.old)) (weights_in terms.weights) (tolerance_in terms.tolerance) (state_of rec.old).standing) }
{
    let m = rec[1] as usize;
    let c = rec[2] as usize;
    fill_holders(rec, index, Set256::below(m));
    let progress = Progress::begin(counts, terms.weights);
    let worklist = strikable_roles(rec, index);
    if worklist.is_empty() {
        return progress;
    }
    let mut work = Work::empty();
    fill_order(index, m, c, &mut work);
    let turn = Turn { progress, worklist };
    run_passes(rec, index, seniors, &work, terms, turn)
}
