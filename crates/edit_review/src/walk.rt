ghost use Rattle.std.specs.Prelude.{◌≡◌, ◌≤◌, get_or};
ghost use Rattle.model.specs.Machine.{review_to, reviewed};
ghost use Rattle.model.specs.Record.{state_of};
ghost use Rattle.model.specs.State.{roles_of};
ghost use Rattle.quality.specs.Numbers.{weights_in};
ghost use Rattle.rows.specs.Linked.{Ready};
ghost use Rattle.edit_trials.specs.Trying.{Exact, InStep, SameCrewList, run_at};
ghost use Rattle.edit_review.specs.Reviewing.{Stepped, pass_room};

use crate::turn::try_restore;
use edit_trials::Progress;
use indexes::Index;
use quality::{Counts, Weights};
use tables::{Record, Table128};

// A pass: the absent candidates by growing number.
fn review_pass(
    rec: &mut Record,
    index: &Index,
    seniors: &mut Table128,
    w: Weights,
    at: Progress,
) -> Progress
    requires in_step { InStep rec.old index.now seniors.old at }
    requires changed_le_pass_room { (at.changed ≤ pass_room) × (at.examined ≤ pass_room) }
    ensures { Stepped (review_to (roles_of (state_of rec.old)) (weights_in w) (get_or rec.old 2 0)) rec.old at rec.new index.now seniors.new result }
{
    let c = rec[2] as usize;
    let mut run = at;
    for k in 0..c {
        run = try_restore(rec, index, seniors, w, k, run);
    }
    run
}

// Passes, until one restores nothing. Each before the last restores a role, so c + 1 are enough.
pub fn review_all(
    rec: &mut Record,
    index: &Index,
    seniors: &mut Table128,
    w: Weights,
    counts: Counts,
) -> Progress
    requires ready { Ready (state_of rec.old) rec.old index.now seniors.old }
    requires exact { Exact rec.old counts }
    ensures ready_2 { Ready (state_of rec.new) rec.new index.now seniors.new }
    ensures same_crew_list { SameCrewList (state_of rec.old) rec.new }
    ensures result_after { run_at rec.new result 0 ≡ reviewed (roles_of (state_of rec.old)) (weights_in w) (state_of rec.old).standing }
{
    let c = rec[2] as usize;
    let mut run = Progress::begin(counts, w);
    for _pass in 0..c + 1 {
        let next = review_pass(rec, index, seniors, w, run);
        if next.changed == run.changed {
            return next;
        }
        run = next;
    }
    run
}
