// One role taken up.
#![tactic(auto)]

ghost use Rattle.std.specs.Prelude.{◌≡◌, ◌*◌, ◌≤◌, ◌<◌, ltb};
ghost use Rattle.std.proofs.Math.Bool.{So};
ghost use Rattle.sets.specs.Sets.{has};
ghost use Rattle.model.specs.Record.{state_of};
ghost use Rattle.model.specs.State.{roles_of};
ghost use Rattle.quality.specs.Numbers.{most_quality};
ghost use Rattle.edit_turn.specs.Turning.{most_examined, take_up_by, run_in, Underway, RunReached};

use edit_rows::take_out_at;
use edit_test::removable;
use edit_trials::{Progress, if_struck};
use indexes::Index;
use quality::{Tolerance, Weights, weigh};
use sets::Set128;
use tables::{Record, Table128};

// The weights and the tolerance of an elimination.
#[derive(Clone, Copy)]
pub struct Terms {
    pub weights: Weights,
    pub tolerance: Tolerance,
}

// How far an elimination has come: the progress, and the worklist.
#[derive(Clone, Copy)]
pub struct Turn {
    pub progress: Progress,
    pub worklist: Set128,
}

// Whether a strike that leaves this quality is within the tolerance of the quality that it is compared with.
fn tolerated(t: Tolerance, quality: u64, reference: u64) -> bool
    requires quality_le_most_quality { quality ≤ most_quality }
    requires reference_le_most_quality { reference ≤ most_quality }
    ensures { result ≡ ltb (t.denominator * quality) (t.numerator * reference) }
{
    t.denominator * quality < t.numerator * reference
}

// Takes up the standing role k. Where it is not strikable it leaves the worklist; otherwise its strike is weighed, and it is taken out where the
// quality is then within the tolerance.
pub fn take_up(
    rec: &mut Record,
    index: &Index,
    seniors: &mut Table128,
    terms: Terms,
    k: usize,
    turn: Turn,
) -> Turn
    requires underway { Underway rec.old index.now seniors.old turn }
    requires so { So (has (state_of rec.old).standing k) }
    requires k_bound { k < 128 }
    requires examined_lt_most_examined { turn.progress.examined < most_examined }
    ensures { RunReached (state_of rec.old) rec.new index.now seniors.new result (take_up_by (roles_of (state_of rec.old)) terms k (run_in rec.old turn)) }
{
    let at = turn.progress;
    let worklist = turn.worklist;
    let before = at.counts;
    let examined = at.examined + 1;
    let unstruck = Progress { examined, ..at };
    if !removable(rec, index, k) {
        return Turn {
            progress: unstruck,
            worklist: worklist.remove(k),
        };
    }
    let trial = if_struck(rec, index, seniors, before, k);
    let counts = trial.counts;
    let quality = weigh(counts, terms.weights);
    if !tolerated(terms.tolerance, quality, at.quality) {
        return Turn {
            progress: unstruck,
            worklist,
        };
    }
    take_out_at(rec, index, seniors, k, trial.links);
    Turn {
        progress: Progress {
            counts,
            quality,
            changed: at.changed + 1,
            examined,
        },
        worklist: worklist.remove(k),
    }
}
