ghost use Rattle.std.specs.Prelude.{◌≤◌, ◌<◌, get_or};
ghost use Rattle.model.specs.Machine.{try_restore};
ghost use Rattle.model.specs.Record.{state_of};
ghost use Rattle.model.specs.State.{roles_of};
ghost use Rattle.quality.specs.Numbers.{weights_in};
ghost use Rattle.edit_trials.specs.Trying.{InStep};
ghost use Rattle.edit_review.specs.Reviewing.{Stepped, turn_room};

use edit_rows::put_back_at;
use edit_trials::{Progress, if_restored};
use indexes::Index;
use quality::{Weights, weigh};
use tables::{Record, STANDING, Table128, load};

// Takes up the candidate k, where it is absent: it is put back where the quality would then be strictly smaller, and else nothing is written.
pub fn try_restore(
    rec: &mut Record,
    index: &Index,
    seniors: &mut Table128,
    w: Weights,
    k: usize,
    at: Progress,
) -> Progress
    requires in_step { InStep rec.old index.now seniors.old at }
    requires k_bound { k < get_or rec.old 2 0 }
    requires changed_le_turn_room { (at.changed ≤ turn_room) × (at.examined ≤ turn_room) }
    ensures { Stepped (try_restore (roles_of (state_of rec.old)) (weights_in w) k) rec.old at rec.new index.now seniors.new result }
{
    if load::<2>(rec, STANDING).contains(k) {
        return at;
    }
    let trial = if_restored(rec, index, at.counts, k);
    let counts = trial.counts;
    let quality = weigh(counts, w);
    let examined = at.examined + 1;
    if quality < at.quality {
        put_back_at(rec, index, seniors, k, trial.links);
        return Progress {
            counts,
            quality,
            changed: at.changed + 1,
            examined,
        };
    }
    Progress { examined, ..at }
}
