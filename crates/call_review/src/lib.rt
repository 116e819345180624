#![tactic(auto)]

ghost use Rattle.std.specs.Prelude.{◌≡◌};
ghost use Rattle.model.specs.Calls.{edit};
ghost use Rattle.model.specs.Machine.Call.{review};
ghost use Rattle.quality.specs.Given.{weights_of};
ghost use Rattle.call_review.specs.Results.{review_result};

use calls::{allowed_weights, enter};
use calls_edit::Done;
use edit_review::review_all;
use indexes::Index;
use quality::count_rows;
use refusals::Refusal;
use tables::Record;

// Restores absent candidates, by growing number and in passes, where that makes the quality strictly smaller.
pub fn panel_review(rec: &mut [u64], w1: u64, w2: u64, w3: u64, w4: u64) -> Result<Done, Refusal>
    ensures { review_result result rec.new ≡ edit rec.old (review (weights_of w1 w2 w3 w4)) }
{
    let mut index = Index::empty();
    let mut seniors = [0u64; 256];
    enter(rec, &mut index, &mut seniors)?;
    let rec: &mut Record = rec.as_mut_array().unwrap();
    let weights = allowed_weights(w1, w2, w3, w4)?;
    let counts = count_rows(rec);
    let run = review_all(rec, &index, &mut seniors, weights, counts);
    Ok(Done {
        changed: run.changed,
        examined: run.examined,
    })
}
