#![tactic(auto)]

ghost use Rattle.std.specs.Prelude.{◌≡◌};
ghost use Rattle.model.specs.Calls.{quality_of};
ghost use Rattle.quality.specs.Given.{weights_of};
ghost use Rattle.call_quality.specs.Results.{quality_result};

use calls::{allowed_weights, enter_to_read};
use quality::{count_rows, weigh};
use refusals::Refusal;

// The quality of the record's roles for these weights: of the roles, direct members, direct permissions and links.
pub fn panel_quality(rec: &[u64], w1: u64, w2: u64, w3: u64, w4: u64) -> Result<u64, Refusal>
    ensures { quality_result result ≡ quality_of rec.now (weights_of w1 w2 w3 w4) }
{
    let rec = enter_to_read(rec)?;
    let weights = allowed_weights(w1, w2, w3, w4)?;
    Ok(weigh(count_rows(rec), weights))
}
