#![tactic(auto)]

ghost use Rattle.std.specs.Prelude.{◌≡◌};
ghost use Rattle.model.specs.Calls.{may_of};
ghost use Rattle.call_may.specs.Results.{may_result};

use access::may;
use calls::{enter_to_read, pair_refusal};
use refusals::Refusal;

// Whether user u may do what permission p is for, by the roles and links in the record.
pub fn panel_may(rec: &[u64], u: u64, p: u64) -> Result<bool, Refusal>
    ensures { may_result result ≡ may_of rec.now u p }
{
    let rec = enter_to_read(rec)?;
    pair_refusal(rec[0], rec[1], u, p)?;
    Ok(may(rec, u as usize, p as usize))
}
