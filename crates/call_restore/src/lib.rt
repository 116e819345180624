#![tactic(auto)]

ghost use Rattle.std.specs.Prelude.{◌≡◌, List, ℕ, ◌≤◌, get_or};
ghost use Rattle.model.specs.Calls.{edit};
ghost use Rattle.model.specs.Machine.{refusal};
ghost use Rattle.model.specs.Machine.Call.{restore};
ghost use Rattle.model.specs.Record.{state_of};
ghost use Rattle.refusals.specs.Numbers.{code_of};
ghost use Rattle.rows.specs.Linked.{Ready};
ghost use Rattle.call_restore.specs.Results.{restore_result};

use calls::enter;
use edit_rows::put_back;
use indexes::Index;
use refusals::Refusal;
use tables::{Record, STANDING, load};

// Refuses a role k that is none, or that stands.
fn restore_refusal(rec: &Record, k: u64) -> Result<(), Refusal>
    requires rec_bound { get_or rec.now 2 0 ≤ 128 }
    ensures { (index : Index) (seniors : List ℕ) → Ready (state_of rec.now) rec.now index seniors → code_of result ≡ refusal (state_of rec.now) (restore k) }
{
    if rec[2] <= k {
        return Err(Refusal::Number);
    }
    if load::<2>(rec, STANDING).contains(k as usize) {
        return Err(Refusal::Standing);
    }
    Ok(())
}

// Restores the absent candidate k.
pub fn panel_restore(rec: &mut [u64], k: u64) -> Result<(), Refusal>
    ensures { restore_result result rec.new ≡ edit rec.old (restore k) }
{
    let mut index = Index::empty();
    let mut seniors = [0u64; 256];
    enter(rec, &mut index, &mut seniors)?;
    let rec: &mut Record = rec.as_mut_array().unwrap();
    restore_refusal(rec, k)?;
    put_back(rec, &index, &mut seniors, k as usize);
    Ok(())
}
