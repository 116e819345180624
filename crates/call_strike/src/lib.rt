#![tactic(auto)]

ghost use Rattle.std.specs.Prelude.{◌≡◌, List, ℕ, ◌≤◌, get_or};
ghost use Rattle.model.specs.Calls.{edit};
ghost use Rattle.model.specs.Hierarchy.{Roles};
ghost use Rattle.model.specs.Machine.{refusal};
ghost use Rattle.model.specs.Machine.Call.{strike};
ghost use Rattle.model.specs.Record.{state_of};
ghost use Rattle.indexes.specs.Index.{Indexed};
ghost use Rattle.refusals.specs.Numbers.{code_of};
ghost use Rattle.rows.specs.Linked.{Ready};
ghost use Rattle.call_strike.specs.Results.{strike_result};

use calls::enter;
use edit_rows::take_out;
use edit_test::can_strike;
use indexes::Index;
use refusals::Refusal;
use tables::{Record, STANDING, load};

// Refuses a role k that is none, that is absent, or that can't be struck.
fn strike_refusal(rec: &Record, index: &mut Index, k: u64) -> Result<(), Refusal>
    requires rec_bound { get_or rec.now 2 0 ≤ 128 }
    ensures by_index { (seniors : List ℕ) → Ready (state_of rec.now) rec.now index.old seniors → code_of result ≡ refusal (state_of rec.now) (strike k) }
    ensures indexed { (ρ : Roles) → Indexed ρ index.old → Indexed ρ index.new }
{
    if rec[2] <= k {
        return Err(Refusal::Number);
    }
    if !load::<2>(rec, STANDING).contains(k as usize) {
        return Err(Refusal::Standing);
    }
    if !can_strike(rec, index, k as usize) {
        return Err(Refusal::Bare);
    }
    Ok(())
}

// Strikes the role k: takes it out, where every grant that it covers is covered by another standing role.
pub fn panel_strike(rec: &mut [u64], k: u64) -> Result<(), Refusal>
    ensures { strike_result result rec.new ≡ edit rec.old (strike k) }
{
    let mut index = Index::empty();
    let mut seniors = [0u64; 256];
    enter(rec, &mut index, &mut seniors)?;
    let rec: &mut Record = rec.as_mut_array().unwrap();
    strike_refusal(rec, &mut index, k)?;
    take_out(rec, &index, &mut seniors, k as usize);
    Ok(())
}
