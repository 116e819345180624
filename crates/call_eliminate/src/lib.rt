#![tactic(auto)]

ghost use Rattle.std.specs.Prelude.{◌≡◌, IfOk};
ghost use Rattle.model.specs.Calls.{edit};
ghost use Rattle.model.specs.Machine.{refusal};
ghost use Rattle.model.specs.Machine.Call.{eliminate};
ghost use Rattle.model.specs.Refusals.{tolerance_refusal};
ghost use Rattle.model.specs.State.{State};
ghost use Rattle.quality.specs.Given.{weights_of, tolerance_of};
ghost use Rattle.quality.specs.Numbers.{weights_in, tolerance_in};
ghost use Rattle.refusals.specs.Numbers.{code_of};
ghost use Rattle.call_eliminate.specs.Results.{eliminate_result};

use calls::{allowed_weights, enter};
use calls_edit::Done;
use edit_eliminate::eliminate_all;
use edit_turn::Terms;
use indexes::Index;
use quality::{Tolerance, count_rows};
use refusals::Refusal;
use tables::Record;

// A call's tolerance; refused where it is outside its range.
fn allowed_tolerance(a: u64, b: u64) -> Result<Tolerance, Refusal>
    ensures number { code_of result ≡ tolerance_refusal (tolerance_of a b) }
    ensures value { IfOk result (λ t. tolerance_in t ≡ tolerance_of a b) }
{
    Tolerance::new(a, b).ok_or(Refusal::Range)
}

// A call's weights and then its tolerance, each refused where it is outside its range.
fn allowed_terms(w1: u64, w2: u64, w3: u64, w4: u64, a: u64, b: u64) -> Result<Terms, Refusal>
    ensures number { (st : State) → code_of result ≡ refusal st (eliminate (weights_of w1 w2 w3 w4) (tolerance_of a b)) }
    ensures weights { IfOk result (λ t. weights_in t.weights ≡ weights_of w1 w2 w3 w4) }
    ensures tolerance { IfOk result (λ t. tolerance_in t.tolerance ≡ tolerance_of a b) }
{
    let weights = allowed_weights(w1, w2, w3, w4)?;
    let tolerance = allowed_tolerance(a, b)?;
    Ok(Terms { weights, tolerance })
}

// Strikes strikable roles, in passes, the more redundant first, where the quality then stays below a/b times what it was.
pub fn panel_eliminate(
    rec: &mut [u64],
    w1: u64,
    w2: u64,
    w3: u64,
    w4: u64,
    a: u64,
    b: u64,
) -> Result<Done, Refusal>
    ensures { eliminate_result result rec.new ≡ edit rec.old (eliminate (weights_of w1 w2 w3 w4) (tolerance_of a b)) }
{
    let mut index = Index::empty();
    let mut seniors = [0u64; 256];
    enter(rec, &mut index, &mut seniors)?;
    let rec: &mut Record = rec.as_mut_array().unwrap();
    let terms = allowed_terms(w1, w2, w3, w4, a, b)?;
    let counts = count_rows(rec);
    let run = eliminate_all(rec, &mut index, &mut seniors, terms, counts);
    Ok(Done {
        changed: run.changed,
        examined: run.examined,
    })
}
