// The checks of a call's numbers that several calls share.
ghost use Rattle.std.specs.Prelude.{◌≡◌, IfOk};
ghost use Rattle.model.specs.Refusals.{pair_refusal, weights_refusal};
ghost use Rattle.quality.specs.Given.{weights_of};
ghost use Rattle.quality.specs.Numbers.{weights_in};
ghost use Rattle.refusals.specs.Numbers.{code_of};

use quality::Weights;
use refusals::Refusal;

// A call's weights; refused where one is outside its range.
pub fn allowed_weights(w1: u64, w2: u64, w3: u64, w4: u64) -> Result<Weights, Refusal>
    ensures number { code_of result ≡ weights_refusal (weights_of w1 w2 w3 w4) }
    ensures value { IfOk result (λ w. weights_in w ≡ weights_of w1 w2 w3 w4) }
{
    Weights::new(w1, w2, w3, w4).ok_or(Refusal::Range)
}

// Refuses a user u that is not below n, and a permission p that is not below m.
pub fn pair_refusal(n: u64, m: u64, u: u64, p: u64) -> Result<(), Refusal>
    ensures { code_of result ≡ pair_refusal n m u p }
{
    if n <= u || m <= p {
        return Err(Refusal::Number);
    }
    Ok(())
}
