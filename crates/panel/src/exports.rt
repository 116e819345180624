// The outside calls. Each is the call of the same name in a crate of its own, with the same promise; and beside it the customer's
// conditions 1 and 2, as far as they speak of the call. The crate `panel_c` exports them to C.
ghost use Rattle.std.specs.Prelude.{◌≡◌};
ghost use Rattle.model.specs.Calls.{mine, edit, quality_of, may_of};
ghost use Rattle.model.specs.Machine.Call.{strike, restore, eliminate, review};
ghost use Rattle.model.specs.Conditions.{MiningConditions, StrikeConditions, RestoreConditions, EliminateConditions, ReviewConditions, QualityConditions, MayConditions};
ghost use Rattle.quality.specs.Given.{weights_of, tolerance_of};
ghost use Rattle.text_crew.specs.Conditions.{ReadConditions};
ghost use Rattle.text_crew.specs.Reader.{read_result, read_crew};
ghost use Rattle.call_mine.specs.Results.{mine_result};
ghost use Rattle.call_strike.specs.Results.{strike_result};
ghost use Rattle.call_restore.specs.Results.{restore_result};
ghost use Rattle.call_eliminate.specs.Results.{eliminate_result};
ghost use Rattle.call_review.specs.Results.{review_result};
ghost use Rattle.call_quality.specs.Results.{quality_result};
ghost use Rattle.call_may.specs.Results.{may_result};
ghost use Rattle.call_write.specs.Conditions.{WriteConditions};
ghost use Rattle.call_write.specs.Results.{write_result};
ghost use Rattle.call_write.specs.Writer.{write_crew};

use calls_edit::Done;
use refusals::Refusal;
use text_crew::CrewSize;

pub fn panel_mine(n: u64, m: u64, crew: &[u64], rec: &mut [u64]) -> Result<u64, Refusal>
    ensures rec_after { mine_result result rec.new ≡ mine n m crew.now rec.old }
    ensures mining_conditions { MiningConditions n m crew.now rec.old (mine_result result rec.new) }
{
    call_mine::panel_mine(n, m, crew, rec)
}

pub fn panel_strike(rec: &mut [u64], k: u64) -> Result<(), Refusal>
    ensures rec_after { strike_result result rec.new ≡ edit rec.old (strike k) }
    ensures strike_conditions { StrikeConditions rec.old k (strike_result result rec.new) }
{
    call_strike::panel_strike(rec, k)
}

pub fn panel_restore(rec: &mut [u64], k: u64) -> Result<(), Refusal>
    ensures rec_after { restore_result result rec.new ≡ edit rec.old (restore k) }
    ensures restore_conditions { RestoreConditions rec.old k (restore_result result rec.new) }
{
    call_restore::panel_restore(rec, k)
}

pub fn panel_eliminate(
    rec: &mut [u64],
    w1: u64,
    w2: u64,
    w3: u64,
    w4: u64,
    a: u64,
    b: u64,
) -> Result<Done, Refusal>
    ensures rec_after { eliminate_result result rec.new ≡ edit rec.old (eliminate (weights_of w1 w2 w3 w4) (tolerance_of a b)) }
    ensures eliminate_conditions { EliminateConditions rec.old (weights_of w1 w2 w3 w4) (tolerance_of a b) (eliminate_result result rec.new) }
{
    call_eliminate::panel_eliminate(rec, w1, w2, w3, w4, a, b)
}

pub fn panel_review(rec: &mut [u64], w1: u64, w2: u64, w3: u64, w4: u64) -> Result<Done, Refusal>
    ensures rec_after { review_result result rec.new ≡ edit rec.old (review (weights_of w1 w2 w3 w4)) }
    ensures review_conditions { ReviewConditions rec.old (weights_of w1 w2 w3 w4) (review_result result rec.new) }
{
    call_review::panel_review(rec, w1, w2, w3, w4)
}

pub fn panel_quality(rec: &[u64], w1: u64, w2: u64, w3: u64, w4: u64) -> Result<u64, Refusal>
    ensures result_value { quality_result result ≡ quality_of rec.now (weights_of w1 w2 w3 w4) }
    ensures quality_conditions { QualityConditions rec.now (weights_of w1 w2 w3 w4) (quality_result result) }
{
    call_quality::panel_quality(rec, w1, w2, w3, w4)
}

pub fn panel_may(rec: &[u64], u: u64, p: u64) -> Result<bool, Refusal>
    ensures result_value { may_result result ≡ may_of rec.now u p }
    ensures may_conditions { MayConditions rec.now u p (may_result result) }
{
    call_may::panel_may(rec, u, p)
}

pub fn panel_read_crew(text: &[u8], rows: &mut [u64]) -> Result<CrewSize, Refusal>
    ensures rows_after { read_result result rows.new ≡ read_crew text.now rows.old }
    ensures read_conditions { ReadConditions text.now rows.old (read_result result rows.new) }
{
    text_crew::read_crew(text, rows)
}

pub fn panel_write_crew(rec: &[u64], text: &mut [u8]) -> Result<usize, Refusal>
    ensures text_after { write_result result text.new ≡ write_crew rec.now text.old }
    ensures write_conditions { WriteConditions rec.now text.old (write_result result text.new) }
{
    call_write::panel_write_crew(rec, text)
}
