// The outside calls, as C has them (include/rolepanel.h): each is the call of the same name in `panel`, with the same promise, word for word, over a
// struct in place of a result. A slice crosses as a pointer and then its length.
#![tactic(auto)]

ghost use Rattle.std.specs.Prelude.{◌≡◌};
ghost use Rattle.model.specs.Calls.{mine, edit, quality_of, may_of};
ghost use Rattle.model.specs.Machine.Call.{strike, restore, eliminate, review};
ghost use Rattle.model.specs.Conditions.{MiningConditions, StrikeConditions, RestoreConditions, EliminateConditions, ReviewConditions, QualityConditions, MayConditions};
ghost use Rattle.quality.specs.Given.{weights_of, tolerance_of};
ghost use Rattle.text_crew.specs.Conditions.{ReadConditions};
ghost use Rattle.text_crew.specs.Reader.{read_crew};
ghost use Rattle.call_write.specs.Conditions.{WriteConditions};
ghost use Rattle.call_write.specs.Writer.{write_crew};
ghost use Rattle.panel_c.specs.Results.{mine_result, strike_result, restore_result, eliminate_result, review_result, quality_result, may_result, read_result, write_result};

mod answers;

pub use answers::{
    CrewRead, CrewWritten, EliminateAnswer, MayAnswer, MineAnswer, QualityAnswer, RestoreAnswer,
    ReviewAnswer, StrikeAnswer,
};

#[unsafe(no_mangle)]
pub extern "C" fn panel_mine(n: u64, m: u64, crew: &[u64], rec: &mut [u64]) -> MineAnswer
    ensures rec_after { mine_result result rec.new ≡ mine n m crew.now rec.old }
    ensures mining_conditions { MiningConditions n m crew.now rec.old (mine_result result rec.new) }
{
    MineAnswer::from(panel::panel_mine(n, m, crew, rec))
}

#[unsafe(no_mangle)]
pub extern "C" fn panel_strike(rec: &mut [u64], k: u64) -> StrikeAnswer
    ensures rec_after { strike_result result rec.new ≡ edit rec.old (strike k) }
    ensures strike_conditions { StrikeConditions rec.old k (strike_result result rec.new) }
{
    StrikeAnswer::from(panel::panel_strike(rec, k))
}

#[unsafe(no_mangle)]
pub extern "C" fn panel_restore(rec: &mut [u64], k: u64) -> RestoreAnswer
    ensures rec_after { restore_result result rec.new ≡ edit rec.old (restore k) }
    ensures restore_conditions { RestoreConditions rec.old k (restore_result result rec.new) }
{
    RestoreAnswer::from(panel::panel_restore(rec, k))
}

#[unsafe(no_mangle)]
pub extern "C" fn panel_eliminate(
    rec: &mut [u64],
    w1: u64,
    w2: u64,
    w3: u64,
    w4: u64,
    a: u64,
    b: u64,
) -> EliminateAnswer
    ensures rec_after { eliminate_result result rec.new ≡ edit rec.old (eliminate (weights_of w1 w2 w3 w4) (tolerance_of a b)) }
    ensures eliminate_conditions { EliminateConditions rec.old (weights_of w1 w2 w3 w4) (tolerance_of a b) (eliminate_result result rec.new) }
{
    EliminateAnswer::from(panel::panel_eliminate(rec, w1, w2, w3, w4, a, b))
}

#[unsafe(no_mangle)]
pub extern "C" fn panel_review(rec: &mut [u64], w1: u64, w2: u64, w3: u64, w4: u64) -> ReviewAnswer
    ensures rec_after { review_result result rec.new ≡ edit rec.old (review (weights_of w1 w2 w3 w4)) }
    ensures review_conditions { ReviewConditions rec.old (weights_of w1 w2 w3 w4) (review_result result rec.new) }
{
    ReviewAnswer::from(panel::panel_review(rec, w1, w2, w3, w4))
}

#[unsafe(no_mangle)]
pub extern "C" fn panel_quality(rec: &[u64], w1: u64, w2: u64, w3: u64, w4: u64) -> QualityAnswer
    ensures result_value { quality_result result ≡ quality_of rec.now (weights_of w1 w2 w3 w4) }
    ensures quality_conditions { QualityConditions rec.now (weights_of w1 w2 w3 w4) (quality_result result) }
{
    QualityAnswer::from(panel::panel_quality(rec, w1, w2, w3, w4))
}

#[unsafe(no_mangle)]
pub extern "C" fn panel_may(rec: &[u64], u: u64, p: u64) -> MayAnswer
    ensures result_value { may_result result ≡ may_of rec.now u p }
    ensures may_conditions { MayConditions rec.now u p (may_result result) }
{
    MayAnswer::from(panel::panel_may(rec, u, p))
}

#[unsafe(no_mangle)]
pub extern "C" fn panel_read_crew(text: &[u8], rows: &mut [u64]) -> CrewRead
    ensures rows_after { read_result result rows.new ≡ read_crew text.now rows.old }
    ensures read_conditions { ReadConditions text.now rows.old (read_result result rows.new) }
{
    CrewRead::from(panel::panel_read_crew(text, rows))
}

#[unsafe(no_mangle)]
pub extern "C" fn panel_write_crew(rec: &[u64], text: &mut [u8]) -> CrewWritten
    ensures text_after { write_result result text.new ≡ write_crew rec.now text.old }
    ensures write_conditions { WriteConditions rec.now text.old (write_result result text.new) }
{
    CrewWritten::from(panel::panel_write_crew(rec, text))
}
