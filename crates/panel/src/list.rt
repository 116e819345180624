// A list of calls, served through the outside calls themselves: condition 3 about the code that runs.
ghost use Rattle.std.specs.Prelude.{◌≡◌, ◌+◌, ◌≤◌, length};
ghost use Rattle.std.proofs.Math.Bool.{So};
ghost use Rattle.model.specs.Calls.{edit};
ghost use Rattle.model.specs.Claim.{words_after, replies_given};
ghost use Rattle.calls_list.specs.Encoding.{call_at, calls_in, readable, answer_words};
ghost use Rattle.panel.specs.Results.{call_of, done_result, done_words};
ghost use Rattle.panel.specs.Lists.{ServedAs};
ghost use Rattle.panel.specs.declared.list.NotServed.TheVariants.{Refused};

use crate::exports::{panel_eliminate, panel_mine, panel_restore, panel_review, panel_strike};
use calls_edit::Done;
use calls_list::{ANSWER, CALL, can_read};
use refusals::Refusal;
use tables::copy;

// Why a list was not served: it can't be read, or its crew list is refused.
#[derive(Clone, Copy)]
pub enum NotServed {
    Unreadable,
    Refused(Refusal),
}

impl From<Refusal> for NotServed {
    ghost from_gives = { λ refusal e. e ≡ Refused refusal };

    fn from(refusal: Refusal) -> NotServed {
        NotServed::Refused(refusal)
    }
}

// One call of a list, with its numbers as they stand there: whether they are in range the call itself judges.
#[derive(Clone, Copy)]
enum Call {
    Strike(u64),
    Restore(u64),
    Eliminate { weights: [u64; 4], a: u64, b: u64 },
    Review { weights: [u64; 4] },
}

// The call that stands at a place of the list.
fn read_call(calls: &[u64], at: usize) -> Call
    requires { at + 7 ≤ length calls.now }
    ensures { call_of result ≡ call_at calls.now at }
{
    let x = calls[at + 1];
    let weights = [x, calls[at + 2], calls[at + 3], calls[at + 4]];
    match calls[at] {
        0 => Call::Strike(x),
        1 => Call::Restore(x),
        2 => Call::Eliminate {
            weights,
            a: calls[at + 5],
            b: calls[at + 6],
        },
        _ => Call::Review { weights },
    }
}

// What a call without passes gives.
const NO_PASSES: Done = Done {
    changed: 0,
    examined: 0,
};

// Makes one call.
fn serve_call(rec: &mut [u64], call: Call) -> Result<Done, Refusal>
    ensures { done_result result rec.new ≡ edit rec.old (call_of call) }
{
    match call {
        Call::Strike(k) => panel_strike(rec, k).map(|()| NO_PASSES),
        Call::Restore(k) => panel_restore(rec, k).map(|()| NO_PASSES),
        Call::Eliminate { weights, a, b } => {
            let [w1, w2, w3, w4] = weights;
            panel_eliminate(rec, w1, w2, w3, w4, a, b)
        }
        Call::Review { weights } => {
            let [w1, w2, w3, w4] = weights;
            panel_review(rec, w1, w2, w3, w4)
        }
    }
}

// The three words of its answer.
fn answer_of(outcome: Result<Done, Refusal>) -> [u64; ANSWER]
    ensures { result ≡ done_words outcome }
{
    match outcome {
        Ok(done) => [0, done.changed, done.examined],
        Err(refusal) => [refusal.number(), 0, 0],
    }
}

// Makes all calls, each on the record as the one before left it, and writes every answer.
fn serve_calls(rec: &mut [u64], calls: &[u64], out: &mut [u64])
    requires { So (readable calls.now out.old) }
    ensures rec_after { rec.new ≡ words_after rec.old (calls_in calls.now) }
    ensures out_after { out.new ≡ answer_words (replies_given rec.old (calls_in calls.now)) }
{
    for i in 0..calls.len() / CALL {
        let outcome = serve_call(rec, read_call(calls, CALL * i));
        copy(out, ANSWER * i, &answer_of(outcome));
    }
}

// Mines a crew list and makes every call of a list on it: gives how many candidates there are. Seven words to a call: 0 and the number of a role
// to strike; 1 and that of one to restore; 2, four weights, a and b to eliminate; 3 and four weights to review.
pub fn serve(
    n: u64,
    m: u64,
    crew: &[u64],
    calls: &[u64],
    rec: &mut [u64],
    out: &mut [u64],
) -> Result<u64, NotServed>
    ensures { ServedAs n m crew.now calls.now rec.old out.old result rec.new out.new }
{
    if !can_read(calls, out) {
        return Err(NotServed::Unreadable);
    }
    let candidates = panel_mine(n, m, crew, rec)?;
    serve_calls(rec, calls, out);
    Ok(candidates)
}
