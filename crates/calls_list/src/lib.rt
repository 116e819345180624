// A list of calls as words, which condition 3 is claimed over.
#![tactic(auto)]

ghost use Rattle.std.specs.Prelude.{◌≡◌};
ghost use Rattle.calls_list.specs.Encoding.{readable};

// The words of a call, and those of its answer.
pub const CALL: usize = 7;

pub const ANSWER: usize = 3;

// Whether these are whole calls of known kinds, with room for their answers and no more.
pub fn can_read(calls: &[u64], out: &[u64]) -> bool
    ensures { result ≡ readable calls.now out.now }
{
    let n = calls.len() / CALL;
    if CALL * n != calls.len() || out.len() != ANSWER * n {
        return false;
    }
    (0..n).all(|i| calls[CALL * i] < 4)
}
