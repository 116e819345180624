// A crew text read and its list mined: what every program that is given one does first.
#![tactic(auto)]

ghost use Rattle.std.specs.Prelude.{◌≡◌, OnOk, OnErr};
ghost use Rattle.std.proofs.Math.Bool.{So};
ghost use Rattle.model.specs.Record.{state_of, sound};
ghost use Rattle.refusals.specs.Numbers.{code_of};
ghost use Rattle.text_mine.specs.Mined.{text_refusal, text_state};

use call_mine::panel_mine;
use refusals::Refusal;
use tables::Record;
use text_crew::{BUFFER, read_crew};

// Makes the record of the list in a text, with all candidates standing; where the reader or mining refuses it, the record stays as it was.
pub fn mine_text(text: &[u8], rec: &mut Record) -> Result<(), Refusal>
    ensures refusal { code_of result ≡ text_refusal text.now }
    ensures mined { OnOk result (state_of rec.new ≡ text_state text.now) }
    ensures record_sound { OnOk result (So (sound rec.new)) }
    ensures kept { OnErr result (rec.new ≡ rec.old) }
{
    let mut rows = [0u64; BUFFER];
    let size = read_crew(text, &mut rows)?;
    panel_mine(size.n, size.m, &rows[..4 * size.n as usize], rec)?;
    Ok(())
}
