// The crew list of a record, handed back as a crew text.
#![tactic(auto)]

ghost use Rattle.std.specs.Prelude.{◌≡◌};
ghost use Rattle.call_write.specs.Results.{write_result};
ghost use Rattle.call_write.specs.Writer.{write_crew};

use calls::enter_to_read;
use refusals::Refusal;
use text_write::{put_crew, text_length};

// The crew text of the record into the front of the lent bytes: gives how many it wrote. Its length is known from n and m, so nothing is written
// where they are too few.
pub fn panel_write_crew(rec: &[u64], text: &mut [u8]) -> Result<usize, Refusal>
    ensures { write_result result text.new ≡ write_crew rec.now text.old }
{
    let rec = enter_to_read(rec)?;
    let length = text_length(rec[0], rec[1]);
    if text.len() < length {
        return Err(Refusal::Short);
    }
    put_crew(rec, text);
    Ok(length)
}
