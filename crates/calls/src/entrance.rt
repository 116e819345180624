// The entrance of every call on a record: its length, then its soundness, with the index that this fills.
ghost use Rattle.std.specs.Prelude.{◌≡◌, IfOk};
ghost use Rattle.model.specs.Refusals.{length_refusal};
ghost use Rattle.model.specs.Calls.{unfit};
ghost use Rattle.refusals.specs.Numbers.{code_of};
ghost use Rattle.calls.specs.Entrance.{Judged, Entered};

use indexes::Index;
use records::is_sound;
use refusals::Refusal;
use tables::{LENGTH, Record, Table128};

// Refuses a record that has not its length.
pub fn length_refusal(rec: &[u64]) -> Result<(), Refusal>
    ensures { code_of result ≡ length_refusal rec.now }
{
    if rec.len() != LENGTH {
        return Err(Refusal::Length);
    }
    Ok(())
}

// Refuses a record that is not sound.
pub fn soundness_refusal(
    rec: &Record,
    index: &mut Index,
    seniors: &mut Table128,
) -> Result<(), Refusal>
    ensures { Judged rec.now index.new seniors.new result }
{
    if !is_sound(rec, index, seniors) {
        return Err(Refusal::Unsound);
    }
    Ok(())
}

// Both, in their order.
pub fn enter(rec: &[u64], index: &mut Index, seniors: &mut Table128) -> Result<(), Refusal>
    ensures { Entered rec.now index.new seniors.new result }
{
    length_refusal(rec)?;
    soundness_refusal(rec.as_array().unwrap(), index, seniors)
}

// The same for a call that asks nothing of the index: it gives the record.
pub fn enter_to_read(rec: &[u64]) -> Result<&Record, Refusal>
    ensures number { code_of result ≡ unfit rec.now }
    ensures given { IfOk result (λ r. r.now ≡ rec.now) }
{
    let mut index = Index::empty();
    let mut seniors = [0u64; 256];
    enter(rec, &mut index, &mut seniors)?;
    Ok(rec.as_array().unwrap())
}
