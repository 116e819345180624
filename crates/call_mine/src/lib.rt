#![tactic(auto)]

ghost use Rattle.std.specs.Prelude.{◌≡◌};
ghost use Rattle.model.specs.Refusals.{◌or_else◌, length_refusal, limits_refusal, crew_refusal};
ghost use Rattle.model.specs.Calls.{mine};
ghost use Rattle.refusals.specs.Numbers.{code_of};
ghost use Rattle.call_mine.specs.Results.{mine_result};

use calls::length_refusal;
use limits::{crew_refusal, limits_refusal};
use mining::{Candidates, mine};
use records::write_fresh;
use refusals::Refusal;
use tables::as_rows;

// Refuses what can be told without mining.
fn lent_refusal(n: u64, m: u64, crew: &[u64], rec: &[u64]) -> Result<(), Refusal>
    ensures { code_of result ≡ length_refusal rec.now or_else limits_refusal n m or_else crew_refusal n m crew.now }
{
    length_refusal(rec)?;
    limits_refusal(n, m)?;
    crew_refusal(n as usize, m as usize, crew)
}

// Mines roles from a crew list of n users and m permissions and writes the whole record, with all candidates standing: gives how many they are.
// Nothing is written before the last refusal.
pub fn panel_mine(n: u64, m: u64, crew: &[u64], rec: &mut [u64]) -> Result<u64, Refusal>
    ensures { mine_result result rec.new ≡ mine n m crew.now rec.old }
{
    lent_refusal(n, m, crew, rec)?;
    let rows = as_rows(crew, 0, n as usize);
    let mut found = Candidates::none();
    let Some(c) = mine(rows, &mut found) else {
        return Err(Refusal::Candidates);
    };
    write_fresh(rec.as_mut_array().unwrap(), &found, rows, m);
    Ok(c as u64)
}
