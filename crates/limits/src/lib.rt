// The limits of a crew list, and what they refuse.
#![tactic(auto)]

ghost use Rattle.std.specs.Prelude.{◌≡◌, ◌≤◌};
ghost use Rattle.model.specs.State.{within_limits, rows_within};
ghost use Rattle.model.specs.Refusals.{limits_refusal, crew_refusal};
ghost use Rattle.refusals.specs.Numbers.{code_of};
ghost use Rattle.tables.specs.Rows.{rows_of};

use refusals::Refusal;
use sets::Set256;
use tables::as_rows;

// Whether the numbers of users and of permissions are from 1 to 128 and from 1 to 256.
#[tactic(auto, using(crate::proofs::Within::limits))]
pub fn limits_kept(n: u64, m: u64) -> bool
    ensures { result ≡ within_limits n m }
{
    matches!((n, m), (1..=128, 1..=256))
}

// Whether no row has a permission at m or above.
pub fn rows_within(rows: &[[u64; 4]], m: usize) -> bool
    requires m_bound { m ≤ 256 }
    ensures { result ≡ rows_within m (rows_of rows.now) }
{
    let inside = Set256::below(m);
    rows.iter()
        .all(|row| Set256::from_words(*row).is_subset(inside))
}

// Refuses numbers outside their limits.
pub fn limits_refusal(n: u64, m: u64) -> Result<(), Refusal>
    ensures { code_of result ≡ limits_refusal n m }
{
    if !limits_kept(n, m) {
        return Err(Refusal::Limits);
    }
    Ok(())
}

// Refuses crew words that are not four to a user, or that have a permission at m or above.
pub fn crew_refusal(n: usize, m: usize, crew: &[u64]) -> Result<(), Refusal>
    requires n_bound { n ≤ 128 }
    requires m_bound { m ≤ 256 }
    ensures { code_of result ≡ crew_refusal n m crew.now }
{
    if crew.len() != 4 * n {
        return Err(Refusal::Crew);
    }
    if !rows_within(as_rows(crew, 0, n), m) {
        return Err(Refusal::Crew);
    }
    Ok(())
}
