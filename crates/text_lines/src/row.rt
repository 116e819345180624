// One row: `u,h`.
ghost use Rattle.std.specs.Prelude.{◌≡◌};
ghost use Rattle.text.specs.Rest.{after};
ghost use Rattle.text_lines.specs.Lines.{row_digits_at};

use text::Rest;
use text_sets::read_hexadecimal;

// What is left from the d digits of row u on, if the line that stands there is that row.
#[tactic(auto, using(crate::proofs::Lines::row_laws))]
pub fn read_row<'a>(rest: Rest<'a>, u: usize, d: usize) -> Option<Rest<'a>>
    ensures { result ≡ after rest.entry (row_digits_at rest.entry.text.now d u rest.entry.at) }
{
    let (number, rest) = rest.decimal()?;
    if number != u as u64 {
        return None;
    }
    let digits = rest.fixed(b",")?;
    read_hexadecimal(digits, d)?.line_end()?;
    Some(digits)
}
