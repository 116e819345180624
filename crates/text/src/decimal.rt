// Decimals, written.
ghost use Rattle.std.specs.Prelude.{◌≡◌, ◌+◌, ◌≤◌, length};
ghost use Rattle.text.specs.Decimal.{decimal};
ghost use Rattle.stores.specs.Stores.{put_at};

use crate::digit::digit_byte;

// How many digits v has in decimal.
#[tactic(auto, using(crate::proofs::Decimals::length_laws))]
pub fn decimal_length(v: u64) -> usize
    ensures value { result ≡ length (decimal v) }
    ensures upper_bound { result ≤ 20 }
{
    match v.checked_ilog10() {
        Some(k) => k as usize + 1,
        None => 1,
    }
}

// Writes v in decimal from place `at` on; the place after it.
#[tactic(auto, using(crate::proofs::Decimals::put_laws))]
pub fn put_decimal(out: &mut [u8], at: usize, v: u64) -> usize
    requires { at + length (decimal v) ≤ length out.old }
    ensures value { result ≡ at + length (decimal v) }
    ensures out_after { out.new ≡ put_at out.old at (decimal v) }
{
    if v < 10 {
        out[at] = digit_byte(v);
        return at + 1;
    }
    let last = put_decimal(out, at, v / 10);
    out[last] = digit_byte(v % 10);
    last + 1
}
