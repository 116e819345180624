// The line that a crew text and a listing begin with.
ghost use Rattle.std.specs.Prelude.{◌≡◌, ◌++◌, ◌+◌, ◌≤◌, length};
ghost use Rattle.stores.specs.Stores.{put_at};
ghost use Rattle.text.specs.Decimal.{decimal};
ghost use Rattle.text.specs.Fixed.{comma, line_end};

use crate::decimal::put_decimal;
use crate::fixed::put_bytes;

// Writes a word and two decimals with a comma between them as the first line; the place after it.
pub fn put_first_line(out: &mut [u8], word: &[u8], a: u64, b: u64) -> usize
    requires { length word.now + length (decimal a) + length (decimal b) + 2 ≤ length out.old }
    ensures value { result ≡ length (word.now ++ (decimal a ++ (comma ++ (decimal b ++ line_end)))) }
    ensures out_after { out.new ≡ put_at out.old 0 (word.now ++ (decimal a ++ (comma ++ (decimal b ++ line_end)))) }
{
    let first = put_bytes(out, 0, word);
    let between = put_decimal(out, first, a);
    let second = put_bytes(out, between, b",");
    let end = put_decimal(out, second, b);
    put_bytes(out, end, b"\n")
}
