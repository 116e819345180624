// The lines of the roles.
ghost use Rattle.std.specs.Prelude.{◌≡◌, ◌+◌, ◌*◌, ◌<◌, ◌≤◌, length, get_or};
ghost use Rattle.model.specs.Lists.{set_at};
ghost use Rattle.stores.specs.Stores.{put_at};
ghost use Rattle.text.specs.Decimal.{decimal};
ghost use Rattle.text_roles.specs.Lines.{field};
ghost use Rattle.text_roles.specs.Words.{Limited, words_line, standing_line, words_lines};

use tables::{JUNIORS, MEMBERS, PERMISSIONS, Record, SETS, STANDING, load};
use text::{put_bytes, put_decimal};
use text_lines::digits_for;
use text_sets::put_hexadecimal;

// A decimal, where there is place for any.
pub fn put_number(out: &mut [u8], at: usize, v: u64) -> usize
    requires { at + 20 ≤ length out.old }
    ensures { (result ≡ at + length (decimal v)) × (out.new ≡ put_at out.old at (decimal v)) × (result ≤ at + 20) }
{
    put_decimal(out, at, v)
}

// A comma, and the set at this place of the record.
fn put_set<const WORDS: usize>(
    rec: &Record,
    place: usize,
    size: u64,
    out: &mut [u8],
    at: usize,
) -> usize
    requires { (WORDS ≤ 4) × (place + WORDS ≤ length rec.now) × (size ≤ 64 * WORDS) × (at + (1 + 16 * WORDS) ≤ length out.old) }
    ensures { (result ≡ at + length (field size (set_at WORDS rec.now place))) × (out.new ≡ put_at out.old at (field size (set_at WORDS rec.now place))) × (result ≤ at + (1 + 16 * WORDS)) }
{
    let next = put_bytes(out, at, b",");
    put_hexadecimal(out, next, &load::<WORDS>(rec, place), digits_for(size))
}

// How many candidates there are, standing or not.
fn candidates(rec: &Record) -> u64
    ensures { result ≡ get_or rec.now 2 0 }
{
    rec[2]
}

// The line of role k.
fn put_line(rec: &Record, out: &mut [u8], at: usize, k: usize) -> usize
    requires { Limited rec.now × (k < 128) × (at + 217 ≤ length out.old) }
    ensures value { result ≡ at + length (words_line rec.now k) }
    ensures out_after { out.new ≡ put_at out.old at (words_line rec.now k) }
{
    let set = put_number(out, at, k as u64);
    let permissions = put_set::<4>(rec, SETS + 4 * k, rec[1], out, set);
    let members = put_set::<4>(rec, PERMISSIONS + 4 * k, rec[1], out, permissions);
    let juniors = put_set::<2>(rec, MEMBERS + 2 * k, rec[0], out, members);
    let end = put_set::<2>(rec, JUNIORS + 2 * k, candidates(rec), out, juniors);
    put_bytes(out, end, b"\n")
}

// The line of role k where it stands.
fn put_standing(rec: &Record, out: &mut [u8], at: usize, k: usize) -> usize
    requires { Limited rec.now × (k < 128) × (at + 217 ≤ length out.old) }
    ensures value { result ≡ at + length (standing_line rec.now k) }
    ensures out_after { out.new ≡ put_at out.old at (standing_line rec.now k) }
{
    if load::<2>(rec, STANDING).contains(k) {
        put_line(rec, out, at, k)
    } else {
        at
    }
}

// The lines of all standing roles.
pub fn put_lines(rec: &Record, out: &mut [u8], start: usize) -> usize
    requires limited { Limited rec.now }
    requires start_in_bounds { start + 27776 ≤ length out.old }
    ensures value { result ≡ start + length (words_lines rec.now (get_or rec.now 2 0)) }
    ensures out_after { out.new ≡ put_at out.old start (words_lines rec.now (get_or rec.now 2 0)) }
{
    let c = candidates(rec) as usize;
    let mut at = start;
    for k in 0..c {
        at = put_standing(rec, out, at, k);
    }
    at
}
