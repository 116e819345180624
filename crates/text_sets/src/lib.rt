// Sets in hexadecimal, highest digit first.
#![tactic(auto)]

ghost use Rattle.std.specs.Prelude.{◌≡◌, ◌+◌, ◌-◌, ◌^◌, ◌<◌, ◌≤◌, ltb, length};
ghost use Rattle.std.proofs.Math.Bool.{So};
ghost use Rattle.sets.specs.Held.{set_of};
ghost use Rattle.text.specs.Digits.{digit_at};
ghost use Rattle.text_sets.specs.Hexadecimal.{after_digits, hexadecimal, hexadecimal_at, hexadecimal_value};
ghost use Rattle.stores.specs.Stores.{put_at};

use sets::{Set, Set256};
use text::{Rest, digit_byte};

// Whether a digit stands i bytes further on.
fn is_digit(rest: Rest, i: usize) -> bool
    requires { rest.at + i < 2 ^ 64 }
    ensures { result ≡ ltb (digit_at rest.entry.text.now (rest.entry.at + i)) 16 }
{
    rest.skip(i).digit().is_some()
}

// Whether d digits stand there.
#[tactic(auto, using(crate::proofs::Hexadecimals::hex_short))]
fn has_digits(rest: Rest, d: usize) -> bool
    ensures { result ≡ hexadecimal_at d rest.entry.text.now rest.entry.at }
{
    d <= rest.text.len() && rest.at <= rest.text.len() - d && (0..d).all(|i| is_digit(rest, i))
}

// What is left after d digits, where they stand there.
#[tactic(auto, using(crate::proofs::Hexadecimals::field_laws), unfolding(text::specs::Rest::after, text::specs::Rest::moved, crate::specs::Hexadecimal::after_digits))]
pub fn read_hexadecimal<'a>(rest: Rest<'a>, d: usize) -> Option<Rest<'a>>
    ensures { result ≡ after_digits rest.entry d }
{
    if has_digits(rest, d) {
        Some(rest.skip(d))
    } else {
        None
    }
}

// The digit that stands i bytes further on, without a branch: 0 to 9 end in their value, a to f in 1 to 6.
#[tactic(auto, using(crate::proofs::Hexadecimals::digit_bits), unfolding(text::specs::Digits::digit_at))]
fn digit_there(rest: Rest, i: usize) -> u64
    requires in_bounds { rest.at + i < length rest.text.now }
    requires digit { digit_at rest.text.now (rest.at + i) < 16 }
    ensures { result ≡ digit_at rest.entry.text.now (rest.entry.at + i) }
{
    let b = u64::from(rest.text[rest.at + i]);
    (b & 15) + 9 * (b >> 6)
}

// The word that d digits make.
#[tactic(auto, using(crate::proofs::Hexadecimals::value_laws), unfolding(crate::specs::Hexadecimal::hexadecimal_value, text::specs::Rest::moved))]
fn word_of(rest: Rest, d: usize) -> u64
    requires d_bound { d ≤ 16 }
    requires so { So (hexadecimal_at d rest.text.now rest.at) }
    ensures { result ≡ hexadecimal_value d rest.entry.text.now rest.entry.at }
{
    let mut v = 0;
    for i in 0..d {
        v = v * 16 + digit_there(rest, i);
    }
    v
}

// The set that d digits make, the last 16 of them the lowest word. It is read by itself, once the whole line is known to have its form.
#[tactic(auto, using(crate::proofs::Hexadecimals::set_laws), unfolding(text::specs::Rest::moved))]
pub fn hexadecimal_set(rest: Rest, d: usize) -> Set256
    requires d_bound { d ≤ 64 }
    requires so { So (hexadecimal_at d rest.text.now rest.at) }
    ensures { set_of result ≡ hexadecimal_value d rest.entry.text.now rest.entry.at }
{
    let a = d.saturating_sub(16);
    let b = a.saturating_sub(16);
    let c = b.saturating_sub(16);
    let w0 = word_of(rest.skip(a), d - a);
    let w1 = word_of(rest.skip(b), a - b);
    let w2 = word_of(rest.skip(c), b - c);
    let w3 = word_of(rest, c);
    Set256::from_words([w0, w1, w2, w3])
}

// Writes the lowest d digits of a word from place `at` on; the place after them.
fn put_digits(out: &mut [u8], at: usize, w: u64, d: usize) -> usize
    requires d_bound { d ≤ 16 }
    requires d_in_bounds { at + d ≤ length out.old }
    ensures value { result ≡ at + d }
    ensures out_after { out.new ≡ put_at out.old at (hexadecimal d w) }
{
    for i in 0..d {
        let k = d - 1 - i;
        out[at + i] = digit_byte(w >> (4 * k) & 15);
    }
    at + d
}

// Writes the lowest d digits of s from place `at` on; the place after them. First those of the highest word, then whole words: 16 digits each, a number that
// is fixed, so that no digit costs a search for its word.
pub fn put_hexadecimal<const WORDS: usize>(
    out: &mut [u8],
    at: usize,
    s: &Set<WORDS>,
    d: usize,
) -> usize
    requires { at + d ≤ length out.old }
    ensures value { result ≡ at + d }
    ensures out_after { out.new ≡ put_at out.old at (hexadecimal d (set_of s.now)) }
{
    let mut next = put_digits(out, at, s.word(d / 16), d % 16);
    for k in (0..d / 16).rev() {
        next = put_digits(out, next, s.word(k), 16);
    }
    next
}
