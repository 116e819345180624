// The numbers of a script's line.
#![tactic(auto)]

mod unread;

use std::io::Read;
use streams::read_full;
use text::Rest;
use text_sets::{hexadecimal_set, read_hexadecimal};
pub use unread::Unread;

// A blank and 16 digits.
#[tactic(auto, using(text_sets::proofs::Hexadecimals::digits_there))]
fn next_number<R: Read>(from: &mut R) -> Result<u64, Unread> {
    let mut field = [0u8; 17];
    if read_full(from, &mut field)? != 17 {
        return Err(Unread::Line);
    }
    let digits = Rest::of(&field).fixed(b" ").ok_or(Unread::Line)?;
    read_hexadecimal(digits, 16).ok_or(Unread::Line)?;
    Ok(hexadecimal_set(digits, 16).word(0))
}

// Fills the words with the numbers that come next.
pub fn numbers<R: Read>(from: &mut R, words: &mut [u64]) -> Result<(), Unread> {
    for word in words.iter_mut() {
        *word = next_number(from)?;
    }
    Ok(())
}

fn line_ends<R: Read>(from: &mut R) -> Result<(), Unread> {
    let mut end = [0u8; 1];
    if read_full(from, &mut end)? == 1 && end[0] == b'\n' {
        Ok(())
    } else {
        Err(Unread::Line)
    }
}

// The last numbers of a line.
pub fn last_numbers<R: Read>(from: &mut R, words: &mut [u64]) -> Result<(), Unread> {
    numbers(from, words)?;
    line_ends(from)
}
