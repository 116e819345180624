// What alters the record: the calls that mine and edit, and a word put into it.
use crate::lent::MOST_WORDS;
use crate::list::list;
use panel::{panel_eliminate, panel_mine, panel_restore, panel_review, panel_strike};
use std::io::{Read, Write};
use test_input::{Unread, last_numbers, numbers};
use test_support::{case, lent, number_alone, pair_told, told};

fn mine_words<R: Read, W: Write>(
    from: &mut R,
    to: &mut W,
    n: u64,
    m: u64,
    crew: &mut [u64],
    rec: &mut [u64],
) -> Result<(), Unread> {
    last_numbers(from, crew)?;
    let a = told(panel_mine(n, m, crew, rec));
    case(to, b"mine", &[n, m], &a, rec)?;
    Ok(())
}

fn mine<R: Read, W: Write>(from: &mut R, to: &mut W, rec: &mut [u64]) -> Result<(), Unread> {
    let mut head = [0u64; 3];
    numbers(from, &mut head)?;
    let n = head[0];
    let m = head[1];
    let count = head[2] as usize;
    if MOST_WORDS < count {
        return Err(Unread::Line);
    }
    let mut crew: [u64; MOST_WORDS] = lent();
    mine_words(from, to, n, m, &mut crew[..count], rec)
}

fn strike<R: Read, W: Write>(from: &mut R, to: &mut W, rec: &mut [u64]) -> Result<(), Unread> {
    let mut w = [0u64; 1];
    last_numbers(from, &mut w)?;
    let a = number_alone(panel_strike(rec, w[0]));
    case(to, b"strike", &w, &a, rec)?;
    Ok(())
}

fn restore<R: Read, W: Write>(from: &mut R, to: &mut W, rec: &mut [u64]) -> Result<(), Unread> {
    let mut w = [0u64; 1];
    last_numbers(from, &mut w)?;
    let a = number_alone(panel_restore(rec, w[0]));
    case(to, b"restore", &w, &a, rec)?;
    Ok(())
}

fn eliminate<R: Read, W: Write>(from: &mut R, to: &mut W, rec: &mut [u64]) -> Result<(), Unread> {
    let mut w = [0u64; 6];
    last_numbers(from, &mut w)?;
    let done = panel_eliminate(rec, w[0], w[1], w[2], w[3], w[4], w[5]);
    let a = pair_told(done.map(|done| (done.changed, done.examined)));
    case(to, b"eliminate", &w, &a, rec)?;
    Ok(())
}

fn review<R: Read, W: Write>(from: &mut R, to: &mut W, rec: &mut [u64]) -> Result<(), Unread> {
    let mut w = [0u64; 4];
    last_numbers(from, &mut w)?;
    let done = panel_review(rec, w[0], w[1], w[2], w[3]);
    let a = pair_told(done.map(|done| (done.changed, done.examined)));
    case(to, b"review", &w, &a, rec)?;
    Ok(())
}

fn damage<R: Read, W: Write>(from: &mut R, to: &mut W, rec: &mut [u64]) -> Result<(), Unread> {
    let mut w = [0u64; 2];
    last_numbers(from, &mut w)?;
    let place = w[0] as usize;
    if rec.len() <= place {
        return Err(Unread::Line);
    }
    rec[place] = w[1];
    case(to, b"word", &w, &[], rec)?;
    Ok(())
}

// Reads the rest of a command's line and runs it.
pub fn edited<R: Read, W: Write>(
    name: u8,
    from: &mut R,
    to: &mut W,
    rec: &mut [u64],
) -> Result<(), Unread> {
    match name {
        b'm' => mine(from, to, rec),
        b's' => strike(from, to, rec),
        b'r' => restore(from, to, rec),
        b'e' => eliminate(from, to, rec),
        b'v' => review(from, to, rec),
        b'l' => list(from, to, rec),
        b'd' => damage(from, to, rec),
        _ => Err(Unread::Line),
    }
}
