// A list of calls served in one go.
use crate::lent::MOST_WORDS;
use panel::{NotServed, serve};
use std::io::{Read, Write};
use test_input::{Unread, last_numbers, numbers};
use test_support::{case, lent};

fn serve_words<W: Write>(
    to: &mut W,
    n: u64,
    m: u64,
    crew: &[u64],
    calls: &[u64],
    out: &mut [u64],
    rec: &mut [u64],
) -> Result<(), Unread> {
    match serve(n, m, crew, calls, rec, out) {
        Ok(candidates) => case(to, b"list mined", &[candidates], out, rec)?,
        Err(NotServed::Unreadable) => case(to, b"list unreadable", &[], out, rec)?,
        Err(NotServed::Refused(refusal)) => case(
            to,
            b"list refused",
            &[refusal.number()],
            out,
            rec,
        )?,
    }
    Ok(())
}

pub fn list<R: Read, W: Write>(from: &mut R, to: &mut W, rec: &mut [u64]) -> Result<(), Unread> {
    let mut head = [0u64; 5];
    numbers(from, &mut head)?;
    let rows = head[2] as usize;
    let words = head[3] as usize;
    let answers = head[4] as usize;
    if MOST_WORDS < rows || MOST_WORDS < words || MOST_WORDS < answers {
        return Err(Unread::Line);
    }
    let mut crew: [u64; MOST_WORDS] = lent();
    numbers(from, &mut crew[..rows])?;
    let mut calls: [u64; MOST_WORDS] = lent();
    last_numbers(from, &mut calls[..words])?;
    let mut out: [u64; MOST_WORDS] = lent();
    serve_words(
        to,
        head[0],
        head[1],
        &crew[..rows],
        &calls[..words],
        &mut out[..answers],
        rec,
    )
}
