// What alters no record: the calls that read one, the reader and the writer of a crew text, and titles.
use crate::lent::{MOST_LENT, MOST_WORDS};
use panel::{panel_may, panel_quality, panel_read_crew, panel_write_crew};
use std::io::{Read, Write};
use streams::read_full;
use test_input::{Unread, last_numbers};
use test_support::{case, lent, pair_told, text, told, widen};

const MOST_BYTES: usize = 4096;

fn quality<R: Read, W: Write>(from: &mut R, to: &mut W, rec: &[u64]) -> Result<(), Unread> {
    let mut w = [0u64; 4];
    last_numbers(from, &mut w)?;
    let a = told(panel_quality(rec, w[0], w[1], w[2], w[3]));
    case(to, b"quality", &w, &a, rec)?;
    Ok(())
}

fn may<R: Read, W: Write>(from: &mut R, to: &mut W, rec: &[u64]) -> Result<(), Unread> {
    let mut w = [0u64; 2];
    last_numbers(from, &mut w)?;
    let a = told(panel_may(rec, w[0], w[1]).map(u64::from));
    case(to, b"may", &w, &a, rec)?;
    Ok(())
}

fn read_bytes<R: Read, W: Write>(
    from: &mut R,
    to: &mut W,
    crew: &mut [u8],
    words: &mut [u64],
) -> Result<(), Unread> {
    if read_full(from, crew)? != crew.len() {
        return Err(Unread::Line);
    }
    let a = pair_told(panel_read_crew(crew, words).map(|size| (size.n, size.m)));
    case(to, b"read", &[], &a, words)?;
    Ok(())
}

fn read<R: Read, W: Write>(from: &mut R, to: &mut W) -> Result<(), Unread> {
    let mut head = [0u64; 2];
    last_numbers(from, &mut head)?;
    let size = head[0] as usize;
    let count = head[1] as usize;
    if MOST_BYTES < size || MOST_WORDS < count {
        return Err(Unread::Line);
    }
    let mut space = [0u8; MOST_BYTES];
    let mut words: [u64; MOST_WORDS] = lent();
    read_bytes(from, to, &mut space[..size], &mut words[..count])
}

// A word is lent for each byte.
fn write_bytes<W: Write>(
    to: &mut W,
    rec: &[u64],
    crew: &mut [u8],
    words: &mut [u64],
) -> Result<(), Unread> {
    if crew.len() != words.len() {
        return Err(Unread::Line);
    }
    let a = told(panel_write_crew(rec, crew).map(|length| length as u64));
    widen(crew, words);
    case(to, b"write", &[crew.len() as u64], &a, words)?;
    Ok(())
}

fn write<R: Read, W: Write>(from: &mut R, to: &mut W, rec: &[u64]) -> Result<(), Unread> {
    let mut head = [0u64; 1];
    last_numbers(from, &mut head)?;
    let count = head[0] as usize;
    if MOST_LENT < count {
        return Err(Unread::Line);
    }
    let mut space = [7u8; MOST_LENT];
    let mut words = [0u64; MOST_LENT];
    write_bytes(to, rec, &mut space[..count], &mut words[..count])
}

fn title<R: Read, W: Write>(from: &mut R, to: &mut W) -> Result<(), Unread> {
    for _ in 0..MOST_BYTES {
        let mut byte = [0u8; 1];
        if read_full(from, &mut byte)? != 1 {
            break;
        }
        text(to, &byte)?;
        if byte[0] == b'\n' {
            return Ok(());
        }
    }
    Err(Unread::Line)
}

// Reads the rest of a command's line and runs it; or answers that the command is none of these.
pub fn asked<R: Read, W: Write>(
    name: u8,
    from: &mut R,
    to: &mut W,
    rec: &[u64],
) -> Result<bool, Unread> {
    match name {
        b'q' => quality(from, to, rec)?,
        b'a' => may(from, to, rec)?,
        b'c' => read(from, to)?,
        b'b' => write(from, to, rec)?,
        b't' => title(from, to)?,
        _ => return Ok(false),
    }
    Ok(true)
}
