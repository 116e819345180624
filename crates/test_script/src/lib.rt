// Runs a script that it reads, and prints a line for each call: its numbers, what it answers, and a digest of the words that it
// leaves. One record goes through the whole script.
//
// A command is a line: the byte that names it, and then each of its numbers as a blank and 16 hexadecimal digits. The bytes and the numbers:
//     m   n, m, how many crew words follow, the words     panel_mine
//     s   k                                               panel_strike
//     r   k                                               panel_restore
//     e   w1, w2, w3, w4, a, b                            panel_eliminate
//     v   w1, w2, w3, w4                                  panel_review
//     q   w1, w2, w3, w4                                  panel_quality
//     a   u, p                                            panel_may
//     l   n, m, how many crew words, call words and answer words there are, the crew words, the call words
//                                                         panel::serve: a list of calls on a freshly mined record
//     c   how many bytes, how many words; then the bytes  panel_read_crew: a crew text into words of its own
//     b   how many bytes                                  panel_write_crew: into so many bytes, all of them 7
//     d   place, value                                    puts the value at this place of the record
//     w   count                                           the calls that follow are lent this many words of the record
//     t   bytes up to the line's end, not numbers         prints them: what the lines that follow are about
// Where a line is none of these the program says so and ends.
#![tactic(auto)]

mod ask;
mod edit;
mod lent;
mod list;

use crate::ask::asked;
use crate::edit::edited;
use std::io;
use std::io::{Read, Write};
use streams::read_full;
use tables::LENGTH;
use test_input::{Unread, last_numbers};
use test_support::text;

const MOST_COMMANDS: u64 = 1_000_000;

// How many words the calls are lent from now on.
fn next_width<R: Read>(from: &mut R, most: usize) -> Result<usize, Unread> {
    let mut w = [0u64; 1];
    last_numbers(from, &mut w)?;
    let count = w[0] as usize;
    if most < count {
        return Err(Unread::Line);
    }
    Ok(count)
}

// Reads the rest of a command's line and runs it.
fn command<R: Read, W: Write>(
    name: u8,
    from: &mut R,
    to: &mut W,
    rec: &mut [u64],
) -> Result<(), Unread> {
    if asked(name, from, to, rec)? {
        return Ok(());
    }
    edited(name, from, to, rec)
}

// One line of the script; how many words the calls are lent after it.
fn step<R: Read, W: Write>(
    name: u8,
    from: &mut R,
    to: &mut W,
    rec: &mut [u64],
    count: usize,
) -> Result<usize, Unread> {
    if name == b'w' {
        return next_width(from, rec.len());
    }
    if rec.len() < count {
        return Err(Unread::Line);
    }
    command(name, from, to, &mut rec[..count])?;
    Ok(count)
}

// Runs the script to its end.
fn run<R: Read, W: Write>(from: &mut R, to: &mut W, rec: &mut [u64]) -> Result<(), Unread> {
    let mut count = LENGTH;
    for _ in 0..MOST_COMMANDS {
        let mut name = [0u8; 1];
        if read_full(from, &mut name)? != 1 {
            return Ok(());
        }
        count = step(name[0], from, to, rec, count)?;
    }
    Err(Unread::Line)
}

pub fn run_script<R: Read, W: Write>(from: &mut R, to: &mut W) -> io::Result<()> {
    // one word more than a record has, so that longer ones can be lent too
    let mut rec = [0xaaaa_aaaa_aaaa_aaaau64; LENGTH + 1];
    match run(from, to, &mut rec) {
        Ok(()) => Ok(()),
        Err(Unread::Line) => text(to, b"unreadable\n"),
        Err(Unread::Io(error)) => Err(error),
    }
}
