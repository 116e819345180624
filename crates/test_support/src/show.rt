// How a case is printed: its name and numbers, a colon, what was answered, and the digest of the words that it left.
use crate::mixing::digest;
use std::io;
use std::io::Write;

pub fn text<W: Write>(to: &mut W, bytes: &[u8]) -> io::Result<()> {
    to.write_all(bytes)
}

pub fn number<W: Write>(to: &mut W, n: u64) -> io::Result<()> {
    write!(to, " {n}")
}

fn each<W: Write>(to: &mut W, numbers: &[u64]) -> io::Result<()> {
    for n in numbers {
        number(to, *n)?;
    }
    Ok(())
}

pub fn case<W: Write>(
    to: &mut W,
    name: &[u8],
    numbers: &[u64],
    answers: &[u64],
    words: &[u64],
) -> io::Result<()> {
    text(to, name)?;
    each(to, numbers)?;
    text(to, b":")?;
    each(to, answers)?;
    let left = digest(words);
    writeln!(to, " {left:016x}")
}
