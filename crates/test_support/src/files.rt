// The files of a test program's folder that are named by number: 000, 001 and so on.
ghost use Rattle.std.specs.Prelude.{◌<◌};

use std::fs::File;
use std::io::{ErrorKind, Write};
use std::rt::Files;
use std::{io, str};

fn digit(n: u64) -> u8
    ensures { result < 128 }
{
    (n % 10) as u8 + b'0'
}

// The file, or nothing where there is none of that name.
fn open<R: Files>(files: &R, name: &str) -> io::Result<Option<R::File>> {
    match File::open(files, name) {
        Ok(file) => Ok(Some(file)),
        Err(error) if error.kind() == ErrorKind::NotFound => Ok(None),
        Err(error) => Err(error),
    }
}

// The file of this number, after a line with its name; or nothing where there is none.
pub fn next_file<R: Files, W: Write>(
    files: &R,
    to: &mut W,
    number: u64,
) -> io::Result<Option<R::File>> {
    let digits = [digit(number / 100), digit(number / 10), digit(number)];
    let name = str::from_utf8(&digits).unwrap();
    let Some(file) = open(files, name)? else {
        return Ok(None);
    };
    writeln!(to, "{name}")?;
    Ok(Some(file))
}
