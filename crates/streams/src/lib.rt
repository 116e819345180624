// Input read into a buffer of fixed size.
#![tactic(auto)]

ghost use Rattle.std.specs.Prelude.{◌≡◌, List, ℕ, ◌<◌, ◌≤◌, length, take, IfOk, IfSome, OnOk};
ghost use Rattle.std.specs.Io.KnownBytes.{Appends, Consumes, IsAtEnd};

use std::io;
use std::io::{Read, Write};

// Reads until the buffer is full or the input ends; how many bytes it put at the buffer's start.
pub fn read_full<R: Read>(from: &mut R, buffer: &mut [u8]) -> io::Result<usize>
    ensures bound { IfOk result (λ n. n ≤ length buffer.new) }
    ensures bytes { IfOk result (λ n. Consumes (R.remaining from.old) (R.remaining from.new) (take n buffer.new)) }
    ensures end { IfOk result (λ n. n < length buffer.new → IsAtEnd (R.remaining from.new)) }
{
    let mut done = 0;
    // what is counted are bytes that came, not turns
    while done < buffer.len() {
        let count = from.read(&mut buffer[done..])?;
        if count == 0 {
            break;
        }
        done += count;
    }
    Ok(done)
}

// Hands the work as much of the input as the buffer has space for, and writes what it answers.
pub fn through<'a, R: Read, W: Write, F: FnOnce(&[u8]) -> &'a [u8]>(
    from: &mut R,
    to: &mut W,
    buffer: &mut [u8],
    work: F,
) -> io::Result<()>
    requires { F.IsAlwaysCallable work }
    ensures { (f : List ℕ → List ℕ) → ((text : List ℕ) (input : _) (answer : _) → input.now ≡ take (length buffer.old) text → F.post work input answer → answer.now ≡ f text) → OnOk result (IfSome (R.remaining from.old) (λ text. Appends (W.contents to.old) (W.contents to.new) (f text))) }
{
    let n = read_full(from, buffer)?;
    to.write_all(work(&buffer[..n]))
}
