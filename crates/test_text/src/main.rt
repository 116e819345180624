// Reads cases from standard input and prints the reader's answer to each, with a digest of the words that it was lent.
// A case is a line with the lengths of its text and of its buffer, each in four hexadecimal digits, as `001f,0200`, and then the text.
#![tactic(auto)]

use std::io;
use std::io::Write;
use streams::read_full;
use test_support::{case, lent, pair_told};
use text::Rest;
use text_sets::{hexadecimal_set, read_hexadecimal};

const MOST_INPUT: usize = 65536;

const MOST_WORDS: usize = 600;

const MOST_CASES: usize = 1000;

#[tactic(auto, using(text_sets::proofs::Hexadecimals::digits_there))]
fn number(digits: Rest) -> usize {
    match read_hexadecimal(digits, 4) {
        Some(_) => hexadecimal_set(digits, 4).word(0) as usize,
        None => 0,
    }
}

fn run<W: Write>(to: &mut W, text: &[u8], words: &mut [u64]) -> io::Result<()> {
    let a = pair_told(text_crew::read_crew(text, words).map(|size| (size.n, size.m)));
    case(to, b"read", &[], &a, words)
}

// Runs the case at place `at`; the place after it, or the input's end where there is no whole case.
fn run_case<W: Write>(to: &mut W, input: &[u8], at: usize) -> io::Result<usize> {
    if input.len() < 10 || input.len() - 10 < at {
        return Ok(input.len());
    }
    let head = Rest { text: input, at };
    let size = number(head);
    let count = number(head.skip(5));
    let start = at + 10;
    if input.len() - start < size || MOST_WORDS < count {
        return Ok(input.len());
    }
    let mut words: [u64; MOST_WORDS] = lent();
    run(to, &input[start..start + size], &mut words[..count])?;
    Ok(start + size)
}

fn run_all<W: Write>(to: &mut W, input: &[u8]) -> io::Result<()> {
    let mut at = 0;
    for _ in 0..MOST_CASES {
        if input.len() <= at {
            break;
        }
        at = run_case(to, input, at)?;
    }
    Ok(())
}

fn main(rt: HostRuntime) -> io::Result<()> {
    let mut input = [0u8; MOST_INPUT];
    let n = read_full(&mut rt.stdin(), &mut input)?;
    run_all(&mut rt.stdout(), &input[..n])
}
