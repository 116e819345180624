// Reads a crew text into a lent buffer of 512 words. specs/ has the text's form and the order of its faults.
#![tactic(auto)]

ghost use Rattle.std.specs.Prelude.{◌≡◌, ◌≤◌, length};
ghost use Rattle.text_crew.specs.Reader.{after_rows, read_result, read_crew, rows_to};

mod rows;

use crate::rows::read_rows;
use refusals::Refusal;
use text::Rest;
use text_lines::{Header, read_header};

pub const BUFFER: usize = 512;

const LONGEST: usize = 16384;

// A byte more, for who reads a text from elsewhere: so a longer one is noticed.
pub const SPACE: usize = LONGEST + 1;

// How many users and permissions a crew list has.
#[derive(Clone, Copy)]
pub struct CrewSize {
    pub n: u64,
    pub m: u64,
}

// The rows of the list are in the buffer afterwards; where the text is refused, the buffer is as it was lent.
#[tactic(auto, using(crate::proofs::Answers::reader_laws), unfolding(crate::specs::Reader::read_result))]
pub fn read_crew(text: &[u8], rows: &mut [u64]) -> Result<CrewSize, Refusal>
    ensures { read_result result rows.new ≡ read_crew text.now rows.old }
{
    if rows.len() != BUFFER {
        return Err(Refusal::Crew);
    }
    if LONGEST < text.len() {
        return Err(Refusal::Text);
    }
    let header = read_header(text)?;
    fill(text, header, rows.as_mut_array().unwrap())
}

// The rows go into words of their own, and from there to the buffer when the whole text is in order.
#[tactic(auto, using(crate::proofs::Answers::rows_laws), unfolding(crate::specs::Reader::read_result))]
fn fill(text: &[u8], header: Header, rows: &mut [u64; BUFFER]) -> Result<CrewSize, Refusal>
    requires { (header.n ≤ 128) × (header.m ≤ 256) }
    ensures { read_result result rows.new ≡ after_rows text.now rows.old header.n header.m (rows_to text.now header.m header.next header.n) }
{
    let mut words = [0u64; BUFFER];
    let rest = Rest {
        text,
        at: header.next,
    };
    let end = read_rows(rest, header.n as usize, header.m, &mut words)?;
    if end != text.len() {
        return Err(Refusal::Text);
    }
    *rows = words;
    Ok(CrewSize {
        n: header.n,
        m: header.m,
    })
}
