// The first line: `crew,n,m`.
ghost use Rattle.std.specs.Prelude.{◌≡◌};
ghost use Rattle.text_lines.specs.Lines.{header_at, header_fields};

use limits::limits_kept;
use refusals::Refusal;
use text::Rest;

// n, m and the place after the line.
#[derive(Clone, Copy)]
pub struct Header {
    pub n: u64,
    pub m: u64,
    pub next: usize,
}

#[tactic(auto, using(crate::proofs::Lines::fields_laws))]
fn read_fields(text: &[u8]) -> Option<Header>
    ensures { result ≡ header_fields text.now }
{
    let rest = Rest::of(text).fixed(b"crew,")?;
    let (n, rest) = rest.decimal()?;
    let rest = rest.fixed(b",")?;
    let (m, rest) = rest.decimal()?;
    let rest = rest.line_end()?;
    Some(Header {
        n,
        m,
        next: rest.at,
    })
}

// The form of the whole line is judged before its limits.
#[tactic(auto, using(crate::proofs::Lines::header_laws))]
pub fn read_header(text: &[u8]) -> Result<Header, Refusal>
    ensures { result ≡ header_at text.now }
{
    let header = read_fields(text).ok_or(Refusal::Text)?;
    if limits_kept(header.n, header.m) {
        Ok(header)
    } else {
        Err(Refusal::Limits)
    }
}
