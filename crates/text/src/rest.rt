// What is left of a text from a place on, and the fields that may stand there.
ghost use Rattle.std.specs.Prelude.{◌≡◌, ◌+◌, ◌^◌, ◌<◌, ◌≤◌, MatchOption};
ghost use Rattle.text.specs.Digits.{digit_at};
ghost use Rattle.text.specs.Fixed.{holds};
ghost use Rattle.text.specs.Rest.{after_decimal, after_fixed, after_line_end, moved};

use crate::digit::digit_of;

#[derive(Clone, Copy)]
pub struct Rest<'a> {
    pub text: &'a [u8],
    pub at: usize,
}

impl<'a> Rest<'a> {
    // The whole text.
    pub fn of(text: &'a [u8]) -> Rest<'a>
        ensures text { result.text.now ≡ text.now }
        ensures at { result.at ≡ 0 }
    {
        Rest { text, at: 0 }
    }

    // What is left after so many bytes, whatever they are.
    #[tactic(auto, unfolding(crate::specs::Rest::moved))]
    pub fn skip(self, count: usize) -> Rest<'a>
        requires { self.at + count < 2 ^ 64 }
        ensures { result ≡ moved self.entry count }
    {
        Rest {
            at: self.at + count,
            ..self
        }
    }

    // A digit, and what is left after it. None past the end of the text too.
    #[tactic(auto, using(crate::proofs::Digits::digit_past), unfolding(crate::specs::Digits::digit_at, crate::specs::Rest::moved))]
    pub fn digit(self) -> Option<(u64, Rest<'a>)>
        ensures { MatchOption result (digit_at self.entry.text.now self.entry.at ≡ 16) (λ d. (d.0 < 16) × (d.0 ≡ digit_at self.entry.text.now self.entry.at) × (d.1 ≡ moved self.entry 1)) }
    {
        let d = digit_of(*self.text.get(self.at)?)?;
        Some((d, self.skip(1)))
    }

    fn decimal_digit(self) -> Option<(u64, Rest<'a>)>
        ensures { MatchOption result (10 ≤ digit_at self.entry.text.now self.entry.at) (λ d. (d.0 < 10) × (d.0 ≡ digit_at self.entry.text.now self.entry.at) × (d.1 ≡ moved self.entry 1)) }
    {
        let (d, rest) = self.digit()?;
        if d < 10 { Some((d, rest)) } else { None }
    }

    // A decimal's value, and what is left after it.
    #[tactic(auto, using(crate::proofs::Decimals::decimal_laws), unfolding(crate::specs::Rest::after_decimal, crate::specs::Rest::after_number, crate::specs::Rest::moved))]
    pub fn decimal(self) -> Option<(u64, Rest<'a>)>
        ensures { result ≡ after_decimal self.entry }
    {
        let (a, rest) = self.decimal_digit()?;
        let Some((b, rest)) = rest.decimal_digit() else {
            return Some((a, rest));
        };
        if a == 0 {
            return None;
        }
        let Some((c, rest)) = rest.decimal_digit() else {
            return Some((10 * a + b, rest));
        };
        match rest.decimal_digit() {
            Some(_) => None,
            None => Some((100 * a + 10 * b + c, rest)),
        }
    }

    // Whether these bytes stand there.
    fn holds(self, bytes: &[u8]) -> bool
        ensures { result ≡ holds self.entry.text.now self.entry.at bytes.now }
    {
        self.at <= self.text.len() && self.text[self.at..].starts_with(bytes)
    }

    // What is left after these bytes, where they stand there.
    #[tactic(auto, using(crate::proofs::Bytes::field_laws), unfolding(crate::specs::Rest::after_fixed, crate::specs::Rest::after, crate::specs::Rest::moved))]
    pub fn fixed(self, bytes: &[u8]) -> Option<Rest<'a>>
        ensures { result ≡ after_fixed self.entry bytes.now }
    {
        if self.holds(bytes) {
            Some(self.skip(bytes.len()))
        } else {
            None
        }
    }

    #[tactic(auto, unfolding(crate::specs::Rest::after_line_end))]
    pub fn line_end(self) -> Option<Rest<'a>>
        ensures { result ≡ after_line_end self.entry }
    {
        self.fixed(b"\n")
    }
}
