// One digit as a byte.
ghost use Rattle.std.specs.Prelude.{◌≡◌, ◌<◌, MatchOption};
ghost use Rattle.text.specs.Digits.{digit_byte, digit_of};

#[tactic(auto, using(crate::proofs::Digits::digit_laws))]
pub fn digit_of(b: u8) -> Option<u64>
    ensures { MatchOption result (digit_of b ≡ 16) (λ d. (d < 16) × (d ≡ digit_of b)) }
{
    match b {
        b'0'..=b'9' => Some(u64::from(b - b'0')),
        b'a'..=b'f' => Some(u64::from(b - b'a') + 10),
        _ => None,
    }
}

#[tactic(auto, using(crate::proofs::Digits::byte_laws))]
pub fn digit_byte(d: u64) -> u8
    requires { d < 16 }
    ensures { result ≡ digit_byte d }
{
    if d < 10 {
        d as u8 + b'0'
    } else {
        (d - 10) as u8 + b'a'
    }
}
