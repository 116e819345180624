// One number for many words. Mixing (xorshift by 13, 7 and 17) is linear, and one cycle through all 2^64 - 1 words that are not zero. So a change of one
// word is never lost, and what a word does to the digest depends on its place: a bit turned at one place is not undone by a bit turned at another of
// the 2,057 that a test lends, which tests/test_model.py tries for every two.
ghost use Rattle.std.specs.Prelude.{◌≡◌};
ghost use Rattle.test_support.specs.Digest.{mixed, digest_of};

// Not zero, which mixing would leave as it is.
const START: u64 = 0x9e37_79b9_7f4a_7c15;

fn mix(d: u64) -> u64
    ensures { result ≡ mixed d }
{
    let a = d ^ d << 13;
    let b = a ^ a >> 7;
    b ^ b << 17
}

pub fn digest(ws: &[u64]) -> u64
    ensures { result ≡ digest_of ws.now }
{
    ws.iter().fold(START, |d, w| mix(d ^ *w))
}
