// A block, 64 words of 64 bits, rows made columns: the bit in word r at place c goes to word c, place r.
#![tactic(auto)]

ghost use Rattle.std.specs.Prelude.{◌≡◌, ◌<◌, length};
ghost use Rattle.std.proofs.Math.Bool.{So};
ghost use Rattle.blocks.specs.Shuffles.{spaced, Shuffled, Transposed};

// Six shuffles, each with half the step of the one before: a word's number gives up its highest digit and gets one of the place's. They make 192
// pairs of words, for 4,096 bits.
pub fn transpose(block: &mut [u64])
    requires { length block.old ≡ 64 }
    ensures { Transposed block.old block.new }
{
    let mut other = [0u64; 64];
    shuffle(block, 32, 0x0000_0000_FFFF_FFFF, &mut other);
    shuffle(&other, 16, 0x0000_FFFF_0000_FFFF, block);
    shuffle(block, 8, 0x00FF_00FF_00FF_00FF, &mut other);
    shuffle(&other, 4, 0x0F0F_0F0F_0F0F_0F0F, block);
    shuffle(block, 2, 0x3333_3333_3333_3333, &mut other);
    shuffle(&other, 1, 0x5555_5555_5555_5555, block);
}

// Words i and i + 32 become words 2 i and 2 i + 1: the first of these gets the places of the mask m from both, the second the places s above them.
fn shuffle(from: &[u64], s: usize, m: u64, to: &mut [u64])
    requires { (length from.now ≡ 64) × (length to.old ≡ 64) × (s < 64) × So (spaced s m) }
    ensures { Shuffled 64 s m from.now to.new }
{
    for i in 0..32 {
        let x = from[i];
        let y = from[i + 32];
        to[2 * i] = (x & m) | ((y & m) << s);
        to[2 * i + 1] = ((x >> s) & m) | (y & !m);
    }
}
