// Bytes as words, so that they too have a digest.
ghost use Rattle.std.specs.Prelude.{◌≡◌, length};

// Each byte into the word of its place. Each word is stored by its index: after a walk over `words.iter_mut()` a proof knows how many words there are, and not
// what was put into them.
pub fn widen(bytes: &[u8], words: &mut [u64])
    requires { length bytes.now ≡ length words.old }
    ensures { words.new ≡ bytes.now }
{
    for (i, byte) in bytes.iter().enumerate() {
        words[i] = u64::from(*byte);
    }
}
