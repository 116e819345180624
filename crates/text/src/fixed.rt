// Fixed bytes, written. What writes is lent the buffer and a place in it, beside each other: of a struct that holds a `&mut` a caller can't conclude what the
// bytes are afterwards, and lent the part from the place on, each promise would still be over the whole buffer.
ghost use Rattle.std.specs.Prelude.{◌≡◌, ◌+◌, ◌≤◌, length};
ghost use Rattle.stores.specs.Stores.{put_at};

// Writes the bytes from place `at` on; the place after them.
pub fn put_bytes(out: &mut [u8], at: usize, bytes: &[u8]) -> usize
    requires { at + length bytes.now ≤ length out.old }
    ensures value { result ≡ at + length bytes.now }
    ensures out_after { out.new ≡ put_at out.old at bytes.now }
{
    let end = at + bytes.len();
    out[at..end].copy_from_slice(bytes);
    end
}
