// The first line: of roles, or of a refusal.
ghost use Rattle.std.specs.Prelude.{◌≡◌, ◌≤◌, length};
ghost use Rattle.stores.specs.Stores.{put_at};
ghost use Rattle.text_roles.specs.Lines.{head_line, refused_text};
ghost use Rattle.text_roles.specs.Words.{most_bytes, refused_bytes};

use crate::lines::put_number;
use text::{put_bytes, put_first_line};

pub fn put_refusal(out: &mut [u8], code: u64) -> usize
    requires { refused_bytes ≤ length out.old }
    ensures { (result ≡ length (refused_text code)) × (out.new ≡ put_at out.old 0 (refused_text code)) × (result ≤ refused_bytes) }
{
    let number = put_bytes(out, 0, b"refused,");
    let end = put_number(out, number, code);
    put_bytes(out, end, b"\n")
}

// How many roles stand, and the quality.
pub fn put_head(out: &mut [u8], count: u64, quality: u64) -> usize
    requires { most_bytes ≤ length out.old }
    ensures { (result ≡ length (head_line count quality)) × (out.new ≡ put_at out.old 0 (head_line count quality)) × (result ≤ 48) }
{
    put_first_line(out, b"roles,", count, quality)
}
