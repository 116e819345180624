// A crew text handed back through the reader, mining and the writer, as a function from a text to bytes.
#![tactic(auto)]

ghost use Rattle.std.specs.Prelude.{◌≡◌, ◌≤◌, length};
ghost use Rattle.stores.specs.Stores.{put_at};
ghost use Rattle.round_trip.specs.HandBack.{handed_back};

mod stream;

use call_write::panel_write_crew;
pub use stream::hand_back_stream;
use tables::LENGTH;
use text_mine::mine_text;
use text_roles::put_refusal;
use text_write::LONGEST_WRITTEN;

// Writes what comes back of this text; how many bytes that is.
pub fn hand_back(text: &[u8], out: &mut [u8; LONGEST_WRITTEN]) -> usize
    ensures { (result ≡ length (handed_back text.now)) × (out.new ≡ put_at out.old 0 (handed_back text.now)) × (result ≤ length out.new) }
{
    let mut rec = [0u64; LENGTH];
    match mine_text(text, &mut rec) {
        Ok(()) => panel_write_crew(&rec, out).unwrap(),
        Err(refusal) => put_refusal(out, refusal.number()),
    }
}
