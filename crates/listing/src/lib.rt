// What the role lister prints, as a function from a text to bytes.
#![tactic(auto)]

ghost use Rattle.std.specs.Prelude.{◌≡◌, ◌≤◌, length};
ghost use Rattle.std.proofs.Math.Bool.{So};
ghost use Rattle.model.specs.Record.{built, state_of, sound};
ghost use Rattle.stores.specs.Stores.{put_at};
ghost use Rattle.listing.specs.Listing.{listing, settled};

mod roles;
mod stream;

use crate::roles::put_roles;
use call_eliminate::panel_eliminate;
use call_review::panel_review;
pub use stream::list_stream;
use tables::{LENGTH, Record};
use text_mine::mine_text;
use text_roles::put_refusal;

// More than any text's roles need.
pub const MOST: usize = 32768;

// Eliminates and then reviews the roles of a record, with plain weights.
fn settle(rec: &mut Record)
    requires { So (sound rec.old) }
    ensures { rec.new ≡ built (settled (state_of rec.old)) }
{
    let _ = panel_eliminate(rec, 1, 1, 1, 1, 1, 1);
    let _ = panel_review(rec, 1, 1, 1, 1);
}

// Writes what the lister prints for this text; how many bytes that is.
pub fn list_roles(text: &[u8], out: &mut [u8; MOST]) -> usize
    ensures { (result ≡ length (listing text.now)) × (out.new ≡ put_at out.old 0 (listing text.now)) × (result ≤ length out.new) }
{
    let mut rec = [0u64; LENGTH];
    match mine_text(text, &mut rec) {
        Ok(()) => {
            settle(&mut rec);
            put_roles(&rec, out)
        }
        Err(refusal) => put_refusal(out, refusal.number()),
    }
}
