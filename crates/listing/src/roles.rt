// The roles of a record.
ghost use Rattle.std.specs.Prelude.{◌≡◌, ◌≤◌, length};
ghost use Rattle.std.proofs.Math.Bool.{So};
ghost use Rattle.model.specs.Record.{state_of, sound};
ghost use Rattle.stores.specs.Stores.{put_at};
ghost use Rattle.text_roles.specs.Words.{most_bytes};
ghost use Rattle.listing.specs.Listing.{roles_text};

use call_quality::panel_quality;
use tables::{Record, STANDING, load};
use text_roles::{put_head, put_lines};

// The head and a line for each standing role.
pub fn put_roles(rec: &Record, out: &mut [u8]) -> usize
    requires so { So (sound rec.now) }
    requires most_bytes_in_bounds { most_bytes ≤ length out.old }
    ensures { (result ≡ length (roles_text (state_of rec.now))) × (out.new ≡ put_at out.old 0 (roles_text (state_of rec.now))) × (result ≤ most_bytes) }
{
    let quality = panel_quality(rec, 1, 1, 1, 1).unwrap();
    let count = load::<2>(rec, STANDING).count() as u64;
    let start = put_head(out, count, quality);
    put_lines(rec, out, start)
}
