// The lister's body: a text that is read, and its listing, which is written.
ghost use Rattle.std.specs.Prelude.{◌≡◌, IfSome, OnOk};
ghost use Rattle.std.specs.Io.KnownBytes.{Appends};
ghost use Rattle.listing.specs.Listing.{listing};

use crate::{MOST, list_roles};
use std::io;
use std::io::{Read, Write};
use streams::through;
use text_crew::SPACE;

// Where the bytes to be read are known, what is written is their listing.
pub fn list_stream<R: Read, W: Write>(from: &mut R, to: &mut W) -> io::Result<()>
    ensures { OnOk result (IfSome (R.remaining from.old) (λ text. Appends (W.contents to.old) (W.contents to.new) (listing text))) }
{
    let mut input = [0u8; SPACE];
    let mut space = [0u8; MOST];
    let out = &mut space;
    through(
        from,
        to,
        &mut input,
        move |text|
            ensures { result.now ≡ listing text.now }
        {
            let end = list_roles(text, out);
            &out[..end]
        },
    )
}
