// The body of `handback`: a text that is read, and what comes back of it, which is written.
ghost use Rattle.std.specs.Prelude.{◌≡◌, IfSome, OnOk};
ghost use Rattle.std.specs.Io.KnownBytes.{Appends};
ghost use Rattle.round_trip.specs.HandBack.{handed_back};

use crate::hand_back;
use std::io;
use std::io::{Read, Write};
use streams::through;
use text_crew::SPACE;
use text_write::LONGEST_WRITTEN;

// Where the bytes to be read are known, what is written is what comes back of them.
pub fn hand_back_stream<R: Read, W: Write>(from: &mut R, to: &mut W) -> io::Result<()>
    ensures { OnOk result (IfSome (R.remaining from.old) (λ text. Appends (W.contents to.old) (W.contents to.new) (handed_back text))) }
{
    let mut input = [0u8; SPACE];
    let mut space = [0u8; LONGEST_WRITTEN];
    let out = &mut space;
    through(
        from,
        to,
        &mut input,
        move |text|
            ensures { result.now ≡ handed_back text.now }
        {
            let end = hand_back(text, out);
            &out[..end]
        },
    )
}
