// A crew text from standard input, handed back on standard output through the reader, mining and the writer; or the refusal.
#![tactic(auto)]

use std::io;

fn main(rt: HostRuntime) -> io::Result<()> {
    round_trip::hand_back_stream(&mut rt.stdin(), &mut rt.stdout())
}
