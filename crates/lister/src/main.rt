// The role lister: the roles of the crew text on standard input, on standard output.
#![tactic(auto)]

use std::io;

fn main(rt: HostRuntime) -> io::Result<()> {
    listing::list_stream(&mut rt.stdin(), &mut rt.stdout())
}
