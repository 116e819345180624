// The cases of document 01 as a script, with a title before each; tests/worked.py writes it and what is to be printed.
#![tactic(auto)]

use std::io;

fn main(rt: HostRuntime) -> io::Result<()> {
    test_script::run_script(&mut rt.stdin(), &mut rt.stdout())
}
