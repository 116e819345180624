// A long script of calls on one record, and of lists served in one go; tests/vectors.py writes it and what is to be printed.
#![tactic(auto)]

use std::io;

fn main(rt: HostRuntime) -> io::Result<()> {
    test_script::run_script(&mut rt.stdin(), &mut rt.stdout())
}
