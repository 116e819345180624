// Lists written back as crew texts: the cases of request 1, and a long script with the writer called in between; tests/worked.py and tests/vectors.py
// write it and what is to be printed.
#![tactic(auto)]

use std::io;

fn main(rt: HostRuntime) -> io::Result<()> {
    test_script::run_script(&mut rt.stdin(), &mut rt.stdout())
}
