// What the lister prints for each of many crew texts: the files 000, 001 and so on, until one is missing.
#![tactic(auto)]

use std::io;
use test_support::next_file;

const MOST_TEXTS: u64 = 1000;

fn main(rt: HostRuntime) -> io::Result<()> {
    let mut out = rt.stdout();
    for number in 0..MOST_TEXTS {
        let Some(mut text) = next_file(&rt, &mut out, number)? else {
            break;
        };
        listing::list_stream(&mut text, &mut out)?;
    }
    Ok(())
}
