// The set library at the borders of its words: for each width, and each i there, the sets {i} and {0, .., i} and what the library says of them.
#![tactic(auto)]

ghost use Rattle.std.specs.Prelude.{◌≡◌, ◌≤◌, ◌<◌, true};

use sets::{Set, Set256};
use std::io::Write;
use std::{fmt, io};

// What a line says of a set and of one that may hold it.
#[derive(Clone, Copy)]
struct Row {
    contains: bool,
    count: usize,
    other_count: usize,
    lowest: Option<usize>,
    other_highest: Option<usize>,
    proper: bool,
    less: bool,
}

// An item, or a dash where there is none.
#[derive(Clone, Copy)]
struct Item(Option<usize>);

impl fmt::Display for Item {
    fn fmt<W: fmt::Write>(&self, f: &mut fmt::Formatter<W>) -> fmt::Result {
        match self.0 {
            Some(i) => write!(f, "{i}"),
            None => write!(f, "-"),
        }
    }
}

fn print<W: Write>(to: &mut W, width: usize, i: usize, row: Row) -> io::Result<()> {
    let contains = u64::from(row.contains);
    let count = row.count;
    let other_count = row.other_count;
    let lowest = Item(row.lowest);
    let other_highest = Item(row.other_highest);
    let proper = u64::from(row.proper);
    let less = u64::from(row.less);
    writeln!(
        to,
        "width {width} {i}: {contains} {count} {other_count} {lowest} {other_highest} {proper} {less}"
    )
}

fn case<const WORDS: usize, W: Write>(to: &mut W, i: usize) -> io::Result<()>
    requires width { WORDS ≤ 4 }
    requires i_bound { i < 256 }
{
    let a = &Set::<WORDS>::empty().insert(i);
    let b = &Set::<WORDS>::below(i + 1);
    let row = Row {
        contains: a.contains(i),
        count: a.count(),
        other_count: b.count(),
        lowest: a.lowest(),
        other_highest: b.highest(),
        proper: a.is_proper_subset(*b),
        less: a.less(*b),
    };
    print(to, 64 * WORDS, i, row)
}

// What is left of a set without another has nothing in common with that other: a caller knows it from the library's promises.
fn apart(a: Set256, b: Set256) -> bool
    ensures { result ≡ true }
{
    a.difference(b).intersection(b).is_empty()
}

fn main(rt: HostRuntime) -> io::Result<()> {
    let mut out = rt.stdout();
    for i in [0, 63, 64, 127, 128, 255] {
        case::<2, _>(&mut out, i)?;
    }
    for i in [0, 63, 64, 127, 128, 255] {
        case::<4, _>(&mut out, i)?;
    }
    let told = u64::from(apart(Set256::below(200), Set256::below(100)));
    writeln!(out, "apart: {told}")
}
