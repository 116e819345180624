// Words that are lent to a call, in part, and show what was written to them.
pub fn lent<const WORDS: usize>() -> [u64; WORDS] {
    [7; WORDS]
}
