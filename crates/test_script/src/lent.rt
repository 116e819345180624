// How many words and bytes are lent to a call.

// More than mining or the reader takes, so that they are seen to refuse them.
pub const MOST_WORDS: usize = 520;

// More than any crew text that is written.
pub const MOST_LENT: usize = 9000;
