// Why a line of a script is not run.
use std::error::Error;
use std::{fmt, io};

#[derive(Debug, Drop)]
pub enum Unread {
    // It is no command, or its numbers are not there.
    Line,
    // Reading it failed, or printing what it answers.
    Io(io::Error),
}

impl From<io::Error> for Unread {
    fn from(error: io::Error) -> Unread {
        Unread::Io(error)
    }
}

impl fmt::Display for Unread {
    fn fmt<W: fmt::Write>(&self, f: &mut fmt::Formatter<W>) -> fmt::Result {
        match self {
            Unread::Line => write!(f, "unreadable"),
            Unread::Io(error) => write!(f, "{error}"),
        }
    }
}

impl Error for Unread {}
