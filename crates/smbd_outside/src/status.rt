//! How a program ends.

ghost use Rattle.std.specs.Prelude.{◌≡◌, Some};
ghost use Rattle.smbd_outside.specs.Status.{code_of, text_of};

use std::fmt;
use std::marker::Model;

/// How a program ended.
#[derive(Clone, Copy, Debug, PartialEq, Eq)]
pub enum Status {
    /// The input was read to its end, all output was written, and for a copy the reply to its END was taken.
    Done,
    /// The words are none of the program's forms. Nothing was read or written.
    Usage,
    /// The source failed: its count of faults rose, or stood at its last value.
    ReadFault,
    /// The sink failed. It holds a front of what was to be written.
    WriteFault,
    /// The log failed. It holds a front of each side's lines, the last line written perhaps cut short.
    LogFault,
    /// More than 16,777,216 bytes were read.
    TooLong,
    /// The client cut the link, as it was asked to, and neither log nor sink failed.
    Cut,
    /// The line of this number, from 1, is the first that isn't in the grammar. The whole input was read, and nothing
    /// is written.
    BadInput { line: u64 },
    /// No memory could be had. No clause says when this comes.
    NoMemory,
}

/// The text of a status, as `{}` prints it. Contracts see the list of its bytes.
#[derive(Clone, Debug, Drop)]
pub struct StatusText {
    status: Status,
}

impl Model for StatusText {
    ghost use Rattle.std.specs.Prelude.{List, ℕ};

    ghost Value = { List ℕ };

    ghost use Rattle.smbd_outside.specs.Status.{text_of};

    ghost view = { λ t. text_of t.status };
}

impl Status {
    /// The exit status: 0, or 2 to 9.
    pub fn code(&self) -> u8
        ensures { result ≡ code_of self.now }
    {
        match self {
            Status::Done => 0,
            Status::Usage => 2,
            Status::ReadFault => 3,
            Status::WriteFault => 4,
            Status::LogFault => 5,
            Status::TooLong => 6,
            Status::Cut => 7,
            Status::BadInput { .. } => 8,
            Status::NoMemory => 9,
        }
    }

    /// The text for standard error, a line with its line feed, and nothing for `Done`.
    pub fn text(&self) -> StatusText
        ensures { result ≡ text_of self.now }
    {
        StatusText { status: *self }
    }
}

impl fmt::Display for StatusText {
    ghost output = { λ text. Some text };

    fn fmt<W: fmt::Write>(&self, f: &mut fmt::Formatter<W>) -> fmt::Result {
        match self.status {
            Status::Done => Ok(()),
            Status::Usage => f.write_str("smbd: usage\n"),
            Status::ReadFault => f.write_str("smbd: the source failed\n"),
            Status::WriteFault => f.write_str("smbd: the sink failed\n"),
            Status::LogFault => f.write_str("smbd: the log failed\n"),
            Status::TooLong => f.write_str("smbd: more than 16777216 bytes\n"),
            Status::Cut => f.write_str("smbd: the link was cut\n"),
            Status::BadInput { line } => writeln!(f, "smbd: line {line} is not understood"),
            Status::NoMemory => f.write_str("smbd: no memory\n"),
        }
    }
}
