use std::fmt;
use std::fmt::{Display, Formatter};
use std::io::{Error, ErrorKind};

/// A call of the system that failed, or that wasn't made for what stands at its path.
#[derive(Drop)]
pub struct Failure {
    call: &'static str,
    error: Error,
}

impl Failure {
    /// A call that failed with this error.
    pub fn new(call: &'static str, error: Error) -> Self {
        Failure { call, error }
    }

    /// A call that wasn't made, and why.
    pub fn refused(call: &'static str, why: &str) -> Self {
        Failure {
            call,
            error: Error::other(why),
        }
    }

    /// Whether the system had no memory for it.
    pub fn is_out_of_memory(&self) -> bool {
        self.error.kind() == ErrorKind::OutOfMemory
    }
}

/// A failure, and the file or folder that the call was about. It displays as one line without a line feed, such as
/// `open "game/a.txt": Permission denied (os error 13)`.
#[derive(Clone, Copy)]
pub struct Culprit<'a> {
    path: &'a str,
    failure: &'a Failure,
}

impl<'a> Culprit<'a> {
    pub fn new(path: &'a str, failure: &'a Failure) -> Self {
        Culprit { path, failure }
    }
}

impl<'a> Display for Culprit<'a> {
    fn fmt<W: fmt::Write>(&self, f: &mut Formatter<W>) -> fmt::Result {
        write!(
            f,
            "{} {:?}: {}",
            self.failure.call, self.path, self.failure.error
        )
    }
}
