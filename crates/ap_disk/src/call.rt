/// What a recorded call of a memory disk did. The bytes of a write are kept apart, one write's behind
/// another's.
#[derive(Clone, Copy, Debug, PartialEq, Eq)]
pub enum Step {
    /// It changed nothing.
    Nothing,
    /// It wrote so many bytes at an offset.
    Wrote { at: usize, count: usize },
    /// It failed to write so many bytes at an offset.
    Tore { at: usize, count: usize },
    /// It cut the file to a length.
    Cut { len: u64 },
    /// It failed to cut the file to a length.
    FailedCut { len: u64 },
    /// It made all earlier calls last.
    Synced,
}

/// A recorded call, with its moment.
#[derive(Clone, Copy, Debug, PartialEq, Eq)]
pub struct Call {
    pub time: u64,
    pub step: Step,
}
