//! What a call of a worker answers.

/// What one call of a worker came to.
#[derive(Clone, Copy, Debug, PartialEq, Eq)]
pub enum One {
    /// A job was finished.
    Did,
    /// The job isn't finished, and is kept: it isn't fit for the region, or the region refused a part of it.
    Held,
    /// There is no job.
    Idle,
    /// The ring of completions has no room for the one before, and nothing was done.
    Full,
}
