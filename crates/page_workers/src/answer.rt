//! What a call of a worker answers.

/// What one call of a worker came to.
#[derive(Clone, Copy, Debug, PartialEq, Eq)]
pub enum One {
    /// A job was finished.
    Did,
    /// The region refused the job, which is kept.
    Held,
    /// There is no job.
    Idle,
}
