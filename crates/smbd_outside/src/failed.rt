//! That something outside failed.

use thiserror::Error;

/// A source or a sink failed, and its count of faults rose.
#[derive(Clone, Copy, Debug, PartialEq, Eq, Error)]
#[error("a source or a sink failed")]
pub struct Failed;
