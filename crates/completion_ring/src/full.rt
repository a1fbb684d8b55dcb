//! What comes back where a ring has no room.

/// The item that was offered.
#[derive(Drop)]
pub struct Full<T>(pub T);
