//! What an end's share of a round comes to.

/// What an end's share of a round came to.
#[derive(Clone, Copy, Debug, PartialEq, Eq)]
pub enum Share {
    /// All its turns were done.
    Full,
    /// Nothing is left to do.
    Rests,
    /// The end is cut.
    IsCut,
    /// The client has cut the link, in the place of the frame in whose place it was to be cut.
    Cuts,
}
