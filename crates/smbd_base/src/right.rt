//! What a token gives the right to.

/// What a remote peer may do with a registered page: fetch bytes out of it (RDMA Read) or place bytes into it
/// (RDMA Write).
#[derive(Clone, Copy, Debug, PartialEq, Eq)]
pub enum Right {
    Fetch,
    Place,
}
