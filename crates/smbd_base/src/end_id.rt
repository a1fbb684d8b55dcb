//! Which end it is.

/// One of the two ends of a connection (MS-SMBD 1.3: the peer that connects, and the peer that accepts).
#[derive(Clone, Copy, Debug, PartialEq, Eq)]
pub enum EndId {
    Client,
    Server,
}
