//! Which way a copy goes, and how its bytes travel.

ghost use Rattle.std.specs.Prelude.{◌≡◌};
ghost use Rattle.file_messages.specs.Runs.{channel_number};

use crate::layout::{NO_CHANNEL, RDMA_V1};

/// Which way the bytes of a copy go.
#[derive(Clone, Copy, Debug, PartialEq, Eq)]
pub enum CopyKind {
    /// From the client to the server, by WRITEs.
    Put,
    /// From the server to the client, by READs.
    Get,
}

/// How the bytes travel (MS-SMB2 2.2.19 and 2.2.21, Channel).
#[derive(Clone, Copy, Debug, PartialEq, Eq)]
pub enum Channel {
    /// In the requests and replies themselves (SMB2_CHANNEL_NONE).
    None,
    /// Through registered pages, which the requests name by Buffer Descriptors V1 (SMB2_CHANNEL_RDMA_V1).
    V1,
}

impl Channel {
    /// The number by which requests name the channel.
    pub fn number(self) -> u16
        ensures { result ≡ channel_number self }
    {
        match self {
            Channel::None => NO_CHANNEL,
            Channel::V1 => RDMA_V1,
        }
    }
}
