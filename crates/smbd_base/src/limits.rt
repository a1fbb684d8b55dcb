//! The limits of an end.

ghost use Rattle.std.specs.Prelude.{◌≡◌};
ghost use Rattle.smbd_base.specs.Limits as spec;

use std::marker::Model;
use thiserror::Error;

/// The fewest receive credits (this project's own): with two, both ends could wait for credits at once.
pub const LEAST_CREDITS: u32 = 3;

/// The most receive credits (this project's own).
pub const MOST_CREDITS: u32 = 255;

/// The least size of the longest frame, in bytes: of PreferredSendSize and of MaxReceiveSize (MS-SMBD 2.2.1 and 2.2.2; the
/// bound is this project's own).
pub const LEAST_FRAME_SIZE: u32 = 128;

/// The greatest size of the longest frame, in bytes (this project's own).
pub const MOST_FRAME_SIZE: u32 = 8_192;

/// The least MaxFragmentedSize, in bytes (MS-SMBD 3.1.1.1), which a peer gathers before anything is agreed.
pub const LEAST_FRAGMENTED_SIZE: u32 = 131_072;

/// The greatest MaxFragmentedSize, in bytes (this project's own).
pub const MOST_FRAGMENTED_SIZE: u32 = 1_048_576;

/// The fewest pages of a pool (this project's own): those of one request of the file layer.
pub const LEAST_PAGES: u32 = 16;

/// The most pages of a pool (this project's own).
pub const MOST_PAGES: u32 = 255;

/// Which limit lies out of its range.
#[derive(Clone, Copy, Debug, PartialEq, Eq, Error)]
pub enum LimitFault {
    /// The receive credits, from 3 to 255.
    #[error("receive credits lie from 3 to 255")]
    Credits,
    /// The preferred send size, from 128 to 8,192 bytes.
    #[error("the preferred send size lies from 128 to 8192")]
    SendSize,
    /// MaxReceiveSize, from 128 to 8,192 bytes.
    #[error("MaxReceiveSize lies from 128 to 8192")]
    ReceiveSize,
    /// MaxFragmentedSize, from 131,072 to 1,048,576 bytes.
    #[error("MaxFragmentedSize lies from 131072 to 1048576")]
    FragmentedSize,
    /// The pages of a pool, from 16 to 255.
    #[error("the pages of a pool lie from 16 to 255")]
    Pages,
}

/// The limits of one end (MS-SMBD 3.1.1; the ranges and defaults are this project's own).
/// Contracts see them as a record of the five numbers.
#[derive(Clone, Copy, Debug, PartialEq, Eq)]
pub struct EndLimits {
    credits: u16,
    send_size: u32,
    receive_size: u32,
    fragmented_size: u32,
    pages: u16,
}

impl Model for EndLimits {
    ghost use Rattle.smbd_base.specs.Limits.{Limits, IsLawful};

    ghost Value = { Limits };

    ghost view = { λ l. record { credits = l.credits; send_size = l.send_size; receive_size = l.receive_size; fragmented_size = l.fragmented_size; pages = l.pages } };

    ghost invariant = { λ l. IsLawful (record { credits = l.credits; send_size = l.send_size; receive_size = l.receive_size; fragmented_size = l.fragmented_size; pages = l.pages }) };

    ghost inverse = { λ v. record { credits = v.credits; send_size = v.send_size; receive_size = v.receive_size; fragmented_size = v.fragmented_size; pages = v.pages } };
}

#[tactic(auto, unfolding(crate::specs::Limits::is_outside))]
fn is_outside(least: u32, most: u32, n: u32) -> bool
    ensures { result ≡ spec.is_outside least most n }
{
    n < least || most < n
}

impl EndLimits {
    /// These limits, or the first of them that lies out of its range.
    pub fn check(
        credits: u16,
        send_size: u32,
        receive_size: u32,
        fragmented_size: u32,
        pages: u16,
    ) -> Result<EndLimits, LimitFault>
        ensures { result ≡ spec.checked (record { credits = credits; send_size = send_size; receive_size = receive_size; fragmented_size = fragmented_size; pages = pages }) }
    {
        if is_outside(LEAST_CREDITS, MOST_CREDITS, u32::from(credits)) {
            return Err(LimitFault::Credits);
        }
        if is_outside(LEAST_FRAME_SIZE, MOST_FRAME_SIZE, send_size) {
            return Err(LimitFault::SendSize);
        }
        if is_outside(LEAST_FRAME_SIZE, MOST_FRAME_SIZE, receive_size) {
            return Err(LimitFault::ReceiveSize);
        }
        if is_outside(LEAST_FRAGMENTED_SIZE, MOST_FRAGMENTED_SIZE, fragmented_size) {
            return Err(LimitFault::FragmentedSize);
        }
        if is_outside(LEAST_PAGES, MOST_PAGES, u32::from(pages)) {
            return Err(LimitFault::Pages);
        }
        Ok(EndLimits {
            credits,
            send_size,
            receive_size,
            fragmented_size,
            pages,
        })
    }

    /// The defaults: 255 credits, frames of 1,364 bytes to send and 8,192 to receive, messages of 1,048,576
    /// bytes, and 64 pages.
    pub fn usual() -> EndLimits
        ensures { result ≡ spec.usual_limits }
    {
        EndLimits {
            credits: 255,
            send_size: 1_364,
            receive_size: 8_192,
            fragmented_size: 1_048_576,
            pages: 64,
        }
    }

    /// The receives that the end keeps posted, which are the credits that its peer can be granted.
    pub fn credits(&self) -> u16
        ensures value { result ≡ self.now.credits }
        ensures lawful { spec.IsLawful self.now }
    {
        self.credits
    }

    /// The longest frame that the end would send, in bytes (PreferredSendSize).
    pub fn send_size(&self) -> u32
        ensures value { result ≡ self.now.send_size }
        ensures lawful { spec.IsLawful self.now }
    {
        self.send_size
    }

    /// The longest frame that the end receives, in bytes (MaxReceiveSize).
    pub fn receive_size(&self) -> u32
        ensures value { result ≡ self.now.receive_size }
        ensures lawful { spec.IsLawful self.now }
    {
        self.receive_size
    }

    /// The longest message that the end gathers, in bytes (MaxFragmentedSize).
    pub fn fragmented_size(&self) -> u32
        ensures value { result ≡ self.now.fragmented_size }
        ensures lawful { spec.IsLawful self.now }
    {
        self.fragmented_size
    }

    /// The pages of the end's pool.
    pub fn pages(&self) -> u16
        ensures value { result ≡ self.now.pages }
        ensures lawful { spec.IsLawful self.now }
    {
        self.pages
    }
}
