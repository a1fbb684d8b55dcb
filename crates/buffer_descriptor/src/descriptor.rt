//! One descriptor: its fields, how it is read and written.

ghost use Rattle.std.specs.Prelude.{◌≡◌, IfOk};
ghost use Rattle.buffer_descriptor.specs.Descriptors.{IsSound, descriptor_of, descriptor_bytes};

use smbd_base::u32_at;
use thiserror::Error;

/// A Buffer Descriptor V1 (MS-SMBD 2.2.3.1).
#[derive(Clone, Copy, Debug, PartialEq, Eq)]
pub struct Descriptor {
    /// The place of the first byte, in the pool that the token's page belongs to.
    pub offset: u64,
    /// The number of the steering token.
    pub token: u32,
    /// How many bytes the descriptor names.
    pub length: u32,
}

/// Why bytes are no descriptor. The faults stand in the order in which they are looked for.
#[derive(Clone, Copy, Debug, PartialEq, Eq, Error)]
pub enum DescriptorFault {
    /// Fewer than 16 bytes.
    #[error("a descriptor has 16 bytes")]
    Short,
    /// Offset plus Length passes 2^64 - 1.
    #[error("Offset plus Length passes 2^64 - 1")]
    Wraps,
    /// Length is 0.
    #[error("Length is 0")]
    Zero,
}

/// The descriptor in the first 16 of these bytes, or the first fault that applies.
#[tactic(auto, unfolding(crate::specs::Descriptors::descriptor_of))]
pub fn read(bytes: &[u8]) -> Result<Descriptor, DescriptorFault>
    ensures value { result ≡ descriptor_of bytes.now }
    ensures sound { IfOk result IsSound }
{
    if bytes.len() < 16 {
        return Err(DescriptorFault::Short);
    }
    let low = u64::from(u32_at(bytes, 0));
    let high = u64::from(u32_at(bytes, 4));
    let descriptor = Descriptor {
        offset: low + high * 0x1_0000_0000,
        token: u32_at(bytes, 8),
        length: u32_at(bytes, 12),
    };
    if u64::MAX - descriptor.offset < u64::from(descriptor.length) {
        return Err(DescriptorFault::Wraps);
    }
    if descriptor.length == 0 {
        return Err(DescriptorFault::Zero);
    }
    Ok(descriptor)
}

/// Writes the one form of a descriptor.
pub fn write(descriptor: &Descriptor, out: &mut [u8; 16])
    ensures value { out.new ≡ descriptor_bytes descriptor.now }
    ensures read_back { IsSound descriptor.now → descriptor_of out.new ≡ Ok descriptor.now }
{
    let Descriptor {
        offset,
        token,
        length,
    } = *descriptor;
    out[..8].copy_from_slice(&offset.to_le_bytes());
    out[8..12].copy_from_slice(&token.to_le_bytes());
    out[12..].copy_from_slice(&length.to_le_bytes());
}
