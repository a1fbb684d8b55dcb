//! The descriptors that stand after the header of a request.

ghost use Rattle.std.specs.Prelude.{◌≡◌, ◌+◌, ◌*◌, ◌-◌, ◌==◌, ◌&&◌, ◌≤◌, drop, nat_lt, IfOk};
ghost use Rattle.buffer_descriptor.specs.Descriptors.{place_after, fields_of};
ghost use Rattle.file_messages.specs.Messages as spec;

use crate::layout::{DESCRIPTOR, REQUEST_HEADER};
use buffer_descriptor::{Descriptor, Descriptors};
use smbd_base::{NoMemory, u32_at};
use std::alloc::Global;

/// So many descriptors, as they stand after the header.
pub(crate) fn listed(alloc: Global, message: &[u8], count: u16) -> Result<Descriptors, NoMemory>
    ensures { IfOk result (λ d. d ≡ spec.descriptors_in count (drop 24 message.now)) }
{
    let mut list = Vec::with_capacity(alloc, usize::from(count))?;
    for place in 0..count {
        list.push(descriptor_at(message, place))?;
    }
    Descriptors::copy_of(alloc, list.as_slice())
}

/// Whether each of so many descriptors is sound, and they name so many bytes together.
pub(crate) fn name_together(message: &[u8], count: u16, bytes: u32) -> bool
    ensures { result ≡ (spec.are_sound (spec.descriptors_in count (drop 24 message.now))
        && spec.sum_of_lengths (spec.descriptors_in count (drop 24 message.now)) == bytes) }
{
    let mut named: u64 = 0;
    for place in 0..count {
        let descriptor = descriptor_at(message, place);
        if !is_sound(&descriptor) {
            return false;
        }
        named += u64::from(descriptor.length);
    }
    named == u64::from(bytes)
}

/// Whether two of so many descriptors have a byte in common.
pub(crate) fn overlap(message: &[u8], count: u16) -> bool
    ensures { result ≡ spec.overlap (spec.descriptors_in count (drop 24 message.now)) }
{
    for place in 0..count {
        let descriptor = descriptor_at(message, place);
        if shares_with_later(&descriptor, message, place + 1, count) {
            return true;
        }
    }
    false
}

/// Whether the descriptor has a byte in common with one of those from this place on.
fn shares_with_later(descriptor: &Descriptor, message: &[u8], from: u16, count: u16) -> bool
    ensures { result ≡ spec.shares_with descriptor.now (spec.descriptors_in (count - from) (drop (16 * from) (drop 24 message.now))) }
{
    for place in from..count {
        if share_a_byte(descriptor, &descriptor_at(message, place)) {
            return true;
        }
    }
    false
}

fn share_a_byte(one: &Descriptor, other: &Descriptor) -> bool
    ensures { result ≡ spec.share_a_byte one.now other.now }
{
    begins_before_end(one, other) && begins_before_end(other, one)
}

/// Whether one descriptor begins before the other one's end.
fn begins_before_end(one: &Descriptor, other: &Descriptor) -> bool
    ensures { result ≡ nat_lt one.now.offset (place_after other.now) }
{
    one.offset < other.offset || one.offset - other.offset < u64::from(other.length)
}

fn is_sound(descriptor: &Descriptor) -> bool
    ensures { result ≡ spec.is_sound descriptor.now }
{
    0 < descriptor.length && u64::from(descriptor.length) <= u64::MAX - descriptor.offset
}

/// The descriptor at this place, counted from 0. Its fields are 0 where the bytes end before their end.
fn descriptor_at(message: &[u8], place: u16) -> Descriptor
    ensures { result ≡ fields_of (drop (16 * place) (drop 24 message.now)) }
{
    let from = REQUEST_HEADER + DESCRIPTOR * usize::from(place);
    let low = u64::from(u32_at(message, from));
    let high = u64::from(u32_at(message, from + 4));
    Descriptor {
        offset: low + high * 0x1_0000_0000,
        token: u32_at(message, from + 8),
        length: u32_at(message, from + 12),
    }
}
