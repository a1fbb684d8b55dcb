//! Reading requests and replies.

ghost use Rattle.std.specs.Prelude.{◌≡◌, ◌≤◌, drop, Ok, IfOk, IfErr};
ghost use Rattle.file_messages.specs.Messages as spec;

use crate::descriptors::{listed, name_together, overlap};
use crate::fault::FileFault;
use crate::layout::{
    CHANNEL, COUNT, DESCRIPTOR, DESCRIPTOR_COUNT, END, GROUP_SIZE, ID, LENGTH, MOST_DESCRIPTORS,
    NO_CHANNEL, OFFSET, OP, RDMA_V1, READ, REPLY, REPLY_HEADER, REQUEST_HEADER, STATUS, WRITE,
};
use crate::message::{Asked, Reply, Request};
use buffer_descriptor::Descriptors;
use smbd_base::{Message, NoMemory, u16_at, u32_at};
use std::alloc::Global;

/// What the bytes say as a request, or the first fault that applies, of `Short`, `Op`, `Channel`, `Count`, `Length` and
/// `Overlap` (this project's own). Want of memory is answered only where none of them applies.
pub fn read_request(alloc: Global, message: &[u8]) -> Result<Request, FileFault>
    ensures ok { IfOk result (λ r. spec.request_of message.now ≡ Ok r) }
    ensures err { IfErr result (spec.RefusesRequest message.now) }
{
    match request_fault(message) {
        Some(fault) => Err(fault),
        None => Ok(request_fields(alloc, message)?),
    }
}

/// Why bytes are no request, if they are none: the first fault that applies, of `Short`, `Op`, `Channel`, `Count`,
/// `Length` and `Overlap` (this project's own).
///
/// Bytes after the last descriptor, after the header of an END and after that of a READ without registered pages may hold
/// anything, and so may the two reserved bytes.
#[tactic(auto, unfolding(crate::specs::Messages::request_fault))]
pub fn request_fault(message: &[u8]) -> Option<FileFault>
    ensures { result ≡ spec.request_fault message.now }
{
    if is_short(message) {
        return Some(FileFault::Short);
    }
    if !is_op(u16_at(message, OP)) {
        return Some(FileFault::Op);
    }
    if RDMA_V1 < u16_at(message, CHANNEL) {
        return Some(FileFault::Channel);
    }
    if !counts_well(message) {
        return Some(FileFault::Count);
    }
    if !has_length(message) {
        return Some(FileFault::Length);
    }
    if overlaps(message) {
        return Some(FileFault::Overlap);
    }
    None
}

fn is_short(message: &[u8]) -> bool
    ensures { result ≡ spec.is_short message.now }
{
    if message.len() < REQUEST_HEADER {
        return true;
    }
    let op = u16_at(message, OP);
    let count = u16_at(message, DESCRIPTOR_COUNT);
    u16_at(message, CHANNEL) == RDMA_V1
        && (op == WRITE || op == READ)
        && is_count(count)
        && message.len() < REQUEST_HEADER + DESCRIPTOR * usize::from(count)
}

fn is_op(op: u16) -> bool
    ensures { result ≡ spec.is_op op }
{
    op == WRITE || op == READ || op == END
}

fn is_count(count: u16) -> bool
    ensures { result ≡ spec.is_count count }
{
    1 <= count && count <= MOST_DESCRIPTORS
}

/// Whether descriptors stand after the header.
fn lists_descriptors(message: &[u8]) -> bool
    ensures { result ≡ spec.lists_descriptors message.now }
{
    u16_at(message, CHANNEL) == RDMA_V1 && u16_at(message, OP) != END
}

fn counts_well(message: &[u8]) -> bool
    ensures { result ≡ spec.counts_well message.now }
{
    let count = u16_at(message, DESCRIPTOR_COUNT);
    if lists_descriptors(message) {
        is_count(count)
    } else {
        count == 0
    }
}

fn has_length(message: &[u8]) -> bool
    ensures { result ≡ spec.has_length message.now (spec.request_fields message.now) }
{
    let op = u16_at(message, OP);
    let length = u32_at(message, LENGTH);
    if op == END {
        return length == 0;
    }
    if length < 1 || GROUP_SIZE < length {
        return false;
    }
    if lists_descriptors(message) {
        return name_together(message, u16_at(message, DESCRIPTOR_COUNT), length);
    }
    op != WRITE || inline_bytes(message).len() == length as usize
}

fn overlaps(message: &[u8]) -> bool
    ensures { result ≡ spec.overlap (spec.request_fields message.now).descriptors }
{
    lists_descriptors(message) && overlap(message, u16_at(message, DESCRIPTOR_COUNT))
}

/// The fields of a request as they stand.
fn request_fields(alloc: Global, message: &[u8]) -> Result<Request, NoMemory>
    ensures { IfOk result (λ r. r ≡ spec.request_fields message.now) }
{
    Ok(Request {
        op: u16_at(message, OP),
        channel: u16_at(message, CHANNEL),
        id: u32_at(message, ID),
        offset: u64_at(message, OFFSET),
        length: u32_at(message, LENGTH),
        descriptors: descriptors_of(alloc, message)?,
        inline: Message::copy_of(alloc, inline_bytes(message))?,
    })
}

fn descriptors_of(alloc: Global, message: &[u8]) -> Result<Descriptors, NoMemory>
    ensures { IfOk result (λ d. d ≡ (spec.request_fields message.now).descriptors) }
{
    if lists_descriptors(message) {
        listed(alloc, message, u16_at(message, DESCRIPTOR_COUNT))
    } else {
        Descriptors::copy_of(alloc, &[])
    }
}

/// The bytes of a WRITE without registered pages.
fn inline_bytes(message: &[u8]) -> &[u8]
    ensures { result.now ≡ (spec.request_fields message.now).inline }
{
    if u16_at(message, OP) == WRITE && u16_at(message, CHANNEL) == NO_CHANNEL {
        after(message, REQUEST_HEADER)
    } else {
        &message[..0]
    }
}

/// What stands after so many bytes.
fn after(message: &[u8], place: usize) -> &[u8]
    ensures { result.now ≡ drop place message.now }
{
    &message[place.min(message.len())..]
}

fn u64_at(bytes: &[u8], place: usize) -> u64
    requires { place ≤ 8 }
    ensures { result ≡ spec.u64_at place bytes.now }
{
    u64::from(u32_at(bytes, place)) + u64::from(u32_at(bytes, place + 4)) * 0x1_0000_0000
}

/// What the bytes say as a reply to what was asked, or the first fault that applies, of `Short`, `Op`, `Length` and
/// `Order` (this project's own). Want of memory is answered only where none of them applies.
pub fn read_reply(alloc: Global, message: &[u8], asked: &Asked) -> Result<Reply, FileFault>
    ensures ok { IfOk result (λ r. spec.reply_of asked.now message.now ≡ Ok r) }
    ensures err { IfErr result (spec.RefusesReply asked.now message.now) }
{
    match reply_fault(message, asked) {
        Some(fault) => Err(fault),
        None => Ok(reply_fields(alloc, message, asked)?),
    }
}

/// Why bytes are no reply to what was asked, if they are none: the first fault that applies, of `Short`, `Op`, `Length`
/// and `Order` (this project's own).
///
/// Bytes after the header may hold anything but in the reply of success to a READ without registered pages.
#[tactic(auto, unfolding(crate::specs::Messages::fault_in_reply))]
pub fn reply_fault(message: &[u8], asked: &Asked) -> Option<FileFault>
    ensures { result ≡ spec.fault_in_reply asked.now message.now }
{
    if message.len() < REPLY_HEADER {
        return Some(FileFault::Short);
    }
    if u32::from(u16_at(message, OP)) != u32::from(asked.op) + u32::from(REPLY) {
        return Some(FileFault::Op);
    }
    if !has_count(message, asked) {
        return Some(FileFault::Length);
    }
    if u32_at(message, ID) != asked.id {
        return Some(FileFault::Order);
    }
    None
}

/// Whether the count of a reply fits what was asked, and the bytes after it.
fn has_count(message: &[u8], asked: &Asked) -> bool
    ensures { result ≡ spec.has_count asked.now (spec.reply_fields asked.now message.now) }
{
    let count = u32_at(message, COUNT);
    if u16_at(message, STATUS) != 0 {
        return count == 0;
    }
    if asked.op == WRITE {
        return count == asked.length;
    }
    if asked.op == READ {
        return count <= asked.length
            && (asked.channel != NO_CHANNEL || reply_bytes(message, asked).len() == count as usize);
    }
    count == 0
}

/// The fields of a reply as they stand.
fn reply_fields(alloc: Global, message: &[u8], asked: &Asked) -> Result<Reply, NoMemory>
    ensures { IfOk result (λ r. r ≡ spec.reply_fields asked.now message.now) }
{
    Ok(Reply {
        op: u16_at(message, OP),
        status: u16_at(message, STATUS),
        id: u32_at(message, ID),
        count: u32_at(message, COUNT),
        inline: Message::copy_of(alloc, reply_bytes(message, asked))?,
    })
}

/// The bytes that the reply carries: those of a READ without registered pages.
fn reply_bytes<'a>(message: &'a [u8], asked: &Asked) -> &'a [u8]
    ensures { result.now ≡ (spec.reply_fields asked.now message.now).inline }
{
    if asked.op == READ && asked.channel == NO_CHANNEL && u16_at(message, STATUS) == 0 {
        after(message, REPLY_HEADER)
    } else {
        &message[..0]
    }
}
