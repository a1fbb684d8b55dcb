//! Writing requests and replies.

ghost use Rattle.std.specs.Prelude.{◌≡◌, ◌≤◌, ◌++◌, length, IfOk, OnOk};
ghost use Rattle.std.specs.List.{flat_map};
ghost use Rattle.buffer_descriptor.specs.Descriptors.{descriptor_bytes};
ghost use Rattle.file_messages.specs.Messages as spec;

use crate::layout::{
    CHANNEL, COUNT, DESCRIPTOR, DESCRIPTOR_COUNT, ID, LENGTH, OFFSET, OP, REPLY_HEADER,
    REQUEST_HEADER, STATUS,
};
use crate::message::{Asked, Reply, Request};
use buffer_descriptor::{Descriptor, write};
use smbd_base::{Message, NoMemory};
use std::alloc::Global;

/// Writes the one form of a request, which `read_request` gives back where it is lawful (this project's own).
pub fn write_request(alloc: Global, request: &Request) -> Result<Message, NoMemory>
    requires { length request.now.descriptors ≤ 65535 }
    ensures { IfOk result (λ m. m ≡ spec.request_bytes request.now) }
{
    let list = request.descriptors.list();
    let inline = request.inline.bytes();
    let header = request_header(&request.asked(), request.offset, list.len() as u16);
    let mut text = Vec::with_capacity(
        alloc,
        REQUEST_HEADER + DESCRIPTOR * list.len() + inline.len(),
    )?;
    text.extend_from_slice(&header)?;
    push_descriptors(&mut text, list)?;
    text.extend_from_slice(inline)?;
    Message::of_bytes(text)
}

fn push_descriptors(text: &mut Vec<u8>, list: &[Descriptor]) -> Result<(), NoMemory>
    ensures { OnOk result (text.new.items ≡ text.old.items ++ flat_map descriptor_bytes list.now) }
{
    for descriptor in list {
        let mut bytes = [0; 16];
        write(descriptor, &mut bytes);
        text.extend_from_slice(&bytes)?;
    }
    Ok(())
}

/// Writes the header of a request: the 24 bytes before what it carries. `count` is the number of its descriptors.
pub fn request_header(asked: &Asked, offset: u64, count: u16) -> [u8; 24]
    ensures { result ≡ spec.header_bytes asked.now.op asked.now.channel asked.now.id offset asked.now.length count }
{
    let mut out = [0; 24];
    out[OP..CHANNEL].copy_from_slice(&asked.op.to_le_bytes());
    out[CHANNEL..ID].copy_from_slice(&asked.channel.to_le_bytes());
    out[ID..OFFSET].copy_from_slice(&asked.id.to_le_bytes());
    out[OFFSET..LENGTH].copy_from_slice(&offset.to_le_bytes());
    out[LENGTH..DESCRIPTOR_COUNT].copy_from_slice(&asked.length.to_le_bytes());
    out[DESCRIPTOR_COUNT..22].copy_from_slice(&count.to_le_bytes());
    out
}

/// Writes the one form of a reply, which `read_reply` gives back to whom it answers (this project's own).
pub fn write_reply(alloc: Global, reply: &Reply) -> Result<Message, NoMemory>
    ensures { IfOk result (λ m. m ≡ spec.reply_bytes reply.now) }
{
    let inline = reply.inline.bytes();
    let mut text = Vec::with_capacity(alloc, REPLY_HEADER + inline.len())?;
    text.extend_from_slice(&reply_header(reply))?;
    text.extend_from_slice(inline)?;
    Message::of_bytes(text)
}

fn reply_header(reply: &Reply) -> [u8; 12]
    ensures { result ≡ spec.reply_header reply.now }
{
    let mut out = [0; 12];
    out[OP..STATUS].copy_from_slice(&reply.op.to_le_bytes());
    out[STATUS..ID].copy_from_slice(&reply.status.to_le_bytes());
    out[ID..COUNT].copy_from_slice(&reply.id.to_le_bytes());
    out[COUNT..].copy_from_slice(&reply.count.to_le_bytes());
    out
}
