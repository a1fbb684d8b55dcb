//! Writing the requests of a client.

ghost use Rattle.std.specs.Prelude.{◌≡◌, ◌≤◌, ◌<◌, ◌^◌, ◌++◌, length, map, IfOk, OnOk};
ghost use Rattle.std.specs.List.{flat_map};
ghost use Rattle.buffer_descriptor.specs.Descriptors.{descriptor_bytes};
ghost use Rattle.file_messages.specs.Messages.{request_bytes, header_bytes};
ghost use Rattle.file_messages.specs.Runs.{inline_write, end_request};
ghost use Rattle.file_transfer.specs.ClientStands.{descriptor_in};

use crate::loaded_page::LoadedPage;
use buffer_descriptor::write;
use file_messages::{Asked, END, WRITE, request_header};
use smbd_base::{Message, NoMemory};
use std::alloc::Global;

/// The bytes of a request before what it carries.
pub const REQUEST_HEADER: usize = 24;

/// The bytes of a descriptor.
const DESCRIPTOR: usize = 16;

/// A WRITE of these bytes, so many bytes of the copy standing before them. They are copied once.
pub fn write_inline(alloc: Global, id: u32, offset: u64, group: &[u8]) -> Result<Message, NoMemory>
    requires { length group.now < 2 ^ 32 }
    ensures { IfOk result (λ m. m ≡ request_bytes (inline_write id offset group.now)) }
{
    let asked = Asked {
        op: WRITE,
        channel: 0,
        id,
        length: group.len() as u32,
    };
    let mut text = Vec::with_capacity(alloc, REQUEST_HEADER + group.len())?;
    text.extend_from_slice(&request_header(&asked, offset, 0))?;
    text.extend_from_slice(group)?;
    Message::of_bytes(text)
}

/// END: so many bytes of the copy stand before it, and no more come.
pub fn write_end(alloc: Global, id: u32, offset: u64) -> Result<Message, NoMemory>
    ensures { IfOk result (λ m. m ≡ request_bytes (end_request id offset)) }
{
    let asked = Asked {
        op: END,
        channel: 0,
        id,
        length: 0,
    };
    Message::copy_of(alloc, &request_header(&asked, offset, 0))
}

/// A request over registered pages, so many bytes of the copy standing before it.
pub fn write_over_pages(
    alloc: Global,
    asked: &Asked,
    offset: u64,
    pages: &[LoadedPage],
) -> Result<Message, NoMemory>
    requires { length pages.now ≤ 65535 }
    ensures { IfOk result (λ m. m ≡ header_bytes asked.now.op asked.now.channel asked.now.id offset asked.now.length (length pages.now)
        ++ flat_map descriptor_bytes (map descriptor_in pages.now)) }
{
    let mut text = Vec::with_capacity(alloc, REQUEST_HEADER + DESCRIPTOR * pages.len())?;
    text.extend_from_slice(&request_header(asked, offset, pages.len() as u16))?;
    push_descriptors(&mut text, pages)?;
    Message::of_bytes(text)
}

fn push_descriptors(text: &mut Vec<u8>, pages: &[LoadedPage]) -> Result<(), NoMemory>
    ensures { OnOk result (text.new.items ≡ text.old.items ++ flat_map descriptor_bytes (map descriptor_in pages.now)) }
{
    for page in pages {
        let mut bytes = [0; 16];
        write(&page.descriptor, &mut bytes);
        text.extend_from_slice(&bytes)?;
    }
    Ok(())
}
