//! Requests as bytes.

use crate::MEMORY;
use crate::serving::Serving;
use buffer_descriptor::Descriptor;
use file_messages::{Asked, FileFault, request_header};
use smbd_base::Message;
use std::alloc::Global;
use std::process::Abort;

/// What the server answers to the request for this at this offset, with these descriptors and these bytes after them.
pub fn ask(
    rt: &impl Abort,
    alloc: Global,
    server: &mut Serving,
    asked: &Asked,
    offset: u64,
    descriptors: &[Descriptor],
    carries: &[u8],
) -> Result<(), FileFault> {
    let mut bytes = head_of(rt, alloc, asked, offset, descriptors);
    bytes.extend_from_slice(carries).expect(rt, MEMORY);
    let message = Message::of_bytes(bytes).expect(rt, MEMORY);
    server.request(&message)
}

/// The header and the descriptors.
fn head_of(
    rt: &impl Abort,
    alloc: Global,
    asked: &Asked,
    offset: u64,
    descriptors: &[Descriptor],
) -> Vec<u8> {
    assert!(rt; descriptors.len() <= 16);
    let header = header_of(asked, offset, descriptors.len() as u16);
    let mut bytes = Vec::from_slice(alloc, &header).expect(rt, MEMORY);
    for descriptor in descriptors {
        bytes
            .extend_from_slice(&bytes_of(descriptor))
            .expect(rt, MEMORY);
    }
    bytes
}

fn header_of(asked: &Asked, offset: u64, count: u16) -> [u8; 24] {
    request_header(asked, offset, count)
}

fn bytes_of(descriptor: &Descriptor) -> [u8; 16] {
    let mut bytes = [0; 16];
    buffer_descriptor::write(descriptor, &mut bytes);
    bytes
}
