//! The messages of both ends, held against the bytes of the copy.

use super::ends::Ends;
use super::pages::{Load, named_by};
use super::{Copied, Flaw};
use crate::MEMORY;
use file_messages::{
    Asked, Channel, CopyKind, END, READ, REPLY, Reply, WRITE, read_request, request_header,
    write_reply,
};
use smbd_base::Message;
use std::alloc::Global;
use std::process::Abort;

/// So many bytes from this place on, or as many as there are.
pub fn part(bytes: &[u8], at: usize, length: usize) -> &[u8] {
    if bytes.len() <= at {
        return &[];
    }
    let rest = &bytes[at..];
    if rest.len() <= length {
        rest
    } else {
        &rest[..length]
    }
}

/// The next request of a copy, the bytes of the copy that it or its reply carries, and how many pages it names.
#[derive(Clone, Copy)]
struct Form<'a> {
    asked: Asked,
    offset: u64,
    bytes: &'a [u8],
    pages: usize,
}

/// How many WRITEs or READs a copy has: a get asks until a READ brings fewer bytes than a group.
pub fn groups_of(copied: &Copied<'_>) -> usize {
    let length = copied.bytes.len();
    match copied.kind {
        CopyKind::Put => length.div_ceil(65_536),
        CopyKind::Get => (length / 65_536).saturating_add(1),
    }
}

/// The id of the request of this number, from 0.
pub fn id_of(number: usize) -> u32 {
    number.saturating_add(1).min(65_536) as u32
}

/// The request of this number, from 0, of a copy.
fn form_of<'a>(copied: &Copied<'a>, number: usize) -> Option<Form<'a>> {
    let groups = groups_of(copied);
    let id = id_of(number);
    if groups < number {
        return None;
    }
    if number == groups {
        return Some(Form {
            asked: Asked {
                op: END,
                channel: Channel::None.number(),
                id,
                length: 0,
            },
            offset: copied.bytes.len() as u64,
            bytes: &[],
            pages: 0,
        });
    }
    let offset = number.saturating_mul(65_536);
    let bytes = part(copied.bytes, offset, 65_536);
    let (op, length) = match copied.kind {
        CopyKind::Put => (WRITE, bytes.len()),
        CopyKind::Get => (READ, 65_536),
    };
    let pages = match copied.channel {
        Channel::None => 0,
        Channel::V1 => length.div_ceil(4_096),
    };
    Some(Form {
        asked: Asked {
            op,
            channel: copied.channel.number(),
            id,
            length: length.min(65_536) as u32,
        },
        offset: offset as u64,
        bytes,
        pages,
    })
}

/// Whether these bytes, as far as they go, are the header and then what it carries.
fn is_front_of(known: &[u8], header: &[u8], carried: &[u8]) -> bool {
    let of_header = part(known, 0, header.len());
    let of_rest = part(known, header.len(), known.len());
    header.starts_with(of_header) && carried.starts_with(of_rest)
}

/// Whether the request, of which so many bytes were sent, is this one, and names pages that are loaded for it.
fn has_form(
    alloc: Global,
    copied: &Copied<'_>,
    form: &Form<'_>,
    message: &[u8],
    known: usize,
    loads: &mut Vec<Load>,
) -> bool {
    let header = request_header(&form.asked, form.offset, form.pages.min(16) as u16);
    let carried = match (copied.kind, copied.channel) {
        (CopyKind::Put, Channel::None) => form.bytes,
        _ => &[],
    };
    let sent = part(message, 0, known);
    if form.pages == 0 {
        return message.len() == carried.len().saturating_add(24)
            && is_front_of(sent, &header, carried);
    }
    message.len() == form.pages.saturating_mul(16).saturating_add(24)
        && is_front_of(part(sent, 0, 24), &header, &[])
        && (sent.len() < message.len() || names_pages(alloc, copied, form, message, loads))
}

/// Whether the descriptors of a request name a page for each part of 4,096 bytes.
fn names_pages(
    alloc: Global,
    copied: &Copied<'_>,
    form: &Form<'_>,
    message: &[u8],
    loads: &mut Vec<Load>,
) -> bool {
    let Ok(request) = read_request(alloc, message) else {
        return false;
    };
    let mut left = form.asked.length;
    for descriptor in request.descriptors.list() {
        if !named_by(
            loads,
            copied.kind,
            form.asked.id,
            descriptor,
            left.min(4_096),
        ) {
            return false;
        }
        left = left.saturating_sub(4_096);
    }
    left == 0
}

/// Whether the reply, of which so many bytes were sent, answers this request.
fn is_reply(
    rt: &impl Abort,
    alloc: Global,
    copied: &Copied<'_>,
    form: &Form<'_>,
    message: &[u8],
    known: usize,
) -> bool {
    let count = match copied.kind {
        CopyKind::Put => form.asked.length,
        CopyKind::Get => form.bytes.len().min(65_536) as u32,
    };
    let carried = match (copied.kind, copied.channel) {
        (CopyKind::Get, Channel::None) => form.bytes,
        _ => &[],
    };
    let reply = Reply {
        op: form.asked.op | REPLY,
        status: 0,
        id: form.asked.id,
        count,
        inline: Message::copy_of(alloc, carried).expect(rt, MEMORY),
    };
    let expected = write_reply(alloc, &reply).expect(rt, MEMORY);
    message.len() == expected.len() && expected.bytes().starts_with(part(message, 0, known))
}

fn flaw_of_requests(
    alloc: Global,
    copied: &Copied<'_>,
    ends: &Ends,
    loads: &mut Vec<Load>,
) -> Option<Flaw> {
    let mut start = 0usize;
    for (number, message) in ends.client.submitted.iter().enumerate() {
        let Some(form) = form_of(copied, number) else {
            return Some(Flaw::Request);
        };
        let known = ends.client.payload.len().saturating_sub(start);
        if !has_form(alloc, copied, &form, message.bytes(), known, loads) {
            return Some(Flaw::Request);
        }
        start = start.saturating_add(message.len());
    }
    None
}

fn flaw_of_replies(
    rt: &impl Abort,
    alloc: Global,
    copied: &Copied<'_>,
    ends: &Ends,
) -> Option<Flaw> {
    let mut start = 0usize;
    for (number, message) in ends.server.submitted.iter().enumerate() {
        let Some(form) = form_of(copied, number) else {
            return Some(Flaw::Reply);
        };
        let known = ends.server.payload.len().saturating_sub(start);
        if !is_reply(rt, alloc, copied, &form, message.bytes(), known) {
            return Some(Flaw::Reply);
        }
        start = start.saturating_add(message.len());
    }
    None
}

/// The first message that isn't the one which the copy sends next. The loads that requests name are marked with them.
pub fn flaw_of_messages(
    rt: &impl Abort,
    alloc: Global,
    copied: &Copied<'_>,
    ends: &Ends,
    loads: &mut Vec<Load>,
) -> Option<Flaw> {
    let flaw = flaw_of_requests(alloc, copied, ends, loads);
    if flaw.is_some() {
        return flaw;
    }
    flaw_of_replies(rt, alloc, copied, ends)
}

/// How many bytes of the copy the request of this number, from 0, or its reply carries.
pub fn bytes_of_group(copied: &Copied<'_>, number: usize) -> usize {
    part(copied.bytes, number.saturating_mul(65_536), 65_536).len()
}
