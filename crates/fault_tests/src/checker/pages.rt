//! A model of the registered pages, by the lines of the workers.
//!
//! The client's workers load and unload pages, and the server's access them under their tokens. The lists of the workers are not one
//! order of time: so the loads come first, and each access is held against the load of its token.

use super::ends::Ends;
use super::lines::PageLine;
use super::messages::{bytes_of_group, groups_of, id_of};
use super::{Copied, Flaw};
use crate::MEMORY;
use buffer_descriptor::Descriptor;
use event_log::{LogLine, Side};
use file_messages::{Channel, CopyKind};
use smbd_base::Right;
use std::alloc::Global;
use std::process::Abort;

/// One load of a page, and what was done with it.
#[derive(Drop)]
pub struct Load {
    /// The number of its token: the generation times 256, plus the page.
    token: u32,
    right: Right,
    length: u32,
    accesses: u32,
    /// The bytes that were fetched or placed.
    accessed: u64,
    is_unloaded: bool,
    /// The id of the request that names it, from 1, and 0 where none does.
    request: u32,
}

fn page_of(token: u32) -> u32 {
    token % 256
}

/// The number of the worker of a page.
fn worker_of(token: u32, workers: u8) -> u8 {
    let number = (token % 256) as u8;
    number.checked_rem(workers).unwrap_or(0).saturating_add(1)
}

/// Whether the page can be loaded under this token: for the first time, or again after it was unloaded.
fn can_load(loads: &[Load], token: u32) -> bool {
    let mut is_next = token / 256 == 1;
    for load in loads {
        if page_of(load.token) == page_of(token) {
            is_next = load.is_unloaded && token == load.token.saturating_add(256);
        }
    }
    is_next
}

fn add_load(rt: &impl Abort, loads: &mut Vec<Load>, token: u32, right: Right, length: u32) -> bool {
    if !can_load(loads, token) {
        return false;
    }
    let load = Load {
        token,
        right,
        length,
        accesses: 0,
        accessed: 0,
        is_unloaded: false,
        request: 0,
    };
    loads.push(load).expect(rt, MEMORY);
    true
}

fn unload(loads: &mut Vec<Load>, token: u32) -> bool {
    match loads.iter_mut().find(|load| load.token == token) {
        Some(load) => {
            let was_unloaded = load.is_unloaded;
            load.is_unloaded = true;
            !was_unloaded
        }
        None => false,
    }
}

/// Does a line of a worker of the client, and tells whether it can have it. Lines of the server's are left alone.
fn do_client_line(rt: &impl Abort, loads: &mut Vec<Load>, workers: u8, line: &PageLine) -> bool {
    if let Side::Sw(_) = line.side {
        return true;
    }
    match &line.line {
        LogLine::Load {
            token,
            right,
            length,
        } => {
            let number = token.number();
            line.side == Side::Cw(worker_of(number, workers))
                && add_load(rt, loads, number, *right, *length)
        }
        LogLine::Unload { token } => {
            let number = token.number();
            line.side == Side::Cw(worker_of(number, workers)) && unload(loads, number)
        }
        _ => false,
    }
}

/// Whether a later load of the same page was accessed.
fn is_past(loads: &[Load], token: u32) -> bool {
    loads.iter().any(|load| {
        page_of(load.token) == page_of(token) && token < load.token && load.accesses != 0
    })
}

/// Notes an access, and tells whether the load allows it. `order` counts the accesses of a load, where it is told.
fn access(
    loads: &mut Vec<Load>,
    token: u32,
    right: Right,
    order: Option<u32>,
    length: u32,
) -> bool {
    if is_past(loads, token) {
        return false;
    }
    match loads.iter_mut().find(|load| load.token == token) {
        Some(load) => {
            let is_next = order.unwrap_or(load.accesses) == load.accesses;
            load.accesses = load.accesses.saturating_add(1);
            load.accessed = load.accessed.saturating_add(u64::from(length));
            is_next && load.right == right
        }
        None => false,
    }
}

/// Does a line of a worker of the server, as for the client's. Each access goes from a page's start on.
fn do_server_line(loads: &mut Vec<Load>, workers: u8, line: &PageLine) -> bool {
    if let Side::Cw(_) = line.side {
        return true;
    }
    match &line.line {
        LogLine::Fetch { token, at, length } => {
            let number = token.number();
            line.side == Side::Sw(worker_of(number, workers))
                && *at == 0
                && access(loads, number, Right::Fetch, None, *length)
        }
        LogLine::Place {
            token,
            order,
            at,
            length,
        } => {
            let number = token.number();
            line.side == Side::Sw(worker_of(number, workers))
                && *at == 0
                && access(loads, number, Right::Place, Some(*order), *length)
        }
        _ => false,
    }
}

fn add_lines(rt: &impl Abort, loads: &mut Vec<Load>, workers: u8, lines: &[PageLine]) -> bool {
    for line in lines {
        if !do_client_line(rt, loads, workers, line) {
            return false;
        }
    }
    for line in lines {
        if !do_server_line(loads, workers, line) {
            return false;
        }
    }
    true
}

/// The loads that these lines tell, each with what was done with it, where the lines fit together.
pub fn loads_of(
    rt: &impl Abort,
    alloc: Global,
    workers: u8,
    lines: &[PageLine],
) -> Option<Vec<Load>> {
    let mut loads = Vec::new(alloc);
    if add_lines(rt, &mut loads, workers, lines) {
        Some(loads)
    } else {
        None
    }
}

/// Whether the descriptor of the request of this id names so many bytes from the start of a page that is loaded for it. The load is then
/// marked.
pub fn named_by(
    loads: &mut Vec<Load>,
    kind: CopyKind,
    id: u32,
    descriptor: &Descriptor,
    length: u32,
) -> bool {
    let right = match kind {
        CopyKind::Put => Right::Fetch,
        CopyKind::Get => Right::Place,
    };
    let start = u64::from(page_of(descriptor.token)).saturating_mul(4_096);
    match loads.iter_mut().find(|load| load.token == descriptor.token) {
        Some(load) => {
            let was_named = load.request != 0;
            load.request = id;
            !was_named
                && load.right == right
                && load.length == length
                && descriptor.length == length
                && descriptor.offset == start
        }
        None => false,
    }
}

/// Whether what was done with a load agrees with what both ends did: it was accessed after its request was delivered, and unloaded after
/// the reply was.
fn agrees(ends: &Ends, load: &Load) -> bool {
    let request = load.request as usize;
    if request == 0 {
        return load.accesses == 0 && !load.is_unloaded;
    }
    let is_delivered = request <= ends.server.delivered;
    let is_answered = request <= ends.client.delivered;
    (load.accesses == 0 || is_delivered) && load.accesses <= 1 && (!load.is_unloaded || is_answered)
}

/// The bytes that were accessed for the request of this id.
fn accessed_for(loads: &[Load], id: u32) -> u64 {
    let mut sum = 0u64;
    for load in loads {
        if load.request == id {
            sum = sum.saturating_add(load.accessed);
        }
    }
    sum
}

/// Whether a get has sent END, for which it needs the bytes of all its pages.
fn has_all(copied: &Copied<'_>, ends: &Ends) -> bool {
    copied.kind == CopyKind::Get && groups_of(copied) < ends.client.submitted.len()
}

/// The first load that doesn't agree with what both ends did, or answered request whose bytes were not all accessed.
pub fn flaw_of_loads(copied: &Copied<'_>, ends: &Ends, loads: &[Load]) -> Option<Flaw> {
    if !loads.iter().all(|load| agrees(ends, load)) {
        return Some(Flaw::Page);
    }
    if has_all(copied, ends) && !loads.iter().all(|load| load.is_unloaded) {
        return Some(Flaw::Page);
    }
    if loads.is_empty() {
        return None;
    }
    for number in 0..ends.server.submitted.len() {
        let id = id_of(number);
        if accessed_for(loads, id) != bytes_of_group(copied, number) as u64 {
            return Some(Flaw::Page);
        }
    }
    None
}

/// Whether the bytes of the request of this id came where the sink is: fetched from all its pages, or given back by all of them.
fn is_brought(copied: &Copied<'_>, loads: &[Load], number: usize) -> bool {
    let id = id_of(number);
    match copied.kind {
        CopyKind::Put => accessed_for(loads, id) == bytes_of_group(copied, number) as u64,
        CopyKind::Get => {
            let mut of_request = loads.iter().filter(|load| load.request == id);
            of_request.all(|load| load.is_unloaded)
        }
    }
}

/// How many groups, from the first one on, came where the sink is.
pub fn groups_brought(copied: &Copied<'_>, ends: &Ends, loads: &[Load]) -> usize {
    let delivered = match copied.kind {
        CopyKind::Put => ends.server.delivered,
        CopyKind::Get => ends.client.delivered,
    };
    if copied.channel == Channel::None {
        return delivered;
    }
    (0..delivered)
        .take_while(|number| is_brought(copied, loads, *number))
        .count()
}
