//! The calls that tests make, of which they are told no more than that pages stay as many: each further clause of a call would
//! make the proof of all that comes after it dearer.

ghost use Rattle.std.specs.Prelude.{◌≡◌, ◌+◌, ◌<◌, ◌≤◌, length};
ghost use Rattle.buffer_descriptor.specs.Descriptors.{IsSound};

use buffer_descriptor::Descriptor;
use page_slots::{Access, Load, PagePass, Pages};
use registration::{Region, Register, Release};
use remote_access::Remote;
use smbd_base::{Right, Token};
use token_table::Claimed;

pub(crate) fn load(
    pages: &mut Pages,
    pass: &mut PagePass,
    page: u8,
    right: Right,
    bytes: &[u8],
) -> Load
    requires among { page < length pages.old }
    requires some { 1 ≤ length bytes.now }
    requires fits { length bytes.now ≤ 4096 }
    ensures { length pages.new ≡ length pages.old }
{
    pages.load(pass, page, right, bytes)
}

/// What is answered, and the bytes that were fetched.
pub(crate) fn fetch(
    pages: &mut Pages,
    pass: &mut PagePass,
    token: Token,
    at: u32,
) -> (Access, [u8; 3])
    requires among { token.page < length pages.old }
    requires within { at + 3 ≤ 4096 }
    ensures { length pages.new ≡ length pages.old }
{
    let mut out = [0; 3];
    let answer = pages.fetch(pass, token, at, &mut out);
    (answer, out)
}

pub(crate) fn place(
    pages: &mut Pages,
    pass: &mut PagePass,
    token: Token,
    at: u32,
    byte: u8,
) -> Access
    requires among { token.page < length pages.old }
    requires within { at < 4096 }
    ensures { length pages.new ≡ length pages.old }
{
    pages.place(pass, token, at, &[byte])
}

pub(crate) fn unload(
    pages: &mut Pages,
    pass: &mut PagePass,
    token: Token,
    out: &mut [u8; 4096],
) -> Access
    requires among { token.page < length pages.old }
    ensures { length pages.new ≡ length pages.old }
{
    pages.unload(pass, token, out)
}

pub(crate) fn register(
    region: &mut Region,
    pass: &mut PagePass,
    page: u8,
    right: Right,
    bytes: &[u8],
) -> Register
    requires among { page < length region.old.pages }
    requires some { 1 ≤ length bytes.now }
    requires fits { length bytes.now ≤ 4096 }
    ensures { length region.new.pages ≡ length region.old.pages }
{
    region.register(pass, page, right, bytes)
}

pub(crate) fn release(
    region: &mut Region,
    pass: &mut PagePass,
    token: Token,
    out: &mut [u8; 4096],
) -> Release
    ensures { length region.new.pages ≡ length region.old.pages }
{
    region.release(pass, token, out)
}

pub(crate) fn read_from(
    region: &mut Region,
    pass: &mut PagePass,
    descriptor: &Descriptor,
    out: &mut [u8],
) -> Remote
    requires sound { IsSound descriptor.now }
    requires size { length out.old ≡ descriptor.now.length }
    ensures { length region.new.pages ≡ length region.old.pages }
{
    remote_access::read_from(region, pass, descriptor, out)
}

/// Pages may be of another number after it, for what a proof sees.
pub(crate) fn write_to(
    region: &mut Region,
    pass: &mut PagePass,
    descriptor: &Descriptor,
    bytes: &[u8],
) -> Remote
    requires sound { IsSound descriptor.now }
    requires size { length bytes.now ≡ descriptor.now.length }
{
    remote_access::write_to(region, pass, descriptor, bytes)
}

/// Whether the record is held, which it is no longer after it.
pub(crate) fn is_held(region: &mut Region, token: Token) -> bool
    ensures { length region.new.pages ≡ length region.old.pages }
{
    match region.claim(token) {
        Claimed::Held(hold) => {
            region.leave(hold);
            true
        }
        Claimed::Unknown
        | Claimed::Stale
        | Claimed::Crowded
        | Claimed::Again { seen: _, found: _ } => false,
    }
}

/// A page of these four bytes and the same byte after them.
pub(crate) fn page_of(first: &[u8; 4], rest: u8) -> [u8; 4096] {
    let mut bytes = [rest; 4096];
    bytes[..4].copy_from_slice(first);
    bytes
}
