//! Pages together with their records.

ghost use Rattle.std.specs.Prelude.{◌≡◌, ◌<◌, length};

use crate::MEMORY;
use crate::calls::{is_held, register, release};
use buffer_descriptor::Descriptor;
use page_slots::{Access, PagePass};
use registration::{Region, Register, Release};
use smbd_base::{Right, Token};
use std::process::Abort;
use token_table::Issue;

/// What is answered, and the byte that was fetched.
fn fetch(region: &mut Region, pass: &mut PagePass, token: Token, at: u32) -> (Access, u8)
    requires among { token.page < length region.old.pages }
    requires within { at < 4096 }
    ensures { length region.new.pages ≡ length region.old.pages }
{
    let mut out = [0];
    let answer = region.fetch(pass, token, at, &mut out);
    (answer, out[0])
}

/// Places a byte at the page's start.
fn place(region: &mut Region, pass: &mut PagePass, token: Token, byte: u8) -> Access
    requires among { token.page < length region.old.pages }
    ensures { length region.new.pages ≡ length region.old.pages }
{
    region.place(pass, token, 0, &[byte])
}

fn retry_unload(
    region: &mut Region,
    pass: &mut PagePass,
    token: Token,
    out: &mut [u8; 4096],
) -> Access
    requires { token.page < length region.old.pages }
    ensures { length region.new.pages ≡ length region.old.pages }
{
    region.retry_unload(pass, token, out)
}

/// Registers page 1, uses it, and releases it.
fn register_and_release(rt: &impl Abort, region: &mut Region, pass: &mut PagePass)
    requires { 1 < length region.old.pages }
{
    const WHOLE: Descriptor = Descriptor {
        offset: 4096,
        token: 257,
        length: 4096,
    };
    let token = Token::new(1, 1);
    let mut out = [0; 4096];
    let bytes = [7; 4096];
    let registered = register(region, pass, 1, Right::Fetch, &bytes);
    assert!(rt; registered == Register::Registered(WHOLE));
    let again = register(region, pass, 1, Right::Place, b"a");
    assert!(rt; again == Register::Live(token));
    assert!(rt; is_held(region, token));
    assert!(rt; fetch(region, pass, token, 4095) == (Access::Done, 7));
    assert!(rt; place(region, pass, token, b'a') == Access::WrongRight);
    assert!(rt; release(region, pass, token, &mut out) == Release::Released);
    assert!(rt; release(region, pass, token, &mut out) == Release::Stale);
    let unknown = release(region, pass, Token::new(64, 1), &mut out);
    assert!(rt; unknown == Release::Unknown);
    assert!(rt; out == bytes);
}

#[test]
fn registers_and_releases(rt: HostRuntime) {
    let (mut region, mut passes) = Region::open(rt.alloc(), 64, 1, 1).expect(&rt, MEMORY);
    let mut pass = passes.take().expect(&rt, "no pass");
    register_and_release(&rt, &mut region, &mut pass);
}

/// Unloads page 0 with its record left, and loads it again.
fn mend(rt: &impl Abort, region: &mut Region, owner: &mut PagePass, peer: &mut PagePass)
    requires { 0 < length region.old.pages }
{
    let old = Token::new(0, 16_777_214);
    let last = Token::new(0, 16_777_215);
    let mut out = [0; 4096];
    register(region, owner, 0, Right::Fetch, b"old");
    assert!(rt; retry_unload(region, owner, old, &mut out) == Access::Done);
    let unissued = Register::Unissued {
        token: last,
        issue: Issue::Present(old),
    };
    let loaded = register(region, owner, 0, Right::Place, b"new");
    assert!(rt; loaded == unissued);
    region.meet(owner, peer);
    let withdrawn = release(region, peer, old, &mut out);
    assert!(rt; withdrawn == Release::Withdrawn(Access::Stale));
    assert!(rt; region.retry_issue(last, Right::Place, 3) == Issue::Done);
    assert!(rt; release(region, peer, last, &mut out) == Release::Released);
    let spent = register(region, owner, 0, Right::Fetch, b"none");
    assert!(rt; spent == Register::Spent);
}

#[test]
fn mends_a_page_whose_record_was_left(rt: HostRuntime) {
    let (mut region, mut passes) = Region::open(rt.alloc(), 16, 16_777_214, 2).expect(&rt, MEMORY);
    let mut owner = passes.take().expect(&rt, "no pass");
    let mut peer = passes.take().expect(&rt, "one pass");
    mend(&rt, &mut region, &mut owner, &mut peer);
}
