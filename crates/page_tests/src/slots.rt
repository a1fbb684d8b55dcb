//! Pages that are loaded, used and unloaded.

ghost use Rattle.std.specs.Prelude.{◌≡◌, ◌<◌, length};

use crate::MEMORY;
use crate::calls::{fetch, load, page_of, place, unload};
use page_slots::{Access, Load, PagePass, Pages};
use smbd_base::{Right, Token};
use std::process::Abort;

/// Loads page 7 with its last two generations.
fn end_page(rt: &impl Abort, pages: &mut Pages, pass: &mut PagePass)
    requires { 7 < length pages.old }
{
    let mut out = [0; 4096];
    let first = Token::new(7, 16_777_214);
    let last = Token::new(7, 16_777_215);
    assert_eq!(rt;
        (first.number(), last.number()),
        (4_294_966_784 + 7, 4_294_967_040 + 7)
    );
    assert!(rt; load(pages, pass, 7, Right::Fetch, b"abc") == Load::Loaded(first));
    assert!(rt; unload(pages, pass, first, &mut out) == Access::Done);
    assert!(rt; load(pages, pass, 7, Right::Fetch, b"abc") == Load::Loaded(last));
    assert!(rt; unload(pages, pass, first, &mut out) == Access::Stale);
    assert!(rt; unload(pages, pass, last, &mut out) == Access::Done);
    assert!(rt; load(pages, pass, 7, Right::Fetch, b"abc") == Load::Spent);
}

#[test]
fn ends_with_the_last_generation(rt: HostRuntime) {
    let (mut pages, mut passes) = Pages::open(rt.alloc(), 64, 16_777_214, 1).expect(&rt, MEMORY);
    let mut pass = passes.take().expect(&rt, "no pass");
    end_page(&rt, &mut pages, &mut pass);
}

/// The peer places a byte into page 5 of the owner.
fn place_by_peer(rt: &impl Abort, pages: &mut Pages, owner: &mut PagePass, peer: &mut PagePass)
    requires { 5 < length pages.old }
{
    let token = Token::new(5, 1);
    let mut out = [1; 4096];
    assert!(rt; load(pages, owner, 5, Right::Place, b"abc") == Load::Loaded(token));
    assert!(rt; load(pages, owner, 5, Right::Fetch, b"d") == Load::Live(token));
    assert!(rt; fetch(pages, peer, token, 0) == (Access::WrongRight, [0; 3]));
    assert!(rt; place(pages, peer, Token::new(5, 2), 1, b'x') == Access::Stale);
    assert!(rt; place(pages, peer, token, 1, b'x') == Access::Done);
    pages.meet(owner, peer);
    assert!(rt; unload(pages, owner, token, &mut out) == Access::Done);
    assert!(rt; out == page_of(b"axc\0", 0));
    assert!(rt; place(pages, peer, token, 1, b'x') == Access::Stale);
}

#[test]
fn gives_back_what_was_placed(rt: HostRuntime) {
    let (mut pages, mut passes) = Pages::open(rt.alloc(), 16, 1, 2).expect(&rt, MEMORY);
    let mut owner = passes.take().expect(&rt, "no pass");
    let mut peer = passes.take().expect(&rt, "one pass");
    assert_eq!(rt; (owner.number(), peer.number()), (0, 1));
    assert!(rt; passes.take().is_none());
    place_by_peer(&rt, &mut pages, &mut owner, &mut peer);
}

/// Loads page 0 with 4,096 bytes, and then with two.
fn load_twice(rt: &impl Abort, pages: &mut Pages, pass: &mut PagePass)
    requires { 0 < length pages.old }
{
    let mut out = [0; 4096];
    let (first, second) = (Token::new(0, 1), Token::new(0, 2));
    assert!(rt; load(pages, pass, 0, Right::Fetch, &[255; 4096]) == Load::Loaded(first));
    assert!(rt; unload(pages, pass, first, &mut out) == Access::Done);
    assert!(rt; out == [255; 4096]);
    assert!(rt; load(pages, pass, 0, Right::Fetch, b"ab") == Load::Loaded(second));
    assert!(rt; fetch(pages, pass, second, 1) == (Access::Done, *b"b\0\0"));
}

#[test]
fn forgets_the_bytes_of_an_earlier_load(rt: HostRuntime) {
    let (mut pages, mut passes) = Pages::open(rt.alloc(), 16, 1, 1).expect(&rt, MEMORY);
    let mut pass = passes.take().expect(&rt, "no pass");
    load_twice(&rt, &mut pages, &mut pass);
}

/// Places a byte so many times, each of which is done.
fn wear(rt: &impl Abort, pages: &mut Pages, pass: &mut PagePass, token: Token, times: u32)
    requires { token.page < length pages.old }
    ensures { length pages.new ≡ length pages.old }
{
    for _ in 0..times {
        assert!(rt; place(pages, pass, token, 4095, b'x') == Access::Done);
    }
}

/// Places into page 254 as often as its token allows.
fn wear_out(rt: &impl Abort, pages: &mut Pages, pass: &mut PagePass)
    requires { 254 < length pages.old }
{
    let (token, next) = (Token::new(254, 1), Token::new(254, 2));
    let mut out = [0; 4096];
    assert!(rt; load(pages, pass, 254, Right::Place, b"a") == Load::Loaded(token));
    wear(rt, pages, pass, token, 65_535);
    assert!(rt; place(pages, pass, token, 0, b'x') == Access::Worn);
    assert!(rt; unload(pages, pass, token, &mut out) == Access::Done);
    assert!(rt; load(pages, pass, 254, Right::Place, b"a") == Load::Loaded(next));
}

#[test]
fn wears_out_after_65535_places(rt: HostRuntime) {
    let (mut pages, mut passes) = Pages::open(rt.alloc(), 255, 1, 32).expect(&rt, MEMORY);
    let mut pass = passes.take().expect(&rt, "no pass");
    wear_out(&rt, &mut pages, &mut pass);
}
