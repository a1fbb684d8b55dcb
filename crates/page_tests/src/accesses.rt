//! Remote accesses: done, and each refusal, with tokens that are stale, worn or spent.

ghost use Rattle.std.specs.Prelude.{◌<◌, ◌≤◌, length};
ghost use Rattle.buffer_descriptor.specs.Descriptors.{IsSound};

use crate::MEMORY;
use crate::calls::{page_of, read_from, register, release, write_to};
use buffer_descriptor::Descriptor;
use page_slots::PagePass;
use registration::{Region, Register, Release};
use remote_access::Remote;
use smbd_base::{Right, Token};
use std::alloc::Global;
use std::process::Abort;

const WHOLE: Descriptor = Descriptor {
    offset: 4096,
    token: 257,
    length: 4096,
};

/// The descriptor of these fields, as it is read of its 16 bytes.
fn sent(rt: &impl Abort, offset: u64, token: u32, length: u32) -> Descriptor
    ensures { IsSound result }
{
    let fields = Descriptor {
        offset,
        token,
        length,
    };
    let mut bytes = [0; 16];
    buffer_descriptor::write(&fields, &mut bytes);
    buffer_descriptor::read(&bytes)
        .ok()
        .expect(rt, "a sound descriptor")
}

/// Reads a whole page of 4,096 bytes through each descriptor, and is refused.
fn refuses_each(rt: &impl Abort, region: &mut Region, pass: &mut PagePass, out: &mut [u8; 4096]) {
    const CASES: &[(u64, u32, Remote)] = &[
        (4097, 257, Remote::Outside),
        (0, 257, Remote::Outside),
        (4095, 257, Remote::Outside),
        (0xffff_ffff, 257, Remote::Outside),
        (4096, 256 + 200, Remote::Unknown),
        (4096, 256 + 64, Remote::Unknown),
        (4096, 1, Remote::Unknown),
        (4096, 0, Remote::Unknown),
        (4096, 256 + 63, Remote::Stale),
        (4096, 512 + 1, Remote::Stale),
        (4096, 0xffff_ff01, Remote::Stale),
    ];
    for &(offset, token, remote) in CASES {
        let descriptor = sent(rt, offset, token, 4096);
        assert!(rt; descriptor.length == 4096);
        assert!(rt;
            read_from(region, pass, &descriptor, out) == remote,
            "at {descriptor:?}"
        );
    }
}

/// The peer reads page 1 of the owner, and no more than it.
fn read_whole(rt: &impl Abort, region: &mut Region, owner: &mut PagePass, peer: &mut PagePass)
    requires { 1 < length region.old.pages }
{
    let mut out = [0; 4096];
    let bytes = [9; 4096];
    let registered = register(region, owner, 1, Right::Fetch, &bytes);
    assert!(rt; registered == Register::Registered(WHOLE));
    assert!(rt; read_from(region, peer, &WHOLE, &mut out) == Remote::Done);
    assert!(rt; out == bytes);
    assert!(rt; write_to(region, peer, &WHOLE, &bytes) == Remote::WrongRight);
    refuses_each(rt, region, peer, &mut out);
    let released = release(region, owner, Token::new(1, 1), &mut out);
    assert!(rt; released == Release::Released);
    assert!(rt; read_from(region, peer, &WHOLE, &mut out) == Remote::Stale);
}

#[test]
fn reads_only_what_a_record_covers(rt: HostRuntime) {
    let (mut region, mut passes) = Region::open(rt.alloc(), 64, 1, 2).expect(&rt, MEMORY);
    let mut owner = passes.take().expect(&rt, "no pass");
    let mut peer = passes.take().expect(&rt, "one pass");
    read_whole(&rt, &mut region, &mut owner, &mut peer);
}

/// Writes into the middle of page 2.
fn write_part(rt: &impl Abort, region: &mut Region, pass: &mut PagePass)
    requires { 2 < length region.old.pages }
{
    const INSIDE: Descriptor = Descriptor {
        offset: 8194,
        token: 3 * 256 + 2,
        length: 3,
    };
    const PAST: Descriptor = Descriptor {
        offset: 8196,
        token: 3 * 256 + 2,
        length: 3,
    };
    let mut out = [0; 4096];
    let mut three = [0; 3];
    register(region, pass, 2, Right::Place, b"abcdef");
    assert!(rt; write_to(region, pass, &INSIDE, b"xyz") == Remote::Done);
    assert!(rt; write_to(region, pass, &PAST, b"xyz") == Remote::Outside);
    assert!(rt; read_from(region, pass, &INSIDE, &mut three) == Remote::WrongRight);
    let released = release(region, pass, Token::new(2, 3), &mut out);
    assert!(rt; released == Release::Released);
    assert!(rt; out.starts_with(b"abxyzf\0"));
}

#[test]
fn writes_into_a_part_of_a_page(rt: HostRuntime) {
    let (mut region, mut passes) = Region::open(rt.alloc(), 16, 3, 1).expect(&rt, MEMORY);
    let mut pass = passes.take().expect(&rt, "no pass");
    write_part(&rt, &mut region, &mut pass);
}

/// The `d` of page 1 in its first load.
const LAST_BYTE: Descriptor = Descriptor {
    offset: 4099,
    token: 257,
    length: 1,
};

/// What was done with page 1 before the call.
#[derive(Clone, Copy)]
enum Before {
    /// It was registered with `abcd`, as in each of these.
    Live,
    /// It was released.
    Gone,
    /// It was released, and registered again.
    Anew,
    /// An `x` was written over the `d`, so many times.
    Written(u32),
    /// It was registered with the last generation.
    Last,
    /// It was registered with the last generation, and released.
    Spent,
}

/// A call with a descriptor of these fields: offset, token, length.
#[derive(Clone, Copy)]
enum Call {
    Reads(u64, u32, u32),
    /// Each byte that is written is a `w`.
    Writes(u64, u32, u32),
}

/// What came of the call. All but the first leaves the buffer, and all but the second the page.
#[derive(Clone, Copy)]
enum Outcome {
    /// It was done, and the buffer begins with these bytes.
    Copied(&'static [u8; 4]),
    /// It was done, and the page begins with these bytes.
    Placed(&'static [u8; 4]),
    /// It was answered so.
    Refused(Remote),
}

/// The token of a page that was registered.
fn token_of(answer: Register) -> Option<Token> {
    match answer {
        Register::Registered(descriptor) => Token::from_number(descriptor.token),
        _ => None,
    }
}

/// Does with page 1, which was registered under this token, what comes before the call, and gives the token of its last
/// registration.
fn prepare(
    rt: &impl Abort,
    region: &mut Region,
    owner: &mut PagePass,
    right: Right,
    before: Before,
    token: Token,
) -> Token
    requires { 1 < length region.old.pages }
{
    let mut out = [0; 4096];
    match before {
        Before::Live | Before::Last => {}
        Before::Gone => {
            assert!(rt; release(region, owner, token, &mut out) == Release::Released);
        }
        Before::Anew => {
            assert!(rt; release(region, owner, token, &mut out) == Release::Released);
            return token_of(register(region, owner, 1, right, b"abcd")).expect(rt, "no record");
        }
        Before::Written(times) => {
            for _ in 0..times {
                assert!(rt; write_to(region, owner, &LAST_BYTE, b"x") == Remote::Done);
            }
        }
        Before::Spent => {
            assert!(rt; release(region, owner, token, &mut out) == Release::Released);
            assert!(rt; register(region, owner, 1, right, b"e") == Register::Spent);
        }
    }
    token
}

/// Does the call, of no more than a page.
fn ask(
    region: &mut Region,
    pass: &mut PagePass,
    call: Call,
    descriptor: &Descriptor,
    out: &mut [u8; 4096],
) -> Remote
    requires sound { IsSound descriptor.now }
    requires fits { descriptor.now.length ≤ 4096 }
{
    let size = descriptor.length as usize;
    match call {
        Call::Reads(_, _, _) => read_from(region, pass, descriptor, &mut out[..size]),
        Call::Writes(_, _, _) => write_to(region, pass, descriptor, &[b'w'; 4096][..size]),
    }
}

/// Does the call in a region of 16 pages, and looks at what comes of it, and at the page and the buffer after it.
fn follow(
    rt: &impl Abort,
    alloc: Global,
    right: Right,
    before: Before,
    call: Call,
    outcome: Outcome,
) {
    let first = match before {
        Before::Last | Before::Spent => 16_777_215,
        Before::Live | Before::Gone | Before::Anew | Before::Written(_) => 1,
    };
    let same = match before {
        Before::Live | Before::Last | Before::Anew => Some(b"abcd"),
        Before::Written(_) => Some(b"abcx"),
        Before::Gone | Before::Spent => None,
    };
    let (answer, copied, page) = match outcome {
        Outcome::Copied(bytes) => (Remote::Done, bytes, same),
        Outcome::Placed(bytes) => (Remote::Done, b"....", Some(bytes)),
        Outcome::Refused(remote) => (remote, b"....", same),
    };
    let (Call::Reads(offset, token, length) | Call::Writes(offset, token, length)) = call;
    let descriptor = sent(rt, offset, token, length);
    assert!(rt; descriptor.length <= 4096);
    let (mut region, mut passes) = Region::open(alloc, 16, first, 2).expect(rt, MEMORY);
    let mut owner = passes.take().expect(rt, "no pass");
    let mut peer = passes.take().expect(rt, "one pass");
    let token = token_of(register(&mut region, &mut owner, 1, right, b"abcd")).expect(
        rt,
        "no record",
    );
    let token = prepare(rt, &mut region, &mut owner, right, before, token);
    let mut out = [b'.'; 4096];
    let answered = ask(&mut region, &mut peer, call, &descriptor, &mut out);
    assert_eq!(rt; answered, answer, "{descriptor:?}");
    assert!(rt; out == page_of(copied, b'.'), "{descriptor:?}");
    let released = release(&mut region, &mut owner, token, &mut out);
    match page {
        None => assert!(rt; released == Release::Stale, "{descriptor:?}"),
        Some(bytes) => {
            assert!(rt; released == Release::Released, "{descriptor:?}");
            assert!(rt; out == page_of(bytes, 0), "{descriptor:?}");
        }
    }
}

#[test]
fn answers_at_the_bounds_of_the_numbers(rt: HostRuntime) {
    use Before::{Anew, Gone, Last, Live, Spent, Written};
    use Call::{Reads, Writes};
    use Outcome::{Copied, Placed, Refused};
    use Remote::{Outside, Stale, Unknown, Worn, WrongRight};
    use Right::{Fetch, Place};
    /// 2^64 - 1.
    const TOP: u64 = 0xffff_ffff_ffff_ffff;
    /// 2^32 - 1.
    const MOST: u32 = 0xffff_ffff;
    /// The token of page 1 in its last generation.
    const FINAL: u32 = 0xffff_ff01;
    const CASES: &[(Right, Before, Call, Outcome)] = &[
        // the record's own bytes, and one byte more on each side
        (Fetch, Live, Reads(4096, 257, 4), Copied(b"abcd")),
        (Fetch, Live, Reads(4099, 257, 1), Copied(b"d...")),
        (Fetch, Live, Reads(4095, 257, 4), Refused(Outside)),
        (Fetch, Live, Reads(4097, 257, 4), Refused(Outside)),
        (Fetch, Live, Reads(4096, 257, 4096), Refused(Outside)),
        (Place, Live, Writes(4097, 257, 2), Placed(b"awwd")),
        (Place, Live, Writes(4095, 257, 4), Refused(Outside)),
        (Place, Live, Writes(4097, 257, 4), Refused(Outside)),
        (Place, Live, Reads(4096, 257, 4), Refused(WrongRight)),
        (Fetch, Live, Writes(4096, 257, 4), Refused(WrongRight)),
        // an offset that is in the record but for its bit 32
        (Fetch, Live, Reads(0x1_0000_1000, 257, 4), Refused(Outside)),
        (Place, Live, Writes(0x1_0000_1000, 257, 4), Refused(Outside)),
        // the highest offsets
        (Fetch, Live, Reads(TOP - 1, 257, 1), Refused(Outside)),
        (Place, Live, Writes(TOP - 1, 257, 1), Refused(Outside)),
        (Place, Live, Reads(TOP - 1, 257, 1), Refused(WrongRight)),
        // tokens of another load of the page
        (Fetch, Gone, Reads(4096, 257, 4), Refused(Stale)),
        (Place, Gone, Writes(4096, 257, 4), Refused(Stale)),
        (Fetch, Anew, Reads(4096, 257, 4), Refused(Stale)),
        (Place, Anew, Writes(4096, 257, 4), Refused(Stale)),
        (Fetch, Anew, Reads(4096, 513, 4), Copied(b"abcd")),
        (Fetch, Live, Reads(4096, 513, 4), Refused(Stale)),
        (Fetch, Anew, Reads(TOP - 1, 257, 1), Refused(Stale)),
        // generation 0, and pages that the region has not
        (Fetch, Live, Reads(4096, 1, 4), Refused(Unknown)),
        (Place, Live, Writes(4096, 256 + 16, 4), Refused(Unknown)),
        (Fetch, Live, Reads(4096, MOST, 4), Refused(Unknown)),
        // worn tokens
        (
            Place,
            Written(65_534),
            Writes(4096, 257, 3),
            Placed(b"wwwx"),
        ),
        (Place, Written(65_535), Writes(4096, 257, 3), Refused(Worn)),
        (
            Place,
            Written(65_535),
            Writes(TOP - 1, 257, 1),
            Refused(Outside),
        ),
        (
            Place,
            Written(65_535),
            Reads(4096, 257, 4),
            Refused(WrongRight),
        ),
        // tokens of the last generation
        (Fetch, Last, Reads(4096, FINAL, 4), Copied(b"abcd")),
        (Place, Last, Writes(4096, FINAL, 4), Placed(b"wwww")),
        (Fetch, Last, Reads(4096, FINAL - 256, 4), Refused(Stale)),
        (Fetch, Spent, Reads(4096, FINAL, 4), Refused(Stale)),
        (Place, Spent, Writes(4096, FINAL, 4), Refused(Stale)),
        (Fetch, Spent, Reads(4096, 1, 4), Refused(Unknown)),
    ];
    for &(right, before, call, outcome) in CASES {
        follow(&rt, rt.alloc(), right, before, call, outcome);
    }
}
