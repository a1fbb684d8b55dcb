//! Descriptors at the bounds of their fields.

ghost use Rattle.std.specs.Prelude.{◌≡◌};

use crate::MEMORY;
use buffer_descriptor::{
    Descriptor, DescriptorFault, Descriptors, ListFault, covers, disjoint, read, read_list, write,
};

const WHOLE_PAGE: [u8; 16] = [0, 16, 0, 0, 0, 0, 0, 0, 1, 1, 0, 0, 0, 16, 0, 0];

/// 2^64 - 1, and 2^64 - 2^32.
const TOP: u64 = 0xffff_ffff_ffff_ffff;

const HIGH: u64 = 0xffff_ffff_0000_0000;
/// 2^32 - 1.
const MOST: u32 = 0xffff_ffff;

fn of(offset: u64, length: u32) -> Descriptor
    ensures { result ≡ record { offset = offset; token = 257; length = length } }
{
    Descriptor {
        offset,
        token: 257,
        length,
    }
}

#[test]
fn reads_and_writes_a_whole_page(rt: HostRuntime) {
    let whole = of(4096, 4096);
    assert_eq!(rt; read(&WHOLE_PAGE), Ok(whole));
    assert_eq!(rt; read(&WHOLE_PAGE[..15]), Err(DescriptorFault::Short));
    let mut written = [0; 16];
    write(&whole, &mut written);
    assert_eq!(rt; written, WHOLE_PAGE);
}

#[test]
fn refuses_at_the_bounds(rt: HostRuntime) {
    use DescriptorFault::{Wraps, Zero};
    const CASES: &[(u64, u32, Option<DescriptorFault>)] = &[
        (4096, 0, Some(Zero)),
        (TOP, 0, Some(Zero)),
        (TOP, 1, Some(Wraps)),
        (TOP, MOST, Some(Wraps)),
        (TOP - 1, 1, None),
        (TOP - 1, 2, Some(Wraps)),
        (HIGH, MOST, None),
        (HIGH + 1, MOST, Some(Wraps)),
        (0, MOST, None),
    ];
    for &(offset, length, fault) in CASES {
        let mut bytes = [0; 16];
        write(&of(offset, length), &mut bytes);
        assert_eq!(rt; read(&bytes).err(), fault, "{length} at {offset}");
    }
}

#[test]
fn reads_lists(rt: HostRuntime) {
    // a whole page twice, and 8 bytes more
    const BYTES: &[u8; 40] =
        b"\x00\x10\x00\x00\x00\x00\x00\x00\x01\x01\x00\x00\x00\x10\x00\x00\x00\x10\x00\x00\x00\x00\x00\x00\x01\x01\x00\x00\x00\x10\x00\x00\x00\x00\x00\x00\x00\x00\x00\x00";
    let both = read_list(rt.alloc(), BYTES, 2).expect(&rt, MEMORY);
    assert!(rt; both.list() == [of(4096, 4096), of(4096, 4096)].as_slice());
    assert!(rt; !disjoint(&both));
    let short = ListFault::At {
        place: 2,
        fault: DescriptorFault::Short,
    };
    assert!(rt; read_list(rt.alloc(), BYTES, 4).err() == Some(short));
}

#[test]
fn finds_places_in_two_descriptors(rt: HostRuntime) {
    const CASES: &[((u64, u32), (u64, u32), (u64, u32), bool)] = &[
        ((0, 10), (10, 5), (20, 1), true),
        ((20, 1), (0, 10), (10, 5), true),
        ((0, 10), (9, 5), (20, 1), false),
        ((20, 1), (0, 10), (3, 18), false),
        ((5, 0), (0, 10), (10, 5), true),
        ((TOP, MOST), (TOP, 0), (0, 1), true),
        ((TOP, MOST), (TOP, 1), (0, 1), false),
    ];
    for &(first, second, third, apart) in CASES {
        let list = [
            of(first.0, first.1),
            of(second.0, second.1),
            of(third.0, third.1),
        ];
        let copied = Descriptors::copy_of(rt.alloc(), &list).expect(&rt, MEMORY);
        assert!(rt; disjoint(&copied) == apart, "at {list:?}");
    }
}

#[test]
fn covers_the_same_interval_and_no_byte_more(rt: HostRuntime) {
    const CASES: &[(u64, u32, bool)] = &[
        (4096, 4096, true),
        (8191, 1, true),
        (4097, 4096, false),
        (4095, 1, false),
        (8192, 1, false),
        (0, MOST, false),
        (4096, MOST, false),
        (HIGH, MOST, false),
    ];
    for &(offset, length, covered) in CASES {
        assert!(rt; offset <= 0xffff_ffff_0000_0000);
        assert!(rt; 0 < length);
        assert_eq!(rt;
            covers(4096, 4096, &of(offset, length)),
            covered,
            "{length} at {offset}"
        );
    }
}
