//! Reads and writes by descriptor.

ghost use Rattle.std.specs.Prelude.{◌≡◌, ◌≢◌, ◌↔◌, ◌+◌, ◌<◌, ◌≤◌, length, IfOk, IfErr, IfSome, None};
ghost use Rattle.smbd_base.specs.declared.token.TheConstants.{PAGE_SIZE};
ghost use Rattle.smbd_base.specs.Tokens.{number_of};
ghost use Rattle.buffer_descriptor.specs.Descriptors.{IsSound, IsCovered};
ghost use Rattle.smbd_base.specs.declared.page_event.PageEvent.TheVariants as events;
ghost use Rattle.shared_pages.specs.Calls.{known_by, opening_of, IsOf, MayMake, Makes};
ghost use Rattle.shared_records.specs.Records.{IsInPage};
ghost use Rattle.shared_region.specs.Covers.{place_in_page, record_refusal};
ghost use Rattle.shared_region.specs.Accesses.{token_known, of_access, IsRefusal, HoldsRecord, ReadsUnder, WritesUnder, ReadsPage, WritesPage, Reads, Writes, WritesInOrder, ReadTells, WriteTells};

use crate::answers::{Remote, Written};
use crate::region::Region;
use buffer_descriptor::{Descriptor, covers};
use shared_pages::{Access, PagePass};
use shared_records::{Claimed, Hold, Record};
use smbd_base::{Right, Token};

/// What the page answered.
fn remote_of(access: Access) -> Remote
    ensures answer { result ≡ of_access access }
    ensures done { result ≡ Remote.Done → access ≡ Access.Done }
    ensures known { result ≢ Remote.Unknown }
{
    match access {
        Access::Done => Remote::Done,
        Access::Stale => Remote::Stale,
        Access::WrongRight => Remote::WrongRight,
        Access::Worn => Remote::Worn,
        Access::Busy => Remote::Busy,
    }
}

/// Why a held record refuses the descriptor, if it does.
fn refusal(entry: &Record, right: Right, descriptor: &Descriptor) -> Option<Remote>
    requires page { entry.now.token.page < 256 }
    requires fits { IsInPage entry.now }
    requires sound { IsSound descriptor.now }
    ensures answer { result ≡ record_refusal entry.now right descriptor.now }
    ensures refused { IfSome result (λ remote. (remote ≢ Remote.Done) × (remote ≢ Remote.Unknown)) }
{
    if entry.right != right {
        return Some(Remote::WrongRight);
    }
    if !covers(entry.base, entry.length, descriptor) {
        return Some(Remote::Outside);
    }
    None
}

/// The place in the token's page that a descriptor's first byte has.
fn place_of(entry: &Record, descriptor: &Descriptor) -> u32
    requires fits { IsInPage entry.now }
    requires sound { IsSound descriptor.now }
    requires covered { IsCovered entry.now.base entry.now.length descriptor.now }
    ensures value { result ≡ place_in_page entry.now.token.page descriptor.now }
    ensures within { result + descriptor.now.length ≤ PAGE_SIZE }
{
    (descriptor.offset - entry.token.start()) as u32
}

/// Fetches under a held record.
fn fetch_under(
    region: &Region,
    pass: &mut PagePass,
    entry: &Record,
    descriptor: &Descriptor,
    out: &mut [u8],
) -> Remote
    requires own { IsOf region.now.pages pass.old }
    requires page { entry.now.token.page < 256 }
    requires among { entry.now.token.page < (opening_of region.now.pages).pages }
    requires fits { IsInPage entry.now }
    requires token { number_of entry.now.token ≡ descriptor.now.token }
    requires sound { IsSound descriptor.now }
    requires size { length out.old ≡ descriptor.now.length }
    requires few { MayMake (known_by pass.old) }
    ensures own { IsOf region.now.pages pass.new }
    ensures few { length (known_by pass.new).made ≤ length (known_by pass.old).made + 1 }
    ensures tells { ReadsUnder (opening_of region.now.pages).first entry.now descriptor.now out.new (known_by pass.old) (known_by pass.new)
        (record_refusal entry.now Right.Fetch descriptor.now) result }
    ensures done { result ≡ Remote.Done → ReadsPage (opening_of region.now.pages).first entry.now descriptor.now out.new (known_by pass.old) (known_by pass.new) }
    ensures known { result ≢ Remote.Unknown }
    ensures same { result ≢ Remote.Done → out.new ≡ out.old }
{
    if let Some(refused) = refusal(entry, Right::Fetch, descriptor) {
        return refused;
    }
    let at = place_of(entry, descriptor);
    remote_of(region.fetch(pass, entry.token, at, out))
}

/// Nothing was written.
fn unwritten(refused: Remote) -> Written
    ensures { result ≡ record { answer = refused; order = 0 } }
{
    Written {
        answer: refused,
        order: 0,
    }
}

/// Places under a held record.
fn place_under(
    region: &Region,
    pass: &mut PagePass,
    entry: &Record,
    descriptor: &Descriptor,
    bytes: &[u8],
) -> Written
    requires own { IsOf region.now.pages pass.old }
    requires page { entry.now.token.page < 256 }
    requires among { entry.now.token.page < (opening_of region.now.pages).pages }
    requires fits { IsInPage entry.now }
    requires token { number_of entry.now.token ≡ descriptor.now.token }
    requires sound { IsSound descriptor.now }
    requires size { length bytes.now ≡ descriptor.now.length }
    requires few { MayMake (known_by pass.old) }
    ensures own { IsOf region.now.pages pass.new }
    ensures few { length (known_by pass.new).made ≤ length (known_by pass.old).made + 1 }
    ensures tells { WritesUnder (opening_of region.now.pages).first entry.now descriptor.now bytes.now (known_by pass.old) (known_by pass.new)
        (record_refusal entry.now Right.Place descriptor.now) result.answer }
    ensures done { result.answer ≡ Remote.Done → WritesPage (opening_of region.now.pages).first entry.now descriptor.now bytes.now (known_by pass.old) (known_by pass.new) }
    ensures order { result.answer ≡ Remote.Done → Makes (events.Place entry.now.token result.order (place_in_page entry.now.token.page descriptor.now) bytes.now) (known_by pass.old) (known_by pass.new) }
    ensures none { result.answer ≢ Remote.Done → result.order ≡ 0 }
    ensures known { result.answer ≢ Remote.Unknown }
{
    if let Some(refused) = refusal(entry, Right::Place, descriptor) {
        return unwritten(refused);
    }
    let at = place_of(entry, descriptor);
    let placed = region.place_in_order(pass, entry.token, at, bytes);
    Written {
        answer: remote_of(placed.answer),
        order: placed.order,
    }
}

/// The hold of the record that a descriptor's token names, or why there is none.
fn held<'a>(region: &'a Region, descriptor: &Descriptor) -> Result<Hold<'a>, Remote>
    ensures held { IfOk result (HoldsRecord (opening_of region.now.pages).pages region.now.table.name descriptor.now) }
    ensures refused { IfErr result (IsRefusal (token_known (opening_of region.now.pages).pages descriptor.now)) }
    ensures unknown { IfErr result (λ remote. (remote ≢ Remote.Done) × (remote ≡ Remote.Unknown ↔ (token_known (opening_of region.now.pages).pages descriptor.now ≡ None))) }
{
    let Some(token) = Token::from_number(descriptor.token) else {
        return Err(Remote::Unknown);
    };
    match region.claim(token) {
        Claimed::Held(hold) => Ok(hold),
        Claimed::Unknown => Err(Remote::Unknown),
        Claimed::Stale => Err(Remote::Stale),
        Claimed::Crowded => Err(Remote::Crowded),
        Claimed::Again { seen, found } => Err(Remote::Again { seen, found }),
    }
}

/// Reads the descriptor's bytes out of a registered page, while its record is held.
pub fn read_from(
    region: &Region,
    pass: &mut PagePass,
    descriptor: &Descriptor,
    out: &mut [u8],
) -> Remote
    requires own { IsOf region.now.pages pass.old }
    requires sound { IsSound descriptor.now }
    requires size { length out.old ≡ descriptor.now.length }
    requires few { MayMake (known_by pass.old) }
    ensures own { IsOf region.now.pages pass.new }
    ensures few { length (known_by pass.new).made ≤ length (known_by pass.old).made + 1 }
    ensures unknown { result ≡ Remote.Unknown ↔ (token_known (opening_of region.now.pages).pages descriptor.now ≡ None) }
    ensures done { result ≡ Remote.Done → Reads (opening_of region.now.pages).first (opening_of region.now.pages).pages descriptor.now out.new (known_by pass.old) (known_by pass.new) }
    ensures tells { ReadTells (opening_of region.now.pages).first (opening_of region.now.pages).pages descriptor.now out.new (known_by pass.old) (known_by pass.new) result }
    ensures same { result ≢ Remote.Done → out.new ≡ out.old }
{
    let hold = match held(region, descriptor) {
        Ok(hold) => hold,
        Err(refused) => return refused,
    };
    let remote = fetch_under(region, pass, hold.shown(), descriptor, out);
    region.leave(hold);
    remote
}

/// Writes bytes into the descriptor's place of a registered page, while its record is held.
pub fn write_to(
    region: &Region,
    pass: &mut PagePass,
    descriptor: &Descriptor,
    bytes: &[u8],
) -> Remote
    requires own { IsOf region.now.pages pass.old }
    requires sound { IsSound descriptor.now }
    requires size { length bytes.now ≡ descriptor.now.length }
    requires few { MayMake (known_by pass.old) }
    ensures own { IsOf region.now.pages pass.new }
    ensures few { length (known_by pass.new).made ≤ length (known_by pass.old).made + 1 }
    ensures unknown { result ≡ Remote.Unknown ↔ (token_known (opening_of region.now.pages).pages descriptor.now ≡ None) }
    ensures done { result ≡ Remote.Done → Writes (opening_of region.now.pages).first (opening_of region.now.pages).pages descriptor.now bytes.now (known_by pass.old) (known_by pass.new) }
    ensures tells { WriteTells (opening_of region.now.pages).first (opening_of region.now.pages).pages descriptor.now bytes.now (known_by pass.old) (known_by pass.new) result }
{
    write_in_order(region, pass, descriptor, bytes).answer
}

/// The same, and tells which order its place had under the descriptor's token.
pub fn write_in_order(
    region: &Region,
    pass: &mut PagePass,
    descriptor: &Descriptor,
    bytes: &[u8],
) -> Written
    requires own { IsOf region.now.pages pass.old }
    requires sound { IsSound descriptor.now }
    requires size { length bytes.now ≡ descriptor.now.length }
    requires few { MayMake (known_by pass.old) }
    ensures own { IsOf region.now.pages pass.new }
    ensures few { length (known_by pass.new).made ≤ length (known_by pass.old).made + 1 }
    ensures unknown { result.answer ≡ Remote.Unknown ↔ (token_known (opening_of region.now.pages).pages descriptor.now ≡ None) }
    ensures done { result.answer ≡ Remote.Done → Writes (opening_of region.now.pages).first (opening_of region.now.pages).pages descriptor.now bytes.now (known_by pass.old) (known_by pass.new) }
    ensures tells { WriteTells (opening_of region.now.pages).first (opening_of region.now.pages).pages descriptor.now bytes.now (known_by pass.old) (known_by pass.new) result.answer }
    ensures order { result.answer ≡ Remote.Done → WritesInOrder (opening_of region.now.pages).pages result.order descriptor.now bytes.now (known_by pass.old) (known_by pass.new) }
    ensures none { result.answer ≢ Remote.Done → result.order ≡ 0 }
{
    let hold = match held(region, descriptor) {
        Ok(hold) => hold,
        Err(refused) => return unwritten(refused),
    };
    let written = place_under(region, pass, hold.shown(), descriptor, bytes);
    region.leave(hold);
    written
}
