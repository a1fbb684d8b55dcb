//! Reads and writes by descriptor.

ghost use Rattle.std.specs.Prelude.{◌≡◌, ◌≢◌, ◌+◌, ◌<◌, ◌≤◌, length, IfOk, IfErr, OnErr};
ghost use Rattle.smbd_base.specs.declared.token.TheConstants.{PAGE_SIZE};
ghost use Rattle.smbd_base.specs.Tokens.{number_of};
ghost use Rattle.smbd_base.specs.Pages.{page_at};
ghost use Rattle.buffer_descriptor.specs.Descriptors.{IsSound, IsCovered};
ghost use Rattle.page_slots.specs.Answers.{fetch_answer, place_answer};
ghost use Rattle.token_table.specs.Records.{IsInPage};
ghost use Rattle.registration.specs.Regions.{IsAmong};
ghost use Rattle.remote_access.specs.Covers.{place_in_page, HoldsRecord, ReadsUnder, WritesUnder, Reads, Writes};
ghost use Rattle.remote_access.specs.Answers.{of_access, record_refusal, unless_refused, read_answer, write_answer, IsRefusal};

use buffer_descriptor::{Descriptor, covers};
use page_slots::{Access, PagePass};
use registration::Region;
use smbd_base::{Right, Token};
use token_table::{Claimed, Hold, Record};

/// What came of a remote access. The refusals stand in the order in which they are looked for; each leaves the pages,
/// the records and the caller's buffer as they were.
#[derive(Clone, Copy, Debug, PartialEq, Eq)]
pub enum Remote {
    Done,
    /// The token names no page of the region, or has generation 0.
    Unknown,
    /// The page has no record of this token, or isn't loaded under it.
    Stale,
    /// The record, or the page, gives the other right.
    WrongRight,
    /// The record doesn't cover the descriptor.
    Outside,
    /// The token has had its 65,535 places.
    Worn,
    /// The record has as many holds as can be counted.
    Crowded,
    /// Another thread has the page in hand.
    Busy,
    /// Others changed the record's place meanwhile: it was seen as one word, and found as another.
    Again { seen: u64, found: u64 },
}

/// What the page answered.
fn remote_of(access: Access) -> Remote
    ensures { result ≡ of_access access }
{
    match access {
        Access::Done => Remote::Done,
        Access::Stale => Remote::Stale,
        Access::WrongRight => Remote::WrongRight,
        Access::Worn => Remote::Worn,
        Access::Busy => Remote::Busy,
    }
}

/// Why a held record refuses the descriptor, if it does.
fn refusal(entry: &Record, right: Right, descriptor: &Descriptor) -> Option<Remote>
    requires page { entry.now.token.page < 256 }
    requires fits { IsInPage entry.now }
    requires sound { IsSound descriptor.now }
    ensures { result ≡ record_refusal entry.now right descriptor.now }
{
    if entry.right != right {
        return Some(Remote::WrongRight);
    }
    if !covers(entry.base, entry.length, descriptor) {
        return Some(Remote::Outside);
    }
    None
}

/// The place in the token's page that a descriptor's first byte has.
fn place_of(entry: &Record, descriptor: &Descriptor) -> u32
    requires fits { IsInPage entry.now }
    requires sound { IsSound descriptor.now }
    requires covered { IsCovered entry.now.base entry.now.length descriptor.now }
    ensures value { result ≡ place_in_page entry.now.token.page descriptor.now }
    ensures within { result + descriptor.now.length ≤ PAGE_SIZE }
{
    (descriptor.offset - entry.token.start()) as u32
}

/// Fetches under a held record.
fn fetch_under(
    region: &mut Region,
    pass: &mut PagePass,
    entry: &Record,
    descriptor: &Descriptor,
    out: &mut [u8],
) -> Remote
    requires page { entry.now.token.page < 256 }
    requires among { IsAmong entry.now.token.page region.old }
    requires fits { IsInPage entry.now }
    requires token { number_of entry.now.token ≡ descriptor.now.token }
    requires sound { IsSound descriptor.now }
    requires size { length out.old ≡ descriptor.now.length }
    ensures answer { result ≡ unless_refused (record_refusal entry.now Right.Fetch descriptor.now)
        (of_access (fetch_answer entry.now.token (page_at entry.now.token.page region.old.pages))) }
    ensures done { result ≡ Remote.Done → ReadsUnder entry.now descriptor.now out.new region.old.pages region.new.pages }
    ensures refused { result ≢ Remote.Done → out.new ≡ out.old }
    ensures same { region.new ≡ region.old }
    ensures pass { pass.new ≡ pass.old }
{
    if let Some(refused) = refusal(entry, Right::Fetch, descriptor) {
        return refused;
    }
    let at = place_of(entry, descriptor);
    remote_of(region.fetch(pass, entry.token, at, out))
}

/// Places under a held record.
fn place_under(
    region: &mut Region,
    pass: &mut PagePass,
    entry: &Record,
    descriptor: &Descriptor,
    bytes: &[u8],
) -> Remote
    requires page { entry.now.token.page < 256 }
    requires among { IsAmong entry.now.token.page region.old }
    requires fits { IsInPage entry.now }
    requires token { number_of entry.now.token ≡ descriptor.now.token }
    requires sound { IsSound descriptor.now }
    requires size { length bytes.now ≡ descriptor.now.length }
    ensures answer { result ≡ unless_refused (record_refusal entry.now Right.Place descriptor.now)
        (of_access (place_answer entry.now.token (page_at entry.now.token.page region.old.pages))) }
    ensures done { result ≡ Remote.Done → WritesUnder entry.now descriptor.now bytes.now region.old.pages region.new.pages }
    ensures refused { result ≢ Remote.Done → region.new ≡ region.old }
    ensures table { region.new.table ≡ region.old.table }
    ensures pass { pass.new ≡ pass.old }
{
    if let Some(refused) = refusal(entry, Right::Place, descriptor) {
        return refused;
    }
    let at = place_of(entry, descriptor);
    remote_of(region.place(pass, entry.token, at, bytes))
}

/// The hold of the record that a descriptor's token names, or why there is none.
fn held(region: &mut Region, descriptor: &Descriptor) -> Result<Hold, Remote>
    ensures held { IfOk result (λ entry. HoldsRecord descriptor.now entry region.old.table region.new.table) }
    ensures refused { IfErr result (λ remote. IsRefusal descriptor.now region.old remote) }
    ensures same { OnErr result (region.new ≡ region.old) }
    ensures pages { region.new.pages ≡ region.old.pages }
    ensures among { IfOk result (λ entry. IsAmong entry.token.page region.new) }
{
    let Some(token) = Token::from_number(descriptor.token) else {
        return Err(Remote::Unknown);
    };
    match region.claim(token) {
        Claimed::Held(hold) => Ok(hold),
        Claimed::Unknown => Err(Remote::Unknown),
        Claimed::Stale => Err(Remote::Stale),
        Claimed::Crowded => Err(Remote::Crowded),
        Claimed::Again { seen, found } => Err(Remote::Again { seen, found }),
    }
}

/// Reads the descriptor's bytes out of a registered page.
pub fn read_from(
    region: &mut Region,
    pass: &mut PagePass,
    descriptor: &Descriptor,
    out: &mut [u8],
) -> Remote
    requires sound { IsSound descriptor.now }
    requires size { length out.old ≡ descriptor.now.length }
    ensures answer { result ≡ read_answer descriptor.now region.old }
    ensures done { result ≡ Remote.Done → Reads descriptor.now out.new region.old region.new }
    ensures refused { result ≢ Remote.Done → out.new ≡ out.old }
    ensures same { region.new ≡ region.old }
    ensures pass { pass.new ≡ pass.old }
{
    let hold = match held(region, descriptor) {
        Ok(hold) => hold,
        Err(refused) => return refused,
    };
    let remote = fetch_under(region, pass, hold.shown(), descriptor, out);
    region.leave(hold);
    remote
}

/// Writes bytes into the descriptor's place of a registered page.
pub fn write_to(
    region: &mut Region,
    pass: &mut PagePass,
    descriptor: &Descriptor,
    bytes: &[u8],
) -> Remote
    requires sound { IsSound descriptor.now }
    requires size { length bytes.now ≡ descriptor.now.length }
    ensures answer { result ≡ write_answer descriptor.now region.old }
    ensures done { result ≡ Remote.Done → Writes descriptor.now bytes.now region.old region.new }
    ensures refused { result ≢ Remote.Done → region.new ≡ region.old }
    ensures table { region.new.table ≡ region.old.table }
    ensures pass { pass.new ≡ pass.old }
{
    let hold = match held(region, descriptor) {
        Ok(hold) => hold,
        Err(refused) => return refused,
    };
    let remote = place_under(region, pass, hold.shown(), descriptor, bytes);
    region.leave(hold);
    remote
}
