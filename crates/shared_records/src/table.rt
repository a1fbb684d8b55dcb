//! The table of records.

ghost use Rattle.std.specs.Prelude.{◌≡◌, ◌≢◌, ◌↔◌, ◌<◌, ◌≤◌, ℕ, IfOk};
ghost use Rattle.shared_records.specs.Records.{FitsPage, IsInPage};
ghost use Rattle.shared_records.specs.Calls.{IssueTells, IfHeld, IsHoldOf, ClaimTells, IfWithdrawn, IsTaken, WithdrawTells};

use crate::answers::{Claimed, Issue, Withdraw};
use crate::hold::Hold;
use crate::place::{Alone, Place, nothing};
use crate::record::Record;
use crate::word::{Shown, listed, once_more, read, taken};
use atomic_table::Table;
use counted_slot::{Counted, FREE, MOST_READERS};
use smbd_base::{NoMemory, Token};
use std::alloc::Global;
use std::marker::Model;

/// The records of the pages of a pool, which threads share. Contracts see how many pages there are, and the name of the table.
#[derive(Drop)]
pub struct TokenTable {
    slots: Vec<Counted<Record>>,
    name: Table<u8, u8, u8, Alone, Global>,
}

impl Model for TokenTable {
    ghost use Rattle.std.specs.Prelude.{length};
    ghost use Rattle.shared_records.specs.Records.{TableView};
    ghost use Rattle.shared_records.specs.Places.{ArePlaces};

    ghost Value = { TableView };

    ghost view = { λ t. record { count = length t.slots.items; name = t.name.shared.table_id } };

    ghost invariant = { λ t. ArePlaces t.name.shared.table_id t.slots.items };
}

/// Brings a record into a place whose word was seen.
fn issue_at(slot: &Counted<Record>, seen: u64, entry: Record) -> Issue
    requires { FitsPage slot.now.page entry }
    ensures { IssueTells seen entry.token result }
{
    match read(seen) {
        Shown::Nothing => {}
        Shown::Writer => return Issue::Busy,
        Shown::Listed {
            generation,
            holds: _,
        } => return Issue::Present(Token::new(entry.token.page(), generation)),
    }
    let (found, claim) = slot.turn(seen, taken(seen));
    if found != seen {
        claim.done();
        return Issue::Again { seen, found };
    }
    claim.put(entry, listed(entry.token.generation()));
    Issue::Done
}

/// Holds the token's record in a place whose word was seen.
fn claim_at<'a>(slot: &'a Counted<Record>, seen: u64, token: Token) -> Claimed<'a>
    requires { token.page ≡ slot.now.page }
    ensures known { result ≢ Claimed.Unknown }
    ensures held { IfHeld result (IsHoldOf token slot.now.table.table_id) }
    ensures tells { ClaimTells seen token result }
{
    match read(seen) {
        Shown::Listed { generation, holds } if generation == token.generation() => {
            if u64::from(holds) == MOST_READERS {
                return Claimed::Crowded;
            }
        }
        _ => return Claimed::Stale,
    }
    let (found, claim) = slot.turn(seen, once_more(seen));
    if found != seen {
        claim.done();
        return Claimed::Again { seen, found };
    }
    match Hold::new(claim, token) {
        Some(hold) => Claimed::Held(hold),
        None => Claimed::Stale,
    }
}

/// Takes the token's record out of a place whose word was seen.
fn withdraw_at(slot: &Counted<Record>, seen: u64, token: Token) -> Withdraw
    requires { token.page ≡ slot.now.page }
    ensures known { result ≢ Withdraw.Unknown }
    ensures done { IfWithdrawn result (IsTaken token) }
    ensures tells { WithdrawTells seen token result }
{
    match read(seen) {
        Shown::Nothing => return Withdraw::Stale,
        Shown::Writer => return Withdraw::Busy { readers: 0 },
        Shown::Listed { generation, holds } => {
            if generation != token.generation() {
                return Withdraw::Stale;
            }
            if holds > 0 {
                return Withdraw::Busy { readers: holds };
            }
        }
    }
    let (found, claim) = slot.turn(seen, taken(seen));
    if found != seen {
        claim.done();
        return Withdraw::Again { seen, found };
    }
    let entry = claim.put(nothing(token.page()), FREE);
    if entry.token != token {
        return Withdraw::Stale;
    }
    Withdraw::Done(entry)
}

impl TokenTable {
    /// A table of so many pages, with no record. This call alone takes memory.
    pub fn open(alloc: Global, count: u16) -> Result<TokenTable, NoMemory>
        requires least { 16 ≤ count }
        requires most { count ≤ 255 }
        ensures { IfOk result (λ table. table.count ≡ count) }
    {
        let (name, seat) = Table::of_words(alloc, &[], &0)?;
        let mut place = Place {
            page: 0,
            table: seat.into_badge(),
        };
        let mut slots = Vec::with_capacity(alloc, usize::from(count))?;
        for page in 0..count {
            place.page = page as u8;
            slots.push(Counted::new(nothing(place.page), &place))?;
        }
        Ok(TokenTable { slots, name })
    }

    /// Lists a record at its token's page, where none is listed.
    pub fn issue(&self, entry: Record) -> Issue
        requires among { entry.token.page < self.now.count }
        requires fits { IsInPage entry }
        ensures { (word : ℕ) × IssueTells word entry.token result }
    {
        let slot = &self.slots[usize::from(entry.token.page())];
        issue_at(slot, slot.load(), entry)
    }

    /// Holds the token's record, which can't be withdrawn until `leave`.
    pub fn claim(&self, token: Token) -> Claimed<'_>
        ensures unknown { result ≡ Claimed.Unknown ↔ (self.now.count ≤ token.page) }
        ensures held { IfHeld result (IsHoldOf token self.now.name) }
        ensures tells { (word : ℕ) × ClaimTells word token result }
    {
        let page = usize::from(token.page());
        if self.slots.len() <= page {
            return Claimed::Unknown;
        }
        let slot = &self.slots[page];
        claim_at(slot, slot.load(), token)
    }

    /// Ends a hold of this table.
    pub fn leave(&self, hold: Hold<'_>)
        requires { hold.name ≡ self.now.name }
    {
        hold.end();
    }

    /// Takes the token's record out of the table, where nobody holds it.
    pub fn withdraw(&self, token: Token) -> Withdraw
        ensures unknown { result ≡ Withdraw.Unknown ↔ (self.now.count ≤ token.page) }
        ensures done { IfWithdrawn result (IsTaken token) }
        ensures tells { (word : ℕ) × WithdrawTells word token result }
    {
        let page = usize::from(token.page());
        if self.slots.len() <= page {
            return Withdraw::Unknown;
        }
        let slot = &self.slots[page];
        withdraw_at(slot, slot.load(), token)
    }
}
