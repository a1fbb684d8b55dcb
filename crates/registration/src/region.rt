//! The region: pages together with their records.

ghost use Rattle.std.specs.Prelude.{◌≡◌, ◌≢◌, ◌+◌, ◌-◌, ◌≤◌, length, replicate, IfOk, None};
ghost use Rattle.std.specs.List.{range_with_len};
ghost use Rattle.smbd_base.specs.declared.token.TheConstants.{PAGE_SIZE, LAST_GENERATION};
ghost use Rattle.smbd_base.specs.declared.page_event.PageEvent.TheVariants as events;
ghost use Rattle.smbd_base.specs.Pages.{IsPoolStep, opened_page, page_at};
ghost use Rattle.page_slots.specs.Answers.{fetch_answer, place_answer, unload_answer, places_had};
ghost use Rattle.token_table.specs.Records.{IsInPage};
ghost use Rattle.token_table.specs.Tables.{listed_at, issue_answer, claim_answer, with_record, holds_on, IfHeld, OnUnheld, IsHeld, TakesHold};
ghost use Rattle.registration.specs.Regions.{IsAmong, record_of, register_answer, LeavesRegistered, release_answer, LeavesReleased};

use crate::answers::{Register, Release};
use buffer_descriptor::Descriptor;
use page_slots::{Access, Load, PagePass, Pages, Passes};
use smbd_base::{NoMemory, Right, Token};
use std::alloc::Global;
use std::marker::Model;
use token_table::{Claimed, Hold, Issue, Record, TokenTable, Withdraw};

/// Pages with their records, of which nothing else reaches the one or the other. Contracts see both.
#[derive(Drop)]
pub struct Region {
    pages: Pages,
    table: TokenTable,
}

impl Model for Region {
    ghost use Rattle.std.specs.Prelude.{◌≡◌, length};
    ghost use Rattle.registration.specs.Regions.{RegionState};

    ghost Value = { RegionState };

    ghost view = { λ r. record { pages = r.pages; table = r.table } };

    ghost invariant = { λ r. length r.table ≡ length r.pages };
}

/// The record of the first bytes of a token's page.
fn record_of_page(token: Token, right: Right, length: u32) -> Record
    requires { length ≤ PAGE_SIZE }
    ensures value { result ≡ record_of token right length }
    ensures fits { IsInPage result }
{
    Record {
        token,
        right,
        base: token.start(),
        length,
    }
}

impl Region {
    /// A region of so many pages, whose first loads have this generation, and a pass for each of its users.
    pub fn open(
        alloc: Global,
        count: u16,
        first_generation: u32,
        seats: u8,
    ) -> Result<(Region, Passes), NoMemory>
        requires least_count { 16 ≤ count }
        requires most_count { count ≤ 255 }
        requires least_generation { 1 ≤ first_generation }
        requires most_generation { first_generation ≤ LAST_GENERATION }
        requires least_seats { 1 ≤ seats }
        requires most_seats { seats ≤ 32 }
        ensures pages { IfOk result (λ opened. opened.0.pages ≡ replicate count (opened_page first_generation)) }
        ensures table { IfOk result (λ opened. opened.0.table ≡ replicate count None) }
        ensures passes { IfOk result (λ opened. opened.1 ≡ range_with_len 0 seats) }
    {
        let table = TokenTable::open(alloc, count)?;
        let (pages, passes) = Pages::open(alloc, count, first_generation, seats)?;
        Ok((Region { pages, table }, passes))
    }

    /// How many pages there are.
    pub fn count(&self) -> usize
        ensures { result ≡ length self.now.pages }
    {
        self.pages.count()
    }

    /// How many places the token has had under which the page is loaded; none where it isn't loaded.
    pub fn places_had(&self, page: u8) -> u16
        requires { IsAmong page self.now }
        ensures { result ≡ places_had (page_at page self.now.pages).loaded }
    {
        self.pages.places_had(page)
    }

    /// Loads a page with 1 to 4,096 bytes, and zeros after them, and issues the record of these bytes.
    pub fn register(
        &mut self,
        pass: &mut PagePass,
        page: u8,
        right: Right,
        bytes: &[u8],
    ) -> Register
        requires among { IsAmong page self.old }
        requires some { 1 ≤ length bytes.now }
        requires fits { length bytes.now ≤ PAGE_SIZE }
        ensures answer { result ≡ register_answer page (length bytes.now) self.old }
        ensures leaves { LeavesRegistered page right bytes.now self.old self.new result }
        ensures count { length self.new.pages ≡ length self.old.pages }
        ensures pass { pass.new ≡ pass.old }
    {
        let token = match self.pages.load(pass, page, right, bytes) {
            Load::Loaded(token) => token,
            Load::Live(token) => return Register::Live(token),
            Load::Busy => return Register::Busy,
            Load::Spent => return Register::Spent,
        };
        let length = bytes.len() as u32;
        match self.table.issue(record_of_page(token, right, length)) {
            Issue::Done => Register::Registered(Descriptor {
                offset: token.start(),
                token: token.number(),
                length,
            }),
            issue => Register::Unissued { token, issue },
        }
    }

    /// Issues the record of the first bytes of a page, which was loaded without it.
    pub fn retry_issue(&mut self, token: Token, right: Right, length: u32) -> Issue
        requires among { IsAmong token.page self.old }
        requires some { 1 ≤ length }
        requires fits { length ≤ PAGE_SIZE }
        ensures answer { result ≡ issue_answer (listed_at token.page self.old.table) }
        ensures done { result ≡ Issue.Done → self.new.table ≡ with_record self.old.table (record_of token right length) 0 }
        ensures refused { result ≢ Issue.Done → self.new ≡ self.old }
        ensures pages { self.new.pages ≡ self.old.pages }
    {
        self.table.issue(record_of_page(token, right, length))
    }

    /// Withdraws the token's record, and unloads its page into `out`.
    pub fn release(&mut self, pass: &mut PagePass, token: Token, out: &mut [u8]) -> Release
        requires { length out.old ≡ PAGE_SIZE }
        ensures answer { result ≡ release_answer token self.old }
        ensures leaves { LeavesReleased token self.old self.new out.old out.new result }
        ensures size { length out.new ≡ PAGE_SIZE }
        ensures count { length self.new.pages ≡ length self.old.pages }
        ensures pass { pass.new ≡ pass.old }
    {
        match self.table.withdraw(token) {
            Withdraw::Done(_) => {}
            Withdraw::Unknown => return Release::Unknown,
            Withdraw::Stale => return Release::Stale,
            Withdraw::Busy { readers } => return Release::Busy { readers },
            Withdraw::Again { seen, found } => return Release::Again { seen, found },
        }
        match self.pages.unload(pass, token, out) {
            Access::Done => Release::Released,
            refused => Release::Withdrawn(refused),
        }
    }

    /// Unloads a page whose record is gone.
    pub fn retry_unload(&mut self, pass: &mut PagePass, token: Token, out: &mut [u8]) -> Access
        requires among { IsAmong token.page self.old }
        requires size { length out.old ≡ PAGE_SIZE }
        ensures answer { result ≡ unload_answer token (page_at token.page self.old.pages) }
        ensures done { result ≡ Access.Done → IsPoolStep (events.Unload token out.new) self.old.pages self.new.pages }
        ensures refused { result ≢ Access.Done → self.new ≡ self.old }
        ensures same { result ≢ Access.Done → out.new ≡ out.old }
        ensures size { length out.new ≡ PAGE_SIZE }
        ensures table { self.new.table ≡ self.old.table }
        ensures count { length self.new.pages ≡ length self.old.pages }
        ensures pass { pass.new ≡ pass.old }
    {
        self.pages.unload(pass, token, out)
    }

    /// Holds the token's record, as `TokenTable::claim`.
    pub fn claim(&mut self, token: Token) -> Claimed
        ensures answer { result ≡ claim_answer token self.old.table }
        ensures held { IfHeld result (λ entry. TakesHold token entry self.old.table self.new.table) }
        ensures among { IfHeld result (λ entry. IsAmong token.page self.new) }
        ensures fits { IfHeld result IsInPage }
        ensures refused { OnUnheld result (self.new ≡ self.old) }
        ensures pages { self.new.pages ≡ self.old.pages }
    {
        self.table.claim(token)
    }

    /// Ends a hold of this region.
    pub fn leave(&mut self, hold: Hold)
        requires { IsHeld hold self.old.table }
        ensures table { self.new.table ≡ with_record self.old.table hold (holds_on (listed_at hold.token.page self.old.table) - 1) }
        ensures pages { self.new.pages ≡ self.old.pages }
    {
        self.table.leave(hold);
    }

    /// Copies bytes out of the token's page, as `Pages::fetch`.
    pub fn fetch(&mut self, pass: &mut PagePass, token: Token, at: u32, out: &mut [u8]) -> Access
        requires among { IsAmong token.page self.old }
        requires some { 1 ≤ length out.old }
        requires within { at + length out.old ≤ PAGE_SIZE }
        ensures answer { result ≡ fetch_answer token (page_at token.page self.old.pages) }
        ensures done { result ≡ Access.Done → IsPoolStep (events.Fetch token at out.new) self.old.pages self.new.pages }
        ensures refused { result ≢ Access.Done → out.new ≡ out.old }
        ensures same { self.new ≡ self.old }
        ensures pass { pass.new ≡ pass.old }
    {
        self.pages.fetch(pass, token, at, out)
    }

    /// Copies bytes into the token's page, as `Pages::place`.
    pub fn place(&mut self, pass: &mut PagePass, token: Token, at: u32, bytes: &[u8]) -> Access
        requires among { IsAmong token.page self.old }
        requires some { 1 ≤ length bytes.now }
        requires within { at + length bytes.now ≤ PAGE_SIZE }
        ensures answer { result ≡ place_answer token (page_at token.page self.old.pages) }
        ensures done { result ≡ Access.Done
            → IsPoolStep (events.Place token (places_had (page_at token.page self.old.pages).loaded) at bytes.now)
            self.old.pages self.new.pages }
        ensures refused { result ≢ Access.Done → self.new ≡ self.old }
        ensures table { self.new.table ≡ self.old.table }
        ensures count { length self.new.pages ≡ length self.old.pages }
        ensures pass { pass.new ≡ pass.old }
    {
        self.pages.place(pass, token, at, bytes)
    }

    /// Tells each of two passes what the other has seen.
    pub fn meet(&mut self, one: &mut PagePass, other: &mut PagePass)
        ensures region { self.new ≡ self.old }
        ensures one { one.new ≡ one.old }
        ensures other { other.new ≡ other.old }
    {
        self.pages.meet(one, other);
    }
}
