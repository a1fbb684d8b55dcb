//! The region: pages together with their records.

ghost use Rattle.std.specs.Prelude.{◌≡◌, ◌≢◌, ◌↔◌, ◌+◌, ◌<◌, ◌≤◌, ℕ, length, map, All, IfOk};
ghost use Rattle.smbd_base.specs.declared.token.TheConstants.{PAGE_SIZE, LAST_GENERATION};
ghost use Rattle.smbd_base.specs.declared.page_event.PageEvent.TheVariants as events;
ghost use Rattle.shared_pages.specs.Answers.{fetch_answer, place_answer, unload_answer, places_had};
ghost use Rattle.shared_pages.specs.Rule.{longest, AllCompare, Knows, refused};
ghost use Rattle.shared_pages.specs.Calls.{AreNew, known_by, opening_of, IsOf, MadeAsMuch, PastsMet, MayMake, AccessTells, Makes};
ghost use Rattle.shared_pages.specs.Meets.{AreAll, HaveOnePast, lists_made};
ghost use Rattle.shared_pages.specs.Sweeps.{HaveAllMet};
ghost use Rattle.smbd_base.specs.PagesFit.{PagesFit};
ghost use Rattle.shared_records.specs.Records.{IsInPage};
ghost use Rattle.shared_records.specs.Calls.{IssueTells, IfHeld, IsHoldOf, ClaimTells};
ghost use Rattle.shared_region.specs.Regions.{record_of, RegisterTells, ReleaseTells};

use crate::answers::{Register, Release};
use buffer_descriptor::Descriptor;
use shared_pages::{Access, Load, PagePass, Pages, Passes, Placed};
use shared_records::{Claimed, Hold, Issue, Record, TokenTable, Withdraw};
use smbd_base::{NoMemory, Right, Token};
use std::alloc::Global;

/// Pages with their records, of which nothing else reaches the one or the other. Threads share it: no call waits for another.
#[derive(Drop)]
pub struct Region {
    pages: Pages,
    table: TokenTable,
    count: u16,
    ghost sized: { (count ≡ (opening_of pages).pages) × (table.count ≡ (opening_of pages).pages) },
}

/// The record of the first bytes of a token's page.
fn record_of_page(token: Token, right: Right, length: u32) -> Record
    requires { length ≤ PAGE_SIZE }
    ensures value { result ≡ record_of token right length }
    ensures fits { IsInPage result }
{
    Record {
        token,
        right,
        base: token.start(),
        length,
    }
}

impl Region {
    /// A region of so many pages, whose first loads have this generation, and a pass for each of its users. This call alone
    /// takes memory.
    pub fn open(
        alloc: Global,
        count: u16,
        first_generation: u32,
        seats: u8,
    ) -> Result<(Region, Passes), NoMemory>
        requires least_count { 16 ≤ count }
        requires most_count { count ≤ 255 }
        requires least_generation { 1 ≤ first_generation }
        requires most_generation { first_generation ≤ LAST_GENERATION }
        requires least_seats { 1 ≤ seats }
        requires most_seats { seats ≤ 32 }
        ensures opening { IfOk result (λ t. opening_of t.0.pages ≡ record { pages = count; first = first_generation; seats = seats }) }
        ensures passes { IfOk result (λ t. (length t.1.passes.items ≡ seats) × AreNew t.0.pages 0 t.1.passes.items) }
    {
        let table = TokenTable::open(alloc, count)?;
        let (pages, passes) = Pages::open(alloc, count, first_generation, seats)?;
        let region = Region {
            pages,
            table,
            count,
        };
        Ok((region, passes))
    }

    /// How many pages there are.
    pub fn count(&self) -> u16
        ensures { result ≡ (opening_of self.now.pages).pages }
    {
        self.count
    }

    /// Loads a page with 1 to 4,096 bytes, and zeros after them, and issues the record of these bytes.
    pub fn register(&self, pass: &mut PagePass, page: u8, right: Right, bytes: &[u8]) -> Register
        requires own { IsOf self.now.pages pass.old }
        requires among { page < (opening_of self.now.pages).pages }
        requires some { 1 ≤ length bytes.now }
        requires fits { length bytes.now ≤ PAGE_SIZE }
        requires few { MayMake (known_by pass.old) }
        ensures own { IsOf self.now.pages pass.new }
        ensures few { length (known_by pass.new).made ≤ length (known_by pass.old).made + 1 }
        ensures tells { RegisterTells (opening_of self.now.pages).first page right bytes.now (known_by pass.old) (known_by pass.new) result }
    {
        let token = match self.pages.load(pass, page, right, bytes) {
            Load::Loaded(token) => token,
            Load::Live(token) => return Register::Live(token),
            Load::Busy => return Register::Busy,
            Load::Spent => return Register::Spent,
        };
        let length = bytes.len() as u32;
        match self.table.issue(record_of_page(token, right, length)) {
            Issue::Done => Register::Registered(Descriptor {
                offset: token.start(),
                token: token.number(),
                length,
            }),
            issue => Register::Unissued { token, issue },
        }
    }

    /// Issues the record of the first bytes of a page, which was loaded without it.
    pub fn retry_issue(&self, token: Token, right: Right, length: u32) -> Issue
        requires among { token.page < (opening_of self.now.pages).pages }
        requires some { 1 ≤ length }
        requires fits { length ≤ PAGE_SIZE }
        ensures { (word : ℕ) × IssueTells word token result }
    {
        self.table.issue(record_of_page(token, right, length))
    }

    /// Withdraws the token's record, and unloads its page into `out`.
    pub fn release(&self, pass: &mut PagePass, token: Token, out: &mut [u8]) -> Release
        requires own { IsOf self.now.pages pass.old }
        requires size { length out.old ≡ PAGE_SIZE }
        requires few { MayMake (known_by pass.old) }
        ensures own { IsOf self.now.pages pass.new }
        ensures few { length (known_by pass.new).made ≤ length (known_by pass.old).made + 1 }
        ensures unknown { result ≡ Release.Unknown ↔ ((opening_of self.now.pages).pages ≤ token.page) }
        ensures tells { ReleaseTells (opening_of self.now.pages).first token out.old out.new (known_by pass.old) (known_by pass.new) result }
        ensures size { length out.new ≡ PAGE_SIZE }
    {
        match self.table.withdraw(token) {
            Withdraw::Done(_) => {}
            Withdraw::Unknown => return Release::Unknown,
            Withdraw::Stale => return Release::Stale,
            Withdraw::Busy { readers } => return Release::Busy { readers },
            Withdraw::Again { seen, found } => return Release::Again { seen, found },
        }
        match self.pages.unload(pass, token, out) {
            Access::Done => Release::Released,
            refused => Release::Withdrawn(refused),
        }
    }

    /// Unloads a page whose record is gone, as `Pages::unload`.
    pub fn retry_unload(&self, pass: &mut PagePass, token: Token, out: &mut [u8]) -> Access
        requires own { IsOf self.now.pages pass.old }
        requires among { token.page < (opening_of self.now.pages).pages }
        requires size { length out.old ≡ PAGE_SIZE }
        requires few { MayMake (known_by pass.old) }
        ensures own { IsOf self.now.pages pass.new }
        ensures few { length (known_by pass.new).made ≤ length (known_by pass.old).made + 1 }
        ensures busy { result ≡ Access.Busy → known_by pass.new ≡ refused (known_by pass.old) }
        ensures tells { result ≢ Access.Busy → AccessTells (opening_of self.now.pages).first token.page (λ s. events.Unload token out.new) (unload_answer token) (known_by pass.old) (known_by pass.new) result }
        ensures same { result ≢ Access.Done → out.new ≡ out.old }
        ensures size { length out.new ≡ PAGE_SIZE }
    {
        self.pages.unload(pass, token, out)
    }

    /// Holds the token's record, as `TokenTable::claim`.
    pub fn claim(&self, token: Token) -> Claimed<'_>
        ensures unknown { result ≡ Claimed.Unknown ↔ ((opening_of self.now.pages).pages ≤ token.page) }
        ensures held { IfHeld result (IsHoldOf token self.now.table.name) }
        ensures tells { (word : ℕ) × ClaimTells word token result }
    {
        self.table.claim(token)
    }

    /// Ends a hold of this region.
    pub fn leave(&self, hold: Hold<'_>)
        requires { hold.name ≡ self.now.table.name }
    {
        self.table.leave(hold);
    }

    /// Copies bytes out of the token's page, as `Pages::fetch`.
    pub fn fetch(&self, pass: &mut PagePass, token: Token, at: u32, out: &mut [u8]) -> Access
        requires own { IsOf self.now.pages pass.old }
        requires among { token.page < (opening_of self.now.pages).pages }
        requires some { 1 ≤ length out.old }
        requires within { at + length out.old ≤ PAGE_SIZE }
        requires few { MayMake (known_by pass.old) }
        ensures own { IsOf self.now.pages pass.new }
        ensures few { length (known_by pass.new).made ≤ length (known_by pass.old).made + 1 }
        ensures busy { result ≡ Access.Busy → known_by pass.new ≡ refused (known_by pass.old) }
        ensures tells { result ≢ Access.Busy → AccessTells (opening_of self.now.pages).first token.page (λ s. events.Fetch token at out.new) (fetch_answer token) (known_by pass.old) (known_by pass.new) result }
        ensures same { result ≢ Access.Done → out.new ≡ out.old }
    {
        self.pages.fetch(pass, token, at, out)
    }

    /// Copies bytes into the token's page, as `Pages::place`.
    pub fn place(&self, pass: &mut PagePass, token: Token, at: u32, bytes: &[u8]) -> Access
        requires own { IsOf self.now.pages pass.old }
        requires among { token.page < (opening_of self.now.pages).pages }
        requires some { 1 ≤ length bytes.now }
        requires within { at + length bytes.now ≤ PAGE_SIZE }
        requires few { MayMake (known_by pass.old) }
        ensures own { IsOf self.now.pages pass.new }
        ensures few { length (known_by pass.new).made ≤ length (known_by pass.old).made + 1 }
        ensures busy { result ≡ Access.Busy → known_by pass.new ≡ refused (known_by pass.old) }
        ensures tells { result ≢ Access.Busy → AccessTells (opening_of self.now.pages).first token.page (λ s. events.Place token (places_had s.loaded) at bytes.now) (place_answer token) (known_by pass.old) (known_by pass.new) result }
    {
        self.place_in_order(pass, token, at, bytes).answer
    }

    /// The same, and tells which order the place had under its token, as `Pages::place_in_order`.
    pub fn place_in_order(&self, pass: &mut PagePass, token: Token, at: u32, bytes: &[u8]) -> Placed
        requires own { IsOf self.now.pages pass.old }
        requires among { token.page < (opening_of self.now.pages).pages }
        requires some { 1 ≤ length bytes.now }
        requires within { at + length bytes.now ≤ PAGE_SIZE }
        requires few { MayMake (known_by pass.old) }
        ensures own { IsOf self.now.pages pass.new }
        ensures few { length (known_by pass.new).made ≤ length (known_by pass.old).made + 1 }
        ensures busy { result.answer ≡ Access.Busy → known_by pass.new ≡ refused (known_by pass.old) }
        ensures tells { result.answer ≢ Access.Busy → AccessTells (opening_of self.now.pages).first token.page (λ s. events.Place token (places_had s.loaded) at bytes.now) (place_answer token) (known_by pass.old) (known_by pass.new) result.answer }
        ensures order { result.answer ≡ Access.Done → Makes (events.Place token result.order at bytes.now) (known_by pass.old) (known_by pass.new) }
        ensures none { result.answer ≢ Access.Done → result.order ≡ 0 }
    {
        self.pages.place_in_order(pass, token, at, bytes)
    }

    /// Tells each of two passes what the other has seen, as `Pages::meet`.
    pub fn meet(&self, one: &mut PagePass, other: &mut PagePass)
        requires { IsOf self.now.pages one.old × IsOf self.now.pages other.old }
        ensures own { IsOf self.now.pages one.new × IsOf self.now.pages other.new }
        ensures one { (known_by one.new).seen ≡ longest (known_by one.old).seen (known_by other.old).seen }
        ensures other { (known_by other.new).seen ≡ (known_by one.new).seen }
        ensures same { MadeAsMuch (known_by one.old) (known_by one.new) × MadeAsMuch (known_by other.old) (known_by other.new) }
        ensures compare { AllCompare (known_by one.old).seen (known_by other.old).seen }
        ensures pasts { PastsMet (known_by one.old) (known_by other.old) (known_by one.new) (known_by other.new) }
        ensures knows { Knows (opening_of self.now.pages) (known_by one.new) × Knows (opening_of self.now.pages) (known_by other.new) }
    {
        self.pages.meet(one, other);
    }

    /// Tells each of these passes what any of them has seen. Where they are all passes of the region, the lists of the events
    /// that they made fit together. All events of all pages have one past, which each of them has seen, and of which each made
    /// its entries.
    pub fn meet_all(&self, passes: &mut [PagePass])
        requires { All (λ p. IsOf self.now.pages p) passes.old }
        ensures met { HaveAllMet self.now.pages passes.old passes.new }
        ensures fit { AreAll (opening_of self.now.pages) (map known_by passes.new) → PagesFit (opening_of self.now.pages).first (lists_made (map known_by passes.new)) }
        ensures past { HaveOnePast (opening_of self.now.pages) (map known_by passes.new) }
    {
        shared_pages::meet_all(&self.pages, passes);
    }
}
