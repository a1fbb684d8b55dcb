//! The pool of pages.

ghost use Rattle.std.specs.Prelude.{◌≡◌, ◌≢◌, ◌+◌, ◌-◌, ◌<◌, ◌≤◌, length, replicate, IfOk};
ghost use Rattle.std.specs.List.{range_with_len};
ghost use Rattle.smbd_base.specs.declared.token.TheConstants.{PAGE_SIZE, LAST_GENERATION};
ghost use Rattle.smbd_base.specs.declared.page_event.PageEvent.TheVariants as events;
ghost use Rattle.smbd_base.specs.Pages.{IsPoolStep, opened_page, page_at};
ghost use Rattle.page_slots.specs.Answers.{load_answer, fetch_answer, place_answer, unload_answer, places_had, IfLoaded, OnRefused};

use crate::answers::{Access, Load};
use crate::page_pass::{PagePass, Passes};
use crate::slot::Slot;
use smbd_base::{NoMemory, Right, Token};
use std::alloc::Global;
use std::marker::Model;

/// A pool of pages of 4,096 bytes. Contracts see the list of their states.
#[derive(Drop)]
pub struct Pages {
    slots: Vec<Slot>,
}

impl Model for Pages {
    ghost use Rattle.std.specs.Prelude.{List};
    ghost use Rattle.smbd_base.specs.Pages.{PageState};

    ghost Value = { List PageState };

    ghost view = { λ p. p.slots.items };
}

impl Pages {
    /// A pool of so many pages, whose first loads have this generation, and a pass for each of its users.
    pub fn open(
        alloc: Global,
        count: u16,
        first_generation: u32,
        seats: u8,
    ) -> Result<(Pages, Passes), NoMemory>
        requires least_count { 16 ≤ count }
        requires most_count { count ≤ 255 }
        requires least_generation { 1 ≤ first_generation }
        requires most_generation { first_generation ≤ LAST_GENERATION }
        requires least_seats { 1 ≤ seats }
        requires most_seats { seats ≤ 32 }
        ensures pages { IfOk result (λ opened. opened.0 ≡ replicate count (opened_page first_generation)) }
        ensures passes { IfOk result (λ opened. opened.1 ≡ range_with_len 0 seats) }
    {
        let mut slots = Vec::with_capacity(alloc, usize::from(count))?;
        for _ in 0..count {
            slots.push(Slot::open(alloc, first_generation - 1)?)?;
        }
        Ok((Pages { slots }, Passes::open(seats)))
    }

    /// How many pages there are.
    pub fn count(&self) -> usize
        ensures { result ≡ length self.now }
    {
        self.slots.len()
    }

    /// How many places the token has had under which the page is loaded; none where it isn't loaded.
    pub fn places_had(&self, page: u8) -> u16
        requires { page < length self.now }
        ensures { result ≡ places_had (page_at page self.now).loaded }
    {
        self.slots[usize::from(page)].places_had()
    }

    /// Loads a page with 1 to 4,096 bytes, and zeros after them, for a peer with this right. A page's first load has
    /// the pool's first generation, and each later one the next.
    pub fn load(&mut self, pass: &mut PagePass, page: u8, right: Right, bytes: &[u8]) -> Load
        requires among { page < length self.old }
        requires some { 1 ≤ length bytes.now }
        requires fits { length bytes.now ≤ PAGE_SIZE }
        ensures answer { result ≡ load_answer page (page_at page self.old) }
        ensures loaded { IfLoaded result (λ token. IsPoolStep (events.Load token right bytes.now) self.old self.new) }
        ensures refused { OnRefused result (self.new ≡ self.old) }
        ensures count { length self.new ≡ length self.old }
        ensures pass { pass.new ≡ pass.old }
    {
        let slot = &mut self.slots[usize::from(page)];
        if let Some(token) = slot.token(page) {
            return Load::Live(token);
        }
        if slot.is_spent() {
            return Load::Spent;
        }
        Load::Loaded(slot.load(page, right, bytes))
    }

    /// Copies bytes out of the token's page, from the place `at` on.
    pub fn fetch(&mut self, pass: &mut PagePass, token: Token, at: u32, out: &mut [u8]) -> Access
        requires among { token.page < length self.old }
        requires some { 1 ≤ length out.old }
        requires within { at + length out.old ≤ PAGE_SIZE }
        ensures answer { result ≡ fetch_answer token (page_at token.page self.old) }
        ensures done { result ≡ Access.Done → IsPoolStep (events.Fetch token at out.new) self.old self.new }
        ensures refused { result ≢ Access.Done → out.new ≡ out.old }
        ensures same { self.new ≡ self.old }
        ensures pass { pass.new ≡ pass.old }
    {
        let slot = &self.slots[usize::from(token.page())];
        let answer = slot.may_fetch(token);
        if answer == Access::Done {
            slot.fetch(token, at, out);
        }
        answer
    }

    /// Copies bytes into the token's page, from the place `at` on.
    pub fn place(&mut self, pass: &mut PagePass, token: Token, at: u32, bytes: &[u8]) -> Access
        requires among { token.page < length self.old }
        requires some { 1 ≤ length bytes.now }
        requires within { at + length bytes.now ≤ PAGE_SIZE }
        ensures answer { result ≡ place_answer token (page_at token.page self.old) }
        ensures done { result ≡ Access.Done
            → IsPoolStep (events.Place token (places_had (page_at token.page self.old).loaded) at bytes.now) self.old self.new }
        ensures refused { result ≢ Access.Done → self.new ≡ self.old }
        ensures count { length self.new ≡ length self.old }
        ensures pass { pass.new ≡ pass.old }
    {
        let slot = &mut self.slots[usize::from(token.page())];
        let answer = slot.may_place(token);
        if answer == Access::Done {
            slot.place(token, at, bytes);
        }
        answer
    }

    /// Hands out the 4,096 bytes of the token's page, and ends its load.
    pub fn unload(&mut self, pass: &mut PagePass, token: Token, out: &mut [u8]) -> Access
        requires among { token.page < length self.old }
        requires size { length out.old ≡ PAGE_SIZE }
        ensures answer { result ≡ unload_answer token (page_at token.page self.old) }
        ensures done { result ≡ Access.Done → IsPoolStep (events.Unload token out.new) self.old self.new }
        ensures refused { result ≢ Access.Done → self.new ≡ self.old }
        ensures count { length self.new ≡ length self.old }
        ensures same { result ≢ Access.Done → out.new ≡ out.old }
        ensures size { length out.new ≡ PAGE_SIZE }
        ensures pass { pass.new ≡ pass.old }
    {
        let slot = &mut self.slots[usize::from(token.page())];
        let answer = slot.may_unload(token);
        if answer == Access::Done {
            slot.unload(token, out);
        }
        answer
    }

    /// Tells each of two passes what the other has seen.
    pub fn meet(&mut self, one: &mut PagePass, other: &mut PagePass)
        ensures pages { self.new ≡ self.old }
        ensures one { one.new ≡ one.old }
        ensures other { other.new ≡ other.old }
    {}
}
