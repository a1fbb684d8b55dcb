//! One page of a pool.

ghost use Rattle.std.specs.Prelude.{◌≡◌, ◌+◌, ◌-◌, ◌==◌, ◌<◌, ◌≤◌, ◌++◌, length, replicate, IfOk};
ghost use Rattle.smbd_base.specs.declared.token.TheConstants.{PAGE_SIZE, LAST_GENERATION};
ghost use Rattle.smbd_base.specs.declared.page_event.PageEvent.TheVariants.{Load, Fetch, Place, Unload};
ghost use Rattle.smbd_base.specs.Pages.{IsPageStep, page_after};
ghost use Rattle.shared_pages.specs.Answers as spec;
ghost use Rattle.shared_pages.specs.Answers.{token_of_page, live_token, fetch_answer, place_answer, unload_answer, places_had};

use crate::answers::Access;
use smbd_base::{LAST_GENERATION, NoMemory, PAGE_SIZE, Right, Token};
use std::alloc::Global;
use std::marker::Model;

/// The places that a token can have.
const MOST_PLACES: u16 = 65_535;

/// A page of a pool: its bytes, and what its word says. Contracts see the state of the page.
#[derive(Drop)]
pub struct Slot {
    content: Vec<u8>,
    generation: u32,
    right: Option<Right>,
    places: u16,
}

impl Model for Slot {
    ghost use Rattle.smbd_base.specs.Pages.{PageState};
    ghost use Rattle.shared_pages.specs.Slots.{loaded_page, IsSlot};

    ghost Value = { PageState };

    ghost view = { λ s. record { generation = s.generation; loaded = loaded_page s.right s.content.items s.places } };

    ghost invariant = { λ s. IsSlot s.right s.content.items s.generation };
}

/// Writes the bytes, and zeros after them.
fn fill_up(content: &mut [u8], bytes: &[u8])
    requires { length bytes.now ≤ length content.old }
    ensures { content.new ≡ bytes.now ++ replicate (length content.old - length bytes.now) 0 }
{
    let (front, rest) = content.split_at_mut(bytes.len());
    front.copy_from_slice(bytes);
    rest.fill(0);
}

impl Slot {
    /// How many places the token of what is loaded has had; none where nothing is loaded.
    pub fn places_had(&self) -> u16
        ensures { result ≡ places_had self.now.loaded }
    {
        match self.right {
            Some(_) => self.places,
            None => 0,
        }
    }

    /// A page that isn't loaded, with this as its last generation.
    pub fn open(alloc: Global, generation: u32) -> Result<Slot, NoMemory>
        requires { generation ≤ LAST_GENERATION }
        ensures { IfOk result (λ s. s ≡ record { generation = generation; loaded = None }) }
    {
        Ok(Slot {
            content: vec![in alloc; 0; PAGE_SIZE as usize]?,
            generation,
            right: None,
            places: 0,
        })
    }

    /// The token under which the page is loaded.
    pub fn token(&self, page: u8) -> Option<Token>
        ensures token { result ≡ live_token page self.now }
        ensures bound { self.now.generation ≤ LAST_GENERATION }
    {
        match self.right {
            Some(_) => Some(Token::new(page, self.generation)),
            None => None,
        }
    }

    /// Whether the page has had its last generation.
    pub fn is_spent(&self) -> bool
        ensures value { result ≡ (self.now.generation == LAST_GENERATION) }
        ensures bound { self.now.generation ≤ LAST_GENERATION }
    {
        self.generation == LAST_GENERATION
    }

    /// Loads the page with the bytes and zeros after them, under the next generation's token.
    #[tactic(auto, unfolding(smbd_base::specs::Pages::whole_page))]
    pub fn load(&mut self, page: u8, right: Right, bytes: &[u8]) -> Token
        requires unloaded { self.old.loaded ≡ None }
        requires unspent { self.old.generation < LAST_GENERATION }
        requires fits { length bytes.now ≤ PAGE_SIZE }
        ensures token { result ≡ token_of_page page (self.old.generation + 1) }
        ensures step { IsPageStep (Load result right bytes.now) self.old }
        ensures after { self.new ≡ page_after (Load result right bytes.now) self.old }
    {
        fill_up(self.content.as_mut_slice(), bytes);
        self.generation += 1;
        self.right = Some(right);
        self.places = 0;
        Token::new(page, self.generation)
    }

    /// The right under which the page is loaded by this token.
    fn right_under(&self, token: Token) -> Option<Right>
        ensures { result ≡ spec.right_under token self.now }
    {
        if self.generation == token.generation() {
            self.right
        } else {
            None
        }
    }

    /// What becomes of a fetch by this token.
    pub fn may_fetch(&self, token: Token) -> Access
        ensures { result ≡ fetch_answer token self.now }
    {
        match self.right_under(token) {
            None => Access::Stale,
            Some(Right::Fetch) => Access::Done,
            Some(Right::Place) => Access::WrongRight,
        }
    }

    /// What becomes of a place by this token.
    pub fn may_place(&self, token: Token) -> Access
        ensures { result ≡ place_answer token self.now }
    {
        match self.right_under(token) {
            None => Access::Stale,
            Some(Right::Fetch) => Access::WrongRight,
            Some(Right::Place) if self.places == MOST_PLACES => Access::Worn,
            Some(Right::Place) => Access::Done,
        }
    }

    /// What becomes of an unload by this token.
    pub fn may_unload(&self, token: Token) -> Access
        ensures { result ≡ unload_answer token self.now }
    {
        match self.right_under(token) {
            None => Access::Stale,
            Some(_) => Access::Done,
        }
    }

    /// Copies bytes out of the page, from the place `at` on.
    pub fn fetch(&self, token: Token, at: u32, out: &mut [u8])
        requires allowed { fetch_answer token self.now ≡ Access.Done }
        requires within { at + length out.old ≤ PAGE_SIZE }
        ensures { IsPageStep (Fetch token at out.new) self.now }
    {
        let from = at as usize;
        out.copy_from_slice(&self.content[from..from + out.len()]);
    }

    /// Copies bytes into the page, from the place `at` on.
    pub fn place(&mut self, token: Token, at: u32, bytes: &[u8])
        requires allowed { place_answer token self.old ≡ Access.Done }
        requires within { at + length bytes.now ≤ PAGE_SIZE }
        ensures step { IsPageStep (Place token (places_had self.old.loaded) at bytes.now) self.old }
        ensures after { self.new ≡ page_after (Place token (places_had self.old.loaded) at bytes.now) self.old }
    {
        let from = at as usize;
        self.content[from..from + bytes.len()].copy_from_slice(bytes);
        self.places += 1;
    }

    /// Hands out the page's bytes, and ends its load.
    pub fn unload(&mut self, token: Token, out: &mut [u8])
        requires allowed { unload_answer token self.old ≡ Access.Done }
        requires size { length out.old ≡ PAGE_SIZE }
        ensures step { IsPageStep (Unload token out.new) self.old }
        ensures after { self.new ≡ page_after (Unload token out.new) self.old }
        ensures size { length out.new ≡ PAGE_SIZE }
    {
        out.copy_from_slice(self.content.as_slice());
        self.right = None;
    }
}
