//! What a seat at the pool knows. No value of these types is made, but for `Opening`.

use smbd_base::{PageEvent, Right, Token};
use std::collections::LinkedList;
use std::marker::Model;

/// How a pool was opened: how many pages it has, the generation of their first loads, and how many passes it has.
#[derive(Clone, Copy, Drop)]
pub struct Opening {
    pub pages: usize,
    pub first: u32,
    pub seats: u8,
}

/// A page event, and the number of the pass that made it.
#[derive(Drop)]
pub struct Made {
    pass: u8,
    event: PageEvent,
}

impl Model for Made {
    ghost use Rattle.smbd_base.specs.Pages.{Entry};

    ghost Value = { Entry };

    ghost view = { λ e. record { pass = e.pass; event = e.event } };
}

/// Whether a pass has a page in hand, and which.
pub enum Hold {
    Free,
    Has(u64),
}

/// What a pass knows.
pub struct Sight {
    pub number: u8,
    /// The events that the pass made, the newest one first.
    pub made: LinkedList<PageEvent>,
    /// The past of all pages that was seen, the newest entry first.
    pub past: LinkedList<Made>,
    /// Of each page, the entries that were seen, the newest one first.
    pub seen: LinkedList<LinkedList<Made>>,
    /// What another pass has seen of the past of all pages, where the two meet.
    pub other_past: LinkedList<Made>,
    /// What it has seen of each page.
    pub other: LinkedList<LinkedList<Made>>,
    pub hold: Hold,
    /// How often a swap of its own showed a page in the hands of another pass.
    pub refusals: u64,
}

pub enum View {
    Spent,
    /// The right to make the passes from this number on, none of which has made an entry, and a list for each page.
    Rest(u8, LinkedList<LinkedList<Made>>),
    One(Sight),
    /// A copy of what a pass has seen of each page, and of the past of all pages.
    Copy(LinkedList<LinkedList<Made>>, LinkedList<Made>),
}

/// A step of a page: its event without the bytes.
#[derive(Clone, Copy, Drop)]
pub enum Step {
    Load(Token, Right),
    /// From this place on.
    Fetch(Token, u32),
    /// The place of this number under its token, from this place on.
    Place(Token, u32, u32),
    Unload(Token),
}
