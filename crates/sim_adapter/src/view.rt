//! What a pass knows, which is for the proof alone: of these types no value is made but of `Ends`.

use smbd_base::{EndId, EndLimits, Event, Frame};
use std::collections::LinkedList;

/// The limits of both ends.
#[derive(Clone, Copy, Debug)]
pub struct Ends {
    pub client: EndLimits,
    pub server: EndLimits,
}

/// The slot that an end has the turn at.
pub enum Turn {
    Free,
    /// That of the next frame that it sends.
    Emits,
    /// That of the next frame of its peer, which is this one.
    Takes(Frame),
}

/// What an end knows.
pub struct EndView {
    pub side: EndId,
    pub ends: Ends,
    /// Its history, the newest event first.
    pub past: LinkedList<Event>,
    /// The most frames of its peer that a look or a meeting showed it.
    pub seen: u64,
    /// How often a look showed it that the link is cut, or how many frames its peer has sent.
    pub looks: u64,
    /// A look of `emit` or `take` showed it that the link is cut.
    pub told_cut: bool,
    pub turn: Turn,
}

/// What a seat at the link knows: nothing any more, what one end knows, or what both do.
pub enum View {
    Spent,
    One(EndView),
    Both(EndView, EndView),
}
