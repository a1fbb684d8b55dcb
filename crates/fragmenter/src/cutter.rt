//! The cutter of one message.

ghost use Rattle.std.specs.Prelude.{◌≡◌, ◌<◌, ◌≤◌, ◌^◌, ◌-◌, ◌++◌, length, map, option_to_list};
ghost use Rattle.smbd_base.specs.Pieces.{pieces_of};
ghost use Rattle.fragmenter.specs.Cut.{next_place, piece_at, pieces_left, advanced};

use crate::piece::Piece;
use smbd_base::Message;
use std::marker::Model;

/// A message that is cut into consecutive pieces of one size, the last one shorter or equal. Contracts see the message,
/// the size of a piece, and how many bytes were given.
#[derive(Drop)]
pub struct Cutter {
    message: Message,
    payload: u32,
    given: u32,
}

impl Model for Cutter {
    ghost use Rattle.fragmenter.specs.Cut.{Cutting, IsCutting};

    ghost Value = { Cutting };

    ghost view = { λ c. record { message = c.message; size = c.payload; given = c.given } };

    ghost invariant = { λ c. IsCutting c.message c.payload c.given };
}

impl Cutter {
    /// Begins to cut a message into pieces of `payload` bytes. No piece was given yet.
    pub fn start(message: Message, payload: u32) -> Cutter
        requires some { 0 < length message }
        requires short { length message < 2 ^ 32 }
        requires size { 104 ≤ payload }
        ensures started { result ≡ record { message = message; size = payload; given = 0 } }
        ensures pieces { pieces_left result ≡ pieces_of payload message }
    {
        Cutter {
            message,
            payload,
            given: 0,
        }
    }

    /// Gives the next piece; `None` exactly where all were given.
    pub fn next(&mut self) -> Option<Piece>
        ensures piece { result ≡ next_place self.old }
        ensures gives { pieces_left self.old ≡ map (piece_at self.old.message) (option_to_list result) ++ pieces_left self.new }
        ensures after { self.new ≡ advanced self.old }
    {
        let piece = self.peek()?;
        self.given += piece.length;
        Some(piece)
    }

    /// The next piece, which stays the next one.
    pub fn peek(&self) -> Option<Piece>
        ensures { result ≡ next_place self.now }
    {
        let rest = self.rest();
        if rest == 0 {
            return None;
        }
        let length = rest.min(self.payload);
        Some(Piece {
            from: self.given,
            length,
            remaining: rest - length,
        })
    }

    /// How many bytes of the message were not given yet.
    pub fn rest(&self) -> u32
        ensures { result ≡ length self.now.message - self.now.given }
    {
        self.message.len() as u32 - self.given
    }

    /// The message, whole.
    pub fn message(&self) -> &Message
        ensures { result.now ≡ self.now.message }
    {
        &self.message
    }
}
