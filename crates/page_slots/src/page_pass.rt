//! The passes of a pool: who uses it.

ghost use Rattle.std.specs.Prelude.{◌≡◌, ◌↔◌, ◌++◌, [], IsNone};
ghost use Rattle.std.specs.Option.{option_to_list};

use std::marker::Model;

/// One of the users of a pool, by its number. Contracts see the number.
#[derive(Debug, Drop)]
pub struct PagePass {
    number: u8,
}

impl Model for PagePass {
    ghost use Rattle.std.specs.Prelude.{ℕ};

    ghost Value = { ℕ };

    ghost view = { λ p. p.number };
}

impl PagePass {
    /// The number of the pass, from 0.
    pub fn number(&self) -> u8
        ensures { result ≡ self.now }
    {
        self.number
    }
}

/// The passes of a pool that are not handed out yet. Contracts see the list of their numbers.
#[derive(Debug, Drop)]
pub struct Passes {
    next: u8,
    left: u8,
}

impl Model for Passes {
    ghost use Rattle.std.specs.Prelude.{List, ℕ, ◌+◌, ◌≤◌};
    ghost use Rattle.std.specs.List.{range_with_len};

    ghost Value = { List ℕ };

    ghost view = { λ p. range_with_len p.next p.left };

    ghost invariant = { λ p. p.next + p.left ≤ 255 };
}

impl Passes {
    ghost use Rattle.std.specs.Prelude.{◌≤◌};
    ghost use Rattle.std.specs.List.{range_with_len};

    /// The passes with the numbers from 0 on.
    pub(crate) fn open(seats: u8) -> Passes
        ensures { result ≡ range_with_len 0 seats }
    {
        Passes {
            next: 0,
            left: seats,
        }
    }

    /// The first pass that is left, and `None` where none is.
    pub fn take(&mut self) -> Option<PagePass>
        ensures taken { self.old ≡ option_to_list result ++ self.new }
        ensures none { IsNone result ↔ (self.old ≡ []) }
    {
        if self.left == 0 {
            return None;
        }
        let number = self.next;
        self.next += 1;
        self.left -= 1;
        Some(PagePass { number })
    }
}
