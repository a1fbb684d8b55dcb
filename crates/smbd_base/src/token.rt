//! The steering token of a page.

ghost use Rattle.std.specs.Prelude.{◌≡◌, ◌↔◌, ◌<◌, ◌≤◌, IsNone, IfSome};
ghost use Rattle.smbd_base.specs.declared.token.TheConstants.{LAST_GENERATION};
ghost use Rattle.smbd_base.specs.Tokens.{number_of, start_of_page, token_of, IsToken};

use std::marker::Model;

/// The bytes of a page (this project's own).
pub const PAGE_SIZE: u32 = 4_096;

/// The last generation that a token can have: the generations fit 24 bits (this project's own).
pub const LAST_GENERATION: u32 = 16_777_215;

/// The steering token of a registered page: it names the page, and which of its loads (this project's own; a token
/// travels as the 32-bit Token of a Buffer Descriptor V1, MS-SMBD 2.2.3.1). Contracts see a record of the two numbers.
#[derive(Clone, Copy, Debug, PartialEq, Eq)]
pub struct Token {
    page: u8,
    generation: u32,
}

impl Model for Token {
    ghost use Rattle.smbd_base.specs.Tokens.{PageToken, IsToken};

    ghost Value = { PageToken };

    ghost view = { λ t. record { page = t.page; generation = t.generation } };

    ghost invariant = { λ t. IsToken (record { page = t.page; generation = t.generation }) };

    ghost inverse = { λ v. record { page = v.page; generation = v.generation } };
}

impl Token {
    /// The token of this load of the page; the first load of a page has some first generation, and each later one
    /// the next. Generations lie from 1 to 16,777,215.
    pub fn new(page: u8, generation: u32) -> Token
        requires least { 1 ≤ generation }
        requires most { generation ≤ LAST_GENERATION }
        ensures { result ≡ record { page = page; generation = generation } }
    {
        Token { page, generation }
    }

    /// The page that the token names.
    pub fn page(self) -> u8
        ensures value { result ≡ self.page }
        ensures lawful { IsToken self }
    {
        self.page
    }

    /// The generation of the page's load, from 1 to 16,777,215.
    pub fn generation(self) -> u32
        ensures value { result ≡ self.generation }
        ensures lawful { IsToken self }
    {
        self.generation
    }

    /// The place of the page's first byte among those of its pool, in bytes.
    pub fn start(self) -> u64
        ensures value { result ≡ start_of_page self.page }
        ensures lawful { IsToken self }
    {
        u64::from(PAGE_SIZE) * u64::from(self.page)
    }

    /// The token as a descriptor carries it: the generation times 256, plus the page.
    pub fn number(self) -> u32
        ensures value { result ≡ number_of self }
        ensures back { token_of result ≡ Some self }
    {
        self.generation * 256 + u32::from(self.page)
    }

    /// The token of this number, and `None` where its generation would be 0.
    pub fn from_number(n: u32) -> Option<Token>
        ensures none { IsNone result ↔ (n < 256) }
        ensures value { result ≡ token_of n }
        ensures back { IfSome result (λ t. number_of t ≡ n) }
    {
        let generation = n / 256;
        if generation == 0 {
            return None;
        }
        Some(Token {
            page: (n % 256) as u8,
            generation,
        })
    }
}
