//! A page that was loaded, by the descriptor that names it.

ghost use Rattle.std.specs.Prelude.{◌≡◌, ◌≤◌};

use buffer_descriptor::Descriptor;
use smbd_base::Token;

/// The descriptor of a page that was loaded. Its number is that of a steering token.
#[derive(Clone, Copy, Debug)]
pub struct LoadedPage {
    pub descriptor: Descriptor,
    pub ghost has_token: { 256 ≤ descriptor.token },
}

impl LoadedPage {
    ghost use Rattle.file_pasts.specs.ClientPast.{token_of_descriptor};

    /// The token that names the page.
    pub fn token(&self) -> Token
        ensures { result ≡ token_of_descriptor self.now.descriptor }
    {
        let Some(token) = Token::from_number(self.descriptor.token) else {
            unreachable!();
        };
        token
    }
}
