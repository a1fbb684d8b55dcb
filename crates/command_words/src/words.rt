//! A word of the command line.

ghost use Rattle.std.specs.Prelude.{◌≡◌, bytes_eq, IfOk};

use smbd_base::NoMemory;
use std::alloc::Global;
use std::convert::AsStr;
use std::marker::Model;

/// A word of the command line, after the program's name. Contracts see the list of its bytes.
#[derive(Debug, Drop)]
pub struct Word {
    text: String,
}

impl Model for Word {
    ghost use Rattle.std.specs.Prelude.{List, ℕ, string_bytes};

    ghost Value = { List ℕ };

    ghost view = { λ w. string_bytes w.text };
}

impl Word {
    /// A word of the same text.
    pub fn copy_of(alloc: Global, text: &str) -> Result<Word, NoMemory>
        ensures { IfOk result (λ w. w ≡ text.now) }
    {
        Ok(Word {
            text: String::from_str(alloc, text)?,
        })
    }

    /// Whether the word has this text.
    pub(crate) fn is(&self, text: &str) -> bool
        ensures { result ≡ bytes_eq self.now text.now }
    {
        self.text.as_bytes() == text.as_bytes()
    }
}

impl AsStr for Word {
    ghost text = { λ w. w };

    fn as_str(&self) -> &str {
        self.text.as_str()
    }
}
