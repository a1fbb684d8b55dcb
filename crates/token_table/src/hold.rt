//! A hold of a record.

ghost use Rattle.std.specs.Prelude.{◌≡◌, ◌+◌, ◌<◌};

use crate::record::{Listed, Record};
use std::marker::Model;

/// A claim on a record, which keeps it from being withdrawn. It can't be dropped: `TokenTable::leave` ends it.
/// Contracts see the record.
#[derive(Debug)]
pub struct Hold {
    pub(crate) entry: Record,
}

impl Model for Hold {
    ghost use Rattle.token_table.specs.declared.record.Record.{Record};

    ghost Value = { Record };

    ghost view = { λ h. h.entry };
}

impl Hold {
    /// A hold on a listed record, and the record as it is listed then.
    pub(crate) fn once_more(listed: &Listed) -> (Hold, Listed)
        requires { listed.now.holds < 4294967295 }
        ensures hold { result.0 ≡ listed.now.entry }
        ensures more { result.1 ≡ record { entry = listed.now.entry; holds = listed.now.holds + 1 } }
    {
        let hold = Hold {
            entry: listed.entry,
        };
        let more = Listed {
            entry: listed.entry,
            holds: listed.holds + 1,
        };
        (hold, more)
    }

    /// The record that is held.
    pub fn shown(&self) -> &Record
        ensures { result.now ≡ self.now }
    {
        &self.entry
    }
}
