//! A hold of a record.

ghost use Rattle.std.specs.Prelude.{◌≡◌, ◌≢◌, Some, IfSome, IfNone};
ghost use Rattle.shared_records.specs.Records.{FitsPage, IsInPage, record_shown};

use crate::record::Record;
use counted_slot::Claim;
use smbd_base::Token;
use std::marker::Model;

/// A claim on a record, which keeps it from being withdrawn. It can't be dropped: `TokenTable::leave` ends it. Contracts see
/// the record, and of which table it is.
pub struct Hold<'a> {
    claim: Claim<'a, Record>,
}

impl<'a> Model for Hold<'a> {
    ghost use Rattle.std.specs.Prelude.{◌≡◌, Some};
    ghost use Rattle.shared_records.specs.Records.{HoldView, FitsPage, record_shown};

    ghost Value = { HoldView };

    ghost view = { λ h. record { entry = record_shown h.claim.value; name = h.claim.tag.table.table_id } };

    ghost invariant = { λ h. (h.claim.right ≡ 1) × (h.claim.value ≡ Some (record_shown h.claim.value)) };
}

impl<'a> Hold<'a> {
    /// A hold by the claim of a reader, where the record is the token's. Else the claim ends.
    pub(crate) fn new(claim: Claim<'a, Record>, token: Token) -> Option<Hold<'a>>
        requires { claim.right ≡ 1 }
        ensures held { IfSome result (λ hold. (hold.entry.token ≡ token) × FitsPage claim.entry.tag.page hold.entry × (hold.name ≡ claim.entry.tag.table.table_id)) }
    {
        if claim.get().token == token {
            return Some(Hold { claim });
        }
        claim.leave();
        None
    }

    /// The record that is held.
    pub fn shown(&self) -> &Record
        ensures { result.now ≡ self.now.entry }
    {
        self.claim.get()
    }

    /// Ends the hold.
    pub(crate) fn end(self) {
        let Hold { claim } = self;
        claim.leave();
    }
}
