//! The table of records.

ghost use Rattle.std.specs.Prelude.{◌≡◌, ◌≢◌, ◌+◌, ◌-◌, ◌<◌, ◌≤◌, length, replicate, IfOk, None};
ghost use Rattle.token_table.specs.Records.{IsInPage};
ghost use Rattle.token_table.specs.Tables.{listed_at, listed_under, issue_answer, claim_answer, withdraw_answer, IfHeld, OnUnheld, IfWithdrawn, OnKept, with_record, holds_on, IsHeld, TakesHold, TakesOut};

use crate::answers::{Claimed, Issue, Withdraw};
use crate::hold::Hold;
use crate::record::{Listed, Record};
use smbd_base::{NoMemory, Token};
use std::alloc::Global;
use std::marker::Model;

/// The records of the pages of a pool. Contracts see, for each page, the record that is listed and how many hold it.
#[derive(Drop)]
pub struct TokenTable {
    places: Vec<Option<Listed>>,
}

impl Model for TokenTable {
    ghost use Rattle.std.specs.Prelude.{List, Option};
    ghost use Rattle.token_table.specs.declared.record.Listed.{Listed};
    ghost use Rattle.token_table.specs.Records.{AreInPages};

    ghost Value = { List (Option Listed) };

    ghost view = { λ t. t.places.items };

    ghost invariant = { λ t. AreInPages t.places.items };
}

impl TokenTable {
    /// A table of so many pages, with no record.
    pub fn open(alloc: Global, count: u16) -> Result<TokenTable, NoMemory>
        requires least { 16 ≤ count }
        requires most { count ≤ 255 }
        ensures { IfOk result (λ table. table ≡ replicate count None) }
    {
        Ok(TokenTable {
            places: vec![in alloc; None; usize::from(count)]?,
        })
    }

    /// Lists a record at its token's page, where none is listed.
    pub fn issue(&mut self, entry: Record) -> Issue
        requires among { entry.token.page < length self.old }
        requires fits { IsInPage entry }
        ensures answer { result ≡ issue_answer (listed_at entry.token.page self.old) }
        ensures done { result ≡ Issue.Done → self.new ≡ with_record self.old entry 0 }
        ensures refused { result ≢ Issue.Done → self.new ≡ self.old }
        ensures count { length self.new ≡ length self.old }
    {
        let page = usize::from(entry.token.page());
        if let Some(listed) = self.places[page] {
            return Issue::Present(listed.entry.token);
        }
        self.places[page] = Some(Listed { entry, holds: 0 });
        Issue::Done
    }

    /// What is listed under the token.
    fn listed(&self, token: Token) -> Option<Listed>
        requires { token.page < length self.now }
        ensures { result ≡ listed_under token self.now }
    {
        match self.places[usize::from(token.page())] {
            Some(listed) if listed.entry.token == token => Some(listed),
            _ => None,
        }
    }

    /// Holds the token's record, which can't be withdrawn until `leave`.
    pub fn claim(&mut self, token: Token) -> Claimed
        ensures answer { result ≡ claim_answer token self.old }
        ensures held { IfHeld result (λ entry. TakesHold token entry self.old self.new) }
        ensures fits { IfHeld result IsInPage }
        ensures refused { OnUnheld result (self.new ≡ self.old) }
        ensures count { length self.new ≡ length self.old }
    {
        let page = usize::from(token.page());
        if self.places.len() <= page {
            return Claimed::Unknown;
        }
        let Some(listed) = self.listed(token) else {
            return Claimed::Stale;
        };
        if listed.holds == u32::MAX {
            return Claimed::Crowded;
        }
        let (hold, more) = Hold::once_more(&listed);
        self.places[page] = Some(more);
        Claimed::Held(hold)
    }

    /// Ends a hold of this table.
    pub fn leave(&mut self, hold: Hold)
        requires { IsHeld hold self.old }
        ensures { self.new ≡ with_record self.old hold (holds_on (listed_at hold.token.page self.old) - 1) }
    {
        let Hold { entry } = hold;
        let page = usize::from(entry.token.page());
        if let Some(listed) = self.places[page] {
            self.places[page] = Some(Listed {
                entry,
                holds: listed.holds - 1,
            });
        }
    }

    /// Takes the token's record out of the table, where nobody holds it.
    pub fn withdraw(&mut self, token: Token) -> Withdraw
        ensures answer { result ≡ withdraw_answer token self.old }
        ensures done { IfWithdrawn result (λ entry. TakesOut token entry self.old self.new) }
        ensures kept { OnKept result (self.new ≡ self.old) }
        ensures count { length self.new ≡ length self.old }
    {
        let page = usize::from(token.page());
        if self.places.len() <= page {
            return Withdraw::Unknown;
        }
        let Some(Listed { entry, holds }) = self.listed(token) else {
            return Withdraw::Stale;
        };
        if holds > 0 {
            return Withdraw::Busy { readers: holds };
        }
        self.places[page] = None;
        Withdraw::Done(entry)
    }
}
