//! The ledger: four numbers, and the calls that change them.

ghost use Rattle.std.specs.Prelude.{◌≡◌, ◌+◌, ◌≤◌, true};
ghost use Rattle.smbd_base.specs.declared.limits.TheConstants.{LEAST_CREDITS, MOST_CREDITS};
ghost use Rattle.smbd_base.specs.Limits.{IsWithin};
ghost use Rattle.credit_ledger.specs.Credits as credits;

use std::marker::Model;

/// The credits of one end. Contracts see the four numbers: the credits that the end holds, its receives that the peer
/// may still use, the posted ones that it may still grant, and the greatest number of receives.
#[derive(Debug, Drop)]
pub struct Ledger {
    held: u16,
    outstanding: u16,
    grantable: u16,
    max_receives: u16,
}

impl Model for Ledger {
    ghost use Rattle.credit_ledger.specs.Credits.{Credits, IsLedger};

    ghost Value = { Credits };

    ghost view = { λ l. record { held = l.held; outstanding = l.outstanding; grantable = l.grantable; max_receives = l.max_receives } };

    ghost invariant = { λ l. IsLedger (record { held = l.held; outstanding = l.outstanding; grantable = l.grantable; max_receives = l.max_receives }) };
}

impl Ledger {
    /// The ledger of an end that has just posted `max` receives, from 3 to 255, the most that it ever has. One credit is
    /// held and one receive is outstanding, for the negotiation; the other receives are grantable.
    pub fn open(max: u16) -> Ledger
        requires range { IsWithin LEAST_CREDITS MOST_CREDITS max }
        ensures { result ≡ credits.opened max }
    {
        Ledger {
            held: 1,
            outstanding: 1,
            grantable: max - 1,
            max_receives: max,
        }
    }

    /// `n` more receives were posted, and may be granted. With those that stand they are no more than the greatest number.
    pub fn posted(&mut self, n: u16)
        requires room { self.old.grantable + self.old.outstanding + n ≤ self.old.max_receives }
        ensures { self.new ≡ credits.with_posted n self.old }
    {
        self.grantable += n;
    }

    /// A frame that grants so many credits came in turn: it used a receive, and `held` rises by what it grants, up to
    /// 65,535.
    pub fn took(&mut self, granted: u16)
        requires turn { 1 ≤ self.old.outstanding }
        ensures { self.new ≡ credits.with_taken granted self.old }
    {
        self.outstanding -= 1;
        self.held = self.held.saturating_add(granted);
    }

    /// Whether a frame that grants so many receives may be sent: a credit is held, so many are grantable, and the last
    /// credit is kept for a frame that grants some (MS-SMBD 3.1.5).
    pub fn may_spend(&self, grant: u16) -> bool
        ensures { result ≡ credits.may_spend grant self.now }
    {
        self.held >= 1 && grant <= self.grantable && (self.held >= 2 || grant >= 1)
    }

    /// A frame that grants so many receives was sent: it spent a credit, and what it grants is outstanding now.
    pub fn spend(&mut self, grant: u16)
        requires may { credits.may_spend grant self.old ≡ true }
        ensures { self.new ≡ credits.with_spent grant self.old }
    {
        self.held -= 1;
        self.grantable -= grant;
        self.outstanding += grant;
    }

    /// The one credit of the negotiation was spent on a frame that grants nothing, as a client's request.
    pub fn spend_request(&mut self)
        requires one { self.old.held ≡ 1 }
        ensures { self.new ≡ credits.with_request self.old }
    {
        self.held = 0;
    }

    /// The credits with which the end may send.
    pub fn held(&self) -> u16
        ensures { result ≡ self.now.held }
    {
        self.held
    }

    /// The receives that the peer was granted, and has not used.
    pub fn outstanding(&self) -> u16
        ensures { result ≡ self.now.outstanding }
    {
        self.outstanding
    }

    /// The receives that are posted, and not yet granted.
    pub fn grantable(&self) -> u16
        ensures { result ≡ self.now.grantable }
    {
        self.grantable
    }
}
