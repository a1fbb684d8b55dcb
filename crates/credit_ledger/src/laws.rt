//! The numbers of a ledger are the counts of a history, event by event. Each law is the contract of a function that does
//! nothing. A past is a list of events, the newest one first.

ghost use Rattle.std.specs.Prelude.{◌≡◌, ◌⊎◌, ℕ, ◌+◌, ◌≤◌, Bool, true, false, ◌&&◌, List, [], ◌∷◌};
ghost use Rattle.smbd_base.specs.declared.end_id.EndId.{EndId as Side};
ghost use Rattle.smbd_base.specs.declared.end_id.EndId.TheVariants.{Client};
ghost use Rattle.smbd_base.specs.declared.event.Event.{Event as Happening};
ghost use Rattle.smbd_base.specs.declared.event.Event.TheVariants as events;
ghost use Rattle.smbd_base.specs.declared.next.Next.TheVariants as due;
ghost use Rattle.smbd_base.specs.Counts.{peer_of, credits_held, is_silent, is_unheard, is_out_of_turn};
ghost use Rattle.smbd_base.specs.Grant.{credits_in};
ghost use Rattle.smbd_base.specs.History.{next_event, sends, is_new, IsLegal};
ghost use Rattle.smbd_base.specs.Limits.{Limits, IsLawful};
ghost use Rattle.credit_ledger.specs.Credits.{Credits, opened, with_posted, with_taken, may_spend, with_spent, with_request};
ghost use Rattle.credit_ledger.specs.Recorded.{AreCountsOf, IsLedgerOf, has_reason};

/// A ledger that was opened is that of an end whose receives were posted, and nothing else.
pub fn opening_is_recorded()
    ensures { (side : Side) (n : ℕ) → 1 ≤ n → IsLedgerOf side (events.Post n ∷ []) (opened n) }
{}

/// `posted` records a Post.
pub fn posts_are_recorded()
    ensures { (side : Side) (past : List Happening) (c : Credits) (n : ℕ) → IsLedgerOf side past c
        → IsLedgerOf side (events.Post n ∷ past) (with_posted n c) }
{}

/// `took` records a Take of a frame that came in turn, and may be called then. One that came out of turn changes nothing.
pub fn takes_are_recorded()
    ensures may { (side : Side) (past : List Happening) (c : Credits) → IsLedgerOf side past c
        → is_out_of_turn side past ≡ false → 1 ≤ c.outstanding }
    ensures in_turn { (side : Side) (past : List Happening) (c : Credits) (frame : List ℕ) → IsLedgerOf side past c
        → is_out_of_turn side past ≡ false
        → IsLedgerOf side (events.Take frame ∷ past) (with_taken (credits_in (peer_of side) (is_unheard past) frame) c) }
    ensures out_of_turn { (side : Side) (past : List Happening) (c : Credits) (frame : List ℕ) → IsLedgerOf side past c
        → is_out_of_turn side past ≡ true → IsLedgerOf side (events.Take frame ∷ past) c }
{}

/// `spend` records an Emit of a frame, where what the frame grants may be spent.
pub fn sent_frames_are_recorded()
    ensures { (side : Side) (past : List Happening) (c : Credits) (frame : List ℕ) → IsLedgerOf side past c
        → may_spend (credits_in side (is_silent past) frame) c ≡ true
        → IsLedgerOf side (events.Emit frame ∷ past) (with_spent (credits_in side (is_silent past) frame) c) }
{}

/// `spend_request` records a client's first Emit, and also that of any other frame that grants nothing, as a server's
/// refusing response.
pub fn requests_are_recorded()
    ensures request { (past : List Happening) (c : Credits) (frame : List ℕ) → IsLedgerOf Client past c → is_silent past ≡ true
        → IsLedgerOf Client (events.Emit frame ∷ past) (with_request c) }
    ensures grants_none { (side : Side) (past : List Happening) (c : Credits) (frame : List ℕ) → IsLedgerOf side past c → c.held ≡ 1
        → credits_in side (is_silent past) frame ≡ 0 → IsLedgerOf side (events.Emit frame ∷ past) (with_request c) }
{}

/// An end that has sent nothing holds the one credit of the negotiation, so that it may `spend_request`.
pub fn silent_ends_hold_one()
    ensures { (side : Side) (past : List Happening) → is_silent past ≡ true → credits_held side past ≡ 1 }
{}

/// A Submit and a Cut leave the ledger as it is.
pub fn other_events_change_nothing()
    ensures submit { (side : Side) (past : List Happening) (c : Credits) (message : List ℕ) → IsLedgerOf side past c
        → IsLedgerOf side (events.Submit message ∷ past) c }
    ensures cut { (side : Side) (past : List Happening) (c : Credits) → IsLedgerOf side past c → IsLedgerOf side (events.Cut ∷ past) c }
{}

/// The counts of a legal history balance: numbers that are its counts are a ledger of it.
pub fn counts_of_legal_histories()
    ensures { (side : Side) (limits : Limits) (past : List Happening) (c : Credits) → IsLawful limits → IsLegal side limits past
        → is_new past ≡ false → AreCountsOf side past c → IsLedgerOf side past c }
{}

/// An end sends a data transfer message where it has a reason to and may spend all that is grantable, and only there.
pub fn ends_send_what_they_may_spend()
    ensures { (c : Credits) (waits owes : Bool) →
        sends c.held c.outstanding c.grantable waits owes ≡ (has_reason waits owes c && may_spend c.grantable c) }
{}

/// The receives that a legal history posts next have room in a ledger that was opened for the credits of its limits.
pub fn due_posts_fit()
    ensures { (side : Side) (limits : Limits) (past : List Happening) (c : Credits) (n : ℕ) → IsLawful limits → IsLegal side limits past
        → IsLedgerOf side past c → next_event side limits past ≡ due.Post n
        → c.grantable + c.outstanding + n ≤ limits.credits }
{}

/// The frame that a legal history sends next may be spent, unless the end opens by it and it grants nothing: a client's
/// request, or a server's refusing response. Then one credit is held.
pub fn due_frames_may_be_spent()
    ensures { (side : Side) (limits : Limits) (past : List Happening) (c : Credits) (frame : List ℕ) → IsLawful limits → IsLegal side limits past
        → IsLedgerOf side past c → next_event side limits past ≡ due.Emit frame
        → ((is_silent past ≡ true) × (c.held ≡ 1) × (credits_in side true frame ≡ 0)) ⊎ (may_spend (credits_in side (is_silent past) frame) c ≡ true) }
{}
