//! Laws of histories. Each is the contract of a function that does nothing.

ghost use Rattle.std.specs.Prelude.{◌≡◌, false, ◌+◌, ◌++◌, ◌∷◌, List, ℕ, option_to_list};
ghost use Rattle.smbd_base.specs.declared.end_id.EndId.{EndId as Side};
ghost use Rattle.smbd_base.specs.declared.event.Event.{Event as Happening};
ghost use Rattle.smbd_base.specs.declared.event.Event.TheVariants as events;
ghost use Rattle.smbd_base.specs.declared.next.Next.TheVariants as due;
ghost use Rattle.smbd_base.specs.Limits.{Limits, IsLawful};
ghost use Rattle.smbd_base.specs.Balance.{IsBalanced, IsNeverFull};
ghost use Rattle.smbd_base.specs.Counts.{credits_earned, credits_held, frames_sent};
ghost use Rattle.smbd_base.specs.Delivery.{messages_delivered, message_brought};
ghost use Rattle.smbd_base.specs.History.{next_event, is_new, MayFollow, IsLegal};

/// The counts of an end that follows its rules balance: nothing is granted that was not posted, no more frames
/// are taken than were granted, as many receives stand as the end has credits, and what it sent and holds was earned.
pub fn legal_histories_balance()
    ensures { (side : Side) (limits : Limits) (past : List Happening) → IsLawful limits → IsLegal side limits past
        → is_new past ≡ false → IsBalanced side limits past }
{}

/// What an end holds is just what it earned, less what it sent, unless at some moment it held as many credits as it can.
pub fn held_credits_are_earned_and_not_sent()
    ensures { (side : Side) (limits : Limits) (past : List Happening) → IsLawful limits → IsLegal side limits past
        → IsNeverFull side past → credits_held side past + frames_sent past ≡ credits_earned side past }
{}

/// What comes next may follow.
pub fn next_events_may_follow()
    ensures post { (side : Side) (limits : Limits) (past : List Happening) (n : ℕ) →
        next_event side limits past ≡ due.Post n → MayFollow side limits (events.Post n) past }
    ensures emit { (side : Side) (limits : Limits) (past : List Happening) (frame : List ℕ) →
        next_event side limits past ≡ due.Emit frame → MayFollow side limits (events.Emit frame) past }
{}

/// Receives are never posted twice in a row: a frame has to be taken between.
pub fn posts_are_apart()
    ensures { (side : Side) (limits : Limits) (past : List Happening) (n m : ℕ) →
        next_event side limits (events.Post n ∷ past) ≡ due.Post m → ⊥ }
{}

/// A frame that is taken adds to the delivered messages the one that it ends, and else nothing.
pub fn frames_deliver_what_they_end()
    ensures { (side : Side) (limits : Limits) (past : List Happening) (frame : List ℕ) →
        messages_delivered side limits (events.Take frame ∷ past)
        ≡ messages_delivered side limits past ++ option_to_list (message_brought side limits past frame) }
{}
