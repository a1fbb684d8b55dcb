//! The empty frames of one end.

ghost use Rattle.std.specs.Prelude.{◌≡◌, ◌+◌, ◌-◌, ◌*◌, ◌≤◌, ℕ, true, false, not, List};
ghost use Rattle.smbd_base.specs.declared.end_id.EndId.{EndId as Side};
ghost use Rattle.smbd_base.specs.declared.event.Event.{Event as Happening};
ghost use Rattle.smbd_base.specs.declared.next.Next.TheVariants as due;
ghost use Rattle.smbd_base.specs.Limits.{Limits, IsLawful};
ghost use Rattle.smbd_base.specs.Grant.{credits_in};
ghost use Rattle.smbd_base.specs.Counts.{frames_sent, frames_taken, is_silent, receives_outstanding};
ghost use Rattle.smbd_base.specs.DataFrame.{data_frame_of};
ghost use Rattle.smbd_base.specs.History.{asks, carries, is_response_owed, next_event, pieces_sent, IsLegal};
ghost use Rattle.empty_frames.specs.EmptyFrames.{is_empty_message, empty_frames_sent, empty_answers_sent, empty_grants_sent, asking_frames_sent, asking_frames_taken};

/// An empty frame that is sent while a response is owed answers a frame that asked for one: there are no more of these
/// than frames were taken that ask. So it is in any list of events.
pub fn empty_answers_were_asked_for()
    ensures { (past : List Happening) → empty_answers_sent past ≤ asking_frames_taken past }
{}

/// A data transfer message grants all that its end can grant: with the credits that its peer had left before it, these are as
/// many as the end has.
pub fn frames_grant_all_receives()
    ensures { (side : Side) (limits : Limits) (past : List Happening) (frame : List ℕ) → IsLawful limits → IsLegal side limits past
        → next_event side limits past ≡ due.Emit frame → is_silent past ≡ false
        → credits_in side false frame + receives_outstanding side past ≡ limits.credits }
{}

/// An empty frame is sent while no response is owed only when its peer has at most one credit left.
pub fn empty_grants_come_late()
    ensures { (side : Side) (limits : Limits) (past : List Happening) (frame : List ℕ) → IsLawful limits → IsLegal side limits past
        → next_event side limits past ≡ due.Emit frame → is_silent past ≡ false → is_empty_message (data_frame_of frame) ≡ true
        → is_response_owed past ≡ false → receives_outstanding side past ≤ 1 }
{}

/// The empty frames that an end sends while no response is owed are few beside the frames that it takes: each but the first
/// has `least - 1` of these for itself, where the end has at least `least` credits.
pub fn empty_grants_need_taken_frames()
    ensures { (side : Side) (limits : Limits) (past : List Happening) (least : ℕ) → IsLawful limits → IsLegal side limits past
        → least ≤ limits.credits → (least - 1) * empty_grants_sent past ≤ frames_taken side past + (least - 1) }
{}

/// Each empty frame is sent while a response is owed, or while none is.
pub fn empty_frames_are_answers_or_grants()
    ensures { (past : List Happening) → empty_frames_sent past ≡ empty_answers_sent past + empty_grants_sent past }
{}

/// A data transfer message that an end sends has a payload or none: all frames but the first, the negotiation message, are of
/// one of the two kinds.
pub fn frames_are_empty_or_filled()
    ensures one { (side : Side) (limits : Limits) (past : List Happening) (frame : List ℕ) → IsLawful limits → IsLegal side limits past
        → next_event side limits past ≡ due.Emit frame → is_silent past ≡ false
        → is_empty_message (data_frame_of frame) ≡ not (carries (data_frame_of frame)) }
    ensures all { (side : Side) (limits : Limits) (past : List Happening) → IsLawful limits → IsLegal side limits past
        → is_silent past ≡ false → empty_frames_sent past + pieces_sent past + 1 ≡ frames_sent past }
{}

/// A data transfer message that an end sends and that asks for a response carries a payload.
pub fn asking_frames_are_filled()
    ensures one { (side : Side) (limits : Limits) (past : List Happening) (frame : List ℕ) → IsLawful limits → IsLegal side limits past
        → next_event side limits past ≡ due.Emit frame → is_silent past ≡ false → asks (data_frame_of frame) ≡ true
        → carries (data_frame_of frame) ≡ true }
    ensures all { (side : Side) (limits : Limits) (past : List Happening) → IsLawful limits → IsLegal side limits past
        → asking_frames_sent past ≤ pieces_sent past }
{}
