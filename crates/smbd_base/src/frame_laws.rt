//! Laws on the written form of a data transfer message (MS-SMBD 2.2.3).

ghost use Rattle.std.specs.Prelude.{◌≡◌, ℕ, ◌+◌, ◌^◌, ◌<◌, Bool, false, List, [], length};
ghost use Rattle.smbd_base.specs.DataFrame.{data_frame_of, frame_bytes, flag_bits};
ghost use Rattle.smbd_base.specs.Grant.{credits_in};
ghost use Rattle.smbd_base.specs.declared.end_id.EndId.{EndId};

/// A written message reads as what was written. One without a payload has no flag, and nothing remains after it.
pub fn written_frames_are_read()
    ensures empty { (requested granted : ℕ) (flag : Bool) (remaining : ℕ) →
        requested < 2 ^ 16 → granted < 2 ^ 16 →
        data_frame_of (frame_bytes requested granted flag remaining [])
        ≡ Ok (record { credits_requested = requested; credits_granted = granted; flags = 0; remaining = 0; payload = [] }) }
    ensures filled { (requested granted : ℕ) (flag : Bool) (remaining : ℕ) (payload : List ℕ) →
        requested < 2 ^ 16 → granted < 2 ^ 16 → remaining < 2 ^ 32 → 0 < length payload → length payload < 2 ^ 32 →
        data_frame_of (frame_bytes requested granted flag remaining payload)
        ≡ Ok (record { credits_requested = requested; credits_granted = granted; flags = flag_bits flag; remaining = remaining; payload = payload }) }
{}

/// A written message grants the credits that were written.
pub fn written_frames_grant()
    ensures { (side : EndId) (requested granted : ℕ) (flag : Bool) (remaining : ℕ) (payload : List ℕ) → granted < 2 ^ 16 →
        credits_in side false (frame_bytes requested granted flag remaining payload) ≡ granted }
{}

/// A written message has 20 bytes without a payload, and else 24 before it.
pub fn written_lengths()
    ensures empty { (requested granted : ℕ) (flag : Bool) (remaining : ℕ) →
        length (frame_bytes requested granted flag remaining []) ≡ 20 }
    ensures filled { (requested granted : ℕ) (flag : Bool) (remaining : ℕ) (payload : List ℕ) → 0 < length payload →
        length (frame_bytes requested granted flag remaining payload) ≡ 24 + length payload }
{}
