//! The credits of two ends that wait for each other.

ghost use Rattle.std.specs.Prelude.{◌≡◌, ◌+◌, ◌-◌, ◌≤◌, ℕ, false, Bool};
ghost use Rattle.smbd_base.specs.History.{sends};

/// Two ends of 2 credits or more, of which one holds a credit, never both hold back a frame: where nothing is in flight between
/// them and neither sends, neither has a piece that waits, nor owes a response. Each holds the credits that are outstanding at
/// the other, which can grant the rest of its own.
pub fn credits_come_to_no_dead_end()
    ensures { (held held_there credits credits_there : ℕ) (waits owes waits_there owes_there : Bool)
        → 2 ≤ credits → 2 ≤ credits_there → 1 ≤ held + held_there
        → sends held held_there (credits - held_there) waits owes ≡ false
        → sends held_there held (credits_there - held) waits_there owes_there ≡ false
        → (waits ≡ false) × (owes ≡ false) × (waits_there ≡ false) × (owes_there ≡ false) }
{}
