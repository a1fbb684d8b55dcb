//! What a gatherer makes of pieces, one after another. Each law is the contract of a function that does nothing.

ghost use Rattle.std.specs.Prelude.{◌≡◌, ◌≤◌, ℕ, List, [], All, length};
ghost use Rattle.smbd_base.specs.Pieces.{Piece, AreFilled, SplitsInto};
ghost use Rattle.reassembly.specs.Gathering.{opened, messages_gathered, gathered_so, PiecesAreAccepted, GathersWhatSplits};

/// The messages that a gatherer hands out are just those into which the pieces split, and what it has begun is the rest.
pub fn gathered_pieces_split()
    ensures { (max : ℕ) (pieces : List Piece) → AreFilled pieces → PiecesAreAccepted (opened max) pieces → GathersWhatSplits max pieces }
{}

/// Pieces that split into messages which are not too long, with no rest, are all accepted; the messages that the gatherer
/// hands out are those, and nothing is begun then.
pub fn split_pieces_are_gathered()
    ensures { (max : ℕ) (pieces : List Piece) (messages : List (List ℕ)) → AreFilled pieces → SplitsInto pieces messages [] 0 → All (λ (message : List ℕ). length message ≤ max) messages
        → PiecesAreAccepted (opened max) pieces × (messages_gathered (opened max) pieces ≡ messages) × (gathered_so (opened max) pieces ≡ opened max) }
{}
