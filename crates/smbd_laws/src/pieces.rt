//! How pieces make messages, and messages make pieces (MS-SMBD 3.1.5.1 and 3.1.5.8).

ghost use Rattle.std.specs.Prelude.{◌≡◌, ◌<◌, ◌≤◌, ℕ, List, length};
ghost use Rattle.std.specs.List.{All};
ghost use Rattle.smbd_base.specs.Pieces.{Piece, SplitsInto, AreFilled, IsWhole, pieces_of, joined};

/// Pieces split into messages in at most one way, since none of them is empty: a run ends just where nothing remains.
pub fn pieces_split_one_way()
    ensures { (pieces : List Piece) (messages others : List (List ℕ)) (rest other : List Piece) (expected also : ℕ) → AreFilled pieces
        → SplitsInto pieces messages rest expected → SplitsInto pieces others other also
        → (messages ≡ others) × (rest ≡ other) × (expected ≡ also) }
{}

/// The pieces of a message have at most `size` bytes each, none is empty, and they are the message when joined, an unbroken run.
pub fn pieces_join()
    ensures joined { (size : ℕ) (message : List ℕ) → 0 < size → joined (pieces_of size message) ≡ message }
    ensures whole { (size : ℕ) (message : List ℕ) → 0 < size → 0 < length message → IsWhole (pieces_of size message) }
    ensures filled { (size : ℕ) (message : List ℕ) → 0 < size → AreFilled (pieces_of size message) }
    ensures small { (size : ℕ) (message : List ℕ) → All (λ (p : Piece). length p.payload ≤ size) (pieces_of size message) }
{}
