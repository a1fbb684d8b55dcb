//! The messages that an end delivers (MS-SMBD 3.1.5.8).

ghost use Rattle.std.specs.Prelude.{◌≡◌, ◌⊎◌, ◌+◌, ◌^◌, ◌<◌, ◌≤◌, ℕ, true, false, List, [], length, take};
ghost use Rattle.std.specs.List.{flat_map};
ghost use mathlib.Core.List.{IsPrefix};
ghost use Rattle.smbd_base.specs.declared.end_id.EndId.{EndId as Side};
ghost use Rattle.smbd_base.specs.declared.end_id.EndId.TheVariants.{Client, Server};
ghost use Rattle.smbd_base.specs.declared.event.Event.{Event as Happening};
ghost use Rattle.smbd_base.specs.Limits.{Limits, IsLawful};
ghost use Rattle.smbd_base.specs.Counts.{peer_of};
ghost use Rattle.smbd_base.specs.Pieces.{AreFilled, pieces_of};
ghost use Rattle.smbd_base.specs.Delivery.{Delivers, messages_delivered, pieces_taken};
ghost use Rattle.smbd_base.specs.Joint.{AreLinked, AreAccepted, emitted_frames, taken_frames};
ghost use Rattle.smbd_base.specs.History.{is_agreed, messages_submitted, payload_size, pieces_sent, settled, IsLegal};

/// The pieces that an end took, none of them empty, split into just the messages that it delivered.
pub fn deliveries_are_splits()
    ensures split { (side : Side) (limits : Limits) (past : List Happening) → Delivers side limits past (messages_delivered side limits past) }
    ensures filled { (side : Side) (limits : Limits) (past : List Happening) → AreFilled (pieces_taken side limits past) }
{}

/// Of two ends, each with its own limits, each delivers the first of the messages that were submitted at the other: whole,
/// once and in order. `either` says so of any sender that follows its rules, and an end that refused none of its frames; of
/// what the sender took it asks only that the MaxFragmentedSize in it fits its field of 32 bits.
pub fn delivery()
    ensures server { (client_limits server_limits : Limits) (client server : List Happening) → IsLawful client_limits → IsLawful server_limits
        → AreLinked client_limits server_limits client server
        → IsPrefix (messages_delivered Server server_limits server) (messages_submitted client) }
    ensures client { (client_limits server_limits : Limits) (client server : List Happening) → IsLawful client_limits → IsLawful server_limits
        → AreLinked client_limits server_limits client server
        → IsPrefix (messages_delivered Client client_limits client) (messages_submitted server) }
    ensures either { (side : Side) (own other : Limits) (taker sender : List Happening) → IsLawful own → IsLawful other
        → IsLegal (peer_of side) other sender → AreAccepted side own taker → IsPrefix (taken_frames taker) (emitted_frames sender)
        → (settled (peer_of side) other sender).message_max < 2 ^ 32
        → IsPrefix (messages_delivered side own taker) (messages_submitted sender) }
{}

/// An end that has taken all frames of its peer, each of the two with its own limits, has delivered just those messages of
/// which every piece was sent: the first `n` that were submitted, where all their pieces were sent, and not all of the next
/// one, or there is none. `agreed` says so of a sender that has agreed; of one that has not, nothing was delivered.
pub fn delivery_keeps_pace()
    ensures agreed { (side : Side) (own other : Limits) (taker sender : List Happening) (n : ℕ) → IsLawful own → IsLawful other
        → IsLegal (peer_of side) other sender → AreAccepted side own taker → taken_frames taker ≡ emitted_frames sender
        → is_agreed (peer_of side) other sender ≡ true → (settled (peer_of side) other sender).message_max < 2 ^ 32
        → length (flat_map (pieces_of (payload_size (peer_of side) other sender)) (take n (messages_submitted sender))) ≤ pieces_sent sender
        → pieces_sent sender < length (flat_map (pieces_of (payload_size (peer_of side) other sender)) (take (n + 1) (messages_submitted sender))) ⊎ length (messages_submitted sender) ≤ n
        → messages_delivered side own taker ≡ take n (messages_submitted sender) }
    ensures before { (side : Side) (own other : Limits) (taker sender : List Happening) → IsLawful own → IsLawful other
        → IsLegal (peer_of side) other sender → AreAccepted side own taker → IsPrefix (taken_frames taker) (emitted_frames sender)
        → is_agreed (peer_of side) other sender ≡ false → messages_delivered side own taker ≡ [] }
{}
