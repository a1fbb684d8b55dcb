//! That reading and writing fit together.

ghost use Rattle.std.specs.Prelude.{◌≡◌, ◌++◌, List, ℕ, length};
ghost use Rattle.smbd_base.specs.DataFrame.{data_frame_of};
ghost use Rattle.transfer_msg.specs.declared.header.Header.{Header};
ghost use Rattle.transfer_msg.specs.Written.{FieldsFit, header_text, written_frame};

/// The bytes that `write` gives for a header, and then a payload of its length, read as that header and payload.
pub fn written_messages_are_read()
    ensures { (header : Header) (payload : List ℕ) → FieldsFit header → length payload ≡ header.length →
        data_frame_of (header_text header ++ payload) ≡ Ok (written_frame header payload) }
{}
