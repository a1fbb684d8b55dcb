//! Laws of the lines of a log. Each is the contract of a function that does nothing.

ghost use Rattle.std.specs.Prelude.{◌≡◌, ◌≢◌, ◌++◌, ◌==◌, ℕ, List, [], ◌∷◌, Ok, All};
ghost use Rattle.std.specs.List.{slice_split};
ghost use Rattle.event_log.specs.declared.side.Side.{Side as Whose};
ghost use Rattle.event_log.specs.declared.log_line.LogLine.{LogLine as Told};
ghost use Rattle.event_log.specs.Lines.{IsLawfulLine, line_text, lines_text};
ghost use Rattle.event_log.specs.Reading.{reading_of};

/// A written line reads as what was written, and nothing but its one written form reads as a line.
pub fn written_lines_are_read()
    ensures read { (side : Whose) (line : Told) → IsLawfulLine side line → reading_of (line_text side line) ≡ Ok (side, line) }
    ensures alone { (bytes : List ℕ) (side : Whose) (line : Told) → reading_of bytes ≡ Ok (side, line) →
        IsLawfulLine side line × (bytes ≡ line_text side line) }
{}

/// Different lines are written differently.
pub fn written_lines_differ()
    ensures { (side other : Whose) (line next : Told) → IsLawfulLine side line → IsLawfulLine other next →
        line_text side line ≡ line_text other next → (side ≡ other) × (line ≡ next) }
{}

/// No line has a line feed inside, so a text of lines falls apart at its line feeds into just these lines.
pub fn lines_end_at_line_feeds()
    ensures inside { (side : Whose) (line : Told) → IsLawfulLine side line → All (λ b. b ≢ 10) (line_text side line) }
    ensures apart { (lines : List (List ℕ)) → All (λ line. All (λ b. b ≢ 10) line) lines →
        slice_split (λ b. b == 10) (lines_text lines) ≡ lines ++ [] ∷ [] }
{}
