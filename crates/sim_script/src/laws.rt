//! Laws of scripts. Each is the contract of a function that does nothing.

ghost use Rattle.std.specs.Prelude.{◌≡◌, ◌≢◌, ◌++◌, ◌<◌, ℕ, List, [], ◌∷◌, length, map, Option, Some, None, All};
ghost use Rattle.event_log.specs.Lines.{lines_text};
ghost use Rattle.sim_script.specs.declared.script_line.ScriptLine.{ScriptLine as Said};
ghost use Rattle.sim_script.specs.Scripts.{IsLawfulLine, line_text, script_line, lines_in, first_bad_line, choice_of, script_of};

/// A written line reads as what was written, and nothing but its one written form reads as a line.
pub fn written_lines_are_read()
    ensures read { (line : Said) → IsLawfulLine line → script_line (line_text line) ≡ Some line }
    ensures alone { (bytes : List ℕ) (line : Said) → script_line bytes ≡ Some line →
        IsLawfulLine line × (bytes ≡ line_text line) }
{}

/// Different lines are written differently.
pub fn written_lines_differ()
    ensures { (line next : Said) → IsLawfulLine line → IsLawfulLine next → line_text line ≡ line_text next → line ≡ next }
{}

/// No line has a line feed inside. A text of lines with a line feed after each falls apart into just these lines, and so
/// does one where the last line lacks it, if that is not empty.
pub fn lines_end_at_line_feeds()
    ensures inside { (line : Said) → IsLawfulLine line → All (λ b. b ≢ 10) (line_text line) }
    ensures ended { (lines : List (List ℕ)) → All (λ line. All (λ b. b ≢ 10) line) lines → lines_in (lines_text lines) ≡ lines }
    ensures unended { (lines : List (List ℕ)) (last : List ℕ) → All (λ line. All (λ b. b ≢ 10) line) lines → All (λ b. b ≢ 10) last →
        0 < length last → lines_in (lines_text lines ++ last) ≡ lines ++ last ∷ [] }
{}

/// A script of written lines has no bad line, and makes the choices of these lines in order.
pub fn written_scripts_are_read()
    ensures good { (lines : List Said) → All IsLawfulLine lines → first_bad_line (lines_text (map line_text lines)) ≡ None }
    ensures choices { (lines : List Said) → All IsLawfulLine lines → script_of (lines_text (map line_text lines)) ≡ map choice_of lines }
{}
