//! Worked examples of lines.

ghost use Rattle.std.specs.Prelude.{◌≡◌, map};
ghost use Rattle.event_log.specs.Reading.{reading_of};
ghost use Rattle.event_log.specs.Worked.{worked_lines, worked_faults, TellsPages};

/// What some texts say as lines, and why others say nothing.
pub fn worked_texts()
    ensures lines { map (λ text. reading_of text.0) worked_lines ≡ map (λ text. text.1) worked_lines }
    ensures pages { TellsPages }
    ensures faults { map (λ text. reading_of text.0) worked_faults ≡ map (λ text. text.1) worked_faults }
{}
