//! Worked command lines.

ghost use Rattle.command_words.specs.Worked.{CopiesSo, LoadsSo, SimsSo, ShowsSo, RangesSo, RefusesSo};

/// Worked command lines: what words name, lawful and not. It does nothing. Its contract is proved by computation, and shows what the
/// definitions say.
pub fn worked_words()
    ensures copies { CopiesSo }
    ensures loads { LoadsSo }
    ensures sims { SimsSo }
    ensures shows { ShowsSo }
    ensures ranges { RangesSo }
    ensures refusals { RefusesSo }
{}
