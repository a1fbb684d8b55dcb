//! Worked examples, by computation.

ghost use Rattle.copy_laws.specs.Worked.{GetsDo, GetsDont, PutsDo, PutsDont, TurnsSo};

/// What a put and a get of three bytes do with their pages, and, for each part of what a copy does, something that breaks it.
pub fn worked_pages()
    ensures puts { PutsDo }
    ensures no_puts { PutsDont }
    ensures gets { GetsDo }
    ensures no_gets { GetsDont }
    ensures turns { TurnsSo }
{}
