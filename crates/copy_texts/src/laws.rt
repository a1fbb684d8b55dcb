//! What a text fixes.

ghost use Rattle.copy_texts.specs.Texts.{TextsFix};

/// The text of a log, with the bytes of the copy, fixes both histories and the lists of all workers.
pub fn texts_fix_what_they_tell()
    ensures { TextsFix }
{}
