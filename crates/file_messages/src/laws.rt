//! Laws of written messages. Each is the contract of a function that does nothing.

ghost use Rattle.file_messages.specs.Written.{InlineWritesAreRead, InlineReadsAreRead, RegisteredAreRead, EndsAreRead, RepliesAreRead, PutsAreRead, GetsAreRead};

/// A written request is read as it was written: each WRITE and READ of 1 to 65,536 bytes, with registered pages or
/// without, and END.
pub fn written_requests_are_read()
    ensures writes { InlineWritesAreRead }
    ensures reads { InlineReadsAreRead }
    ensures registered { RegisteredAreRead }
    ensures ends { EndsAreRead }
{}

/// A written reply that answers what was asked is read as it was written.
pub fn written_replies_are_read()
    ensures { RepliesAreRead }
{}

/// The requests of a copy are read as they were written: each one of a put over a lawful pool, or of a get, of fewer than
/// 2^39 bytes.
pub fn requests_of_copies_are_read()
    ensures puts { PutsAreRead }
    ensures gets { GetsAreRead }
{}
