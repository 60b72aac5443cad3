ghost use Rattle.ov_wire.specs.Theorems.{OneSpelling, OneMessage, NoneBeginsAnother, OneFirstFault, SpelledOrAtFault};

/// No message has two spellings.
pub fn one_spelling()
    ensures { OneSpelling }
{}

/// No bytes spell two messages.
pub fn one_message()
    ensures { OneMessage }
{}

/// No spelling is a proper prefix of another.
pub fn none_begins_another()
    ensures { NoneBeginsAnother }
{}

/// Bytes have at most one first fault, and none if they spell a message.
pub fn one_first_fault()
    ensures { OneFirstFault }
{}

/// Bytes spell a message or have a first fault.
pub fn spelled_or_at_fault(bytes: &[u8])
    ensures { SpelledOrAtFault bytes.now }
{}
