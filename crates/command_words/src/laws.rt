//! What holds of the definitions.
ghost use Rattle.command_words.specs.Spelling.{ReadingIsSpelled};

/// The reading of words is the items that spell them.
pub fn reading_is_spelled()
    ensures { ReadingIsSpelled }
{}
