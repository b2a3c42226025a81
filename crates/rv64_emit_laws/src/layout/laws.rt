// The law of the layout. The function states it, and does nothing when it is called.

ghost use Rattle.rv64_emit_laws.specs.layout.Laid.{ImagesAreLaid};

/// In the image of an accepted program whose word bounds sum up to at most 250,000, and whose stack has at most 8,388,608
/// words, each item's words are at its entry, and the next item's entry is after them. So are the head, the end of the
/// program, and the words that begin and leave functions. Every word has an encoding. The last word of a guard is a guard's
/// word, and no other word is one; no two guards have one word.
pub fn images_are_laid()
    ensures { ImagesAreLaid }
{}
