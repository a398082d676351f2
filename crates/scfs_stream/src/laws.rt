ghost use Rattle.scfs_stream.specs.Laws.{UndoesItself, IsMadeOfWords};

/// A law of the cipher: adding a key's stream twice gives the bytes back.
pub fn undoes_itself()
    ensures { UndoesItself }
{}

/// A law of the stream: its first 4n bytes are its first n words, each as 4 bytes with the low byte first.
pub fn is_made_of_words()
    ensures { IsMadeOfWords }
{}
