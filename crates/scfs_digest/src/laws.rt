ghost use Rattle.scfs_digest.specs.Texts.{PrefixesTellApart, TextsTellApart};

/// A law of the digested texts: under different prefix bytes they differ.
pub fn prefixes_tell_apart()
    ensures { PrefixesTellApart }
{}

/// A law of the digested texts: different subjects have different texts. So under one prefix byte a text tells
/// cloud and piece; seed, agent, incarnation (below 2^24) and count (below 2^32); seed and agent.
pub fn texts_tell_apart()
    ensures { TextsTellApart }
{}
