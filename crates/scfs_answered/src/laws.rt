//! What holds of opens; the functions only carry the laws.

ghost use Rattle.scfs_answered.specs.Answered.{OpensAreAnswered, SafeVersionsAreOpened};

/// An open that is given the own objects of more than f clouds, in answer to Gets that it asked, before its eighth turn, is answered
/// from the clouds with the version that it saw, whatever all other clouds answer. No two blocks need to differ in their digests.
pub fn opens_are_answered()
    ensures { OpensAreAnswered }
{}

/// So an open of a safe version is answered, where the clouds that hold its objects gave them. Nothing is said of whether they do.
pub fn safe_versions_are_opened()
    ensures { SafeVersionsAreOpened }
{}
