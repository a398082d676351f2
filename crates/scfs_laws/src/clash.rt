//! What holds of every history of sealed units, where no two different blocks share a digest; the functions only carry the laws.

ghost use Rattle.scfs_laws.specs.Laws.{NoClashBefore, RunsWithoutClash, SoundWithoutClash};

/// Of fewer blocks no two clash: a history without its newest event has no further blocks.
pub fn no_clash_before()
    ensures { NoClashBefore }
{}

/// Where no two different blocks of a history share a digest, each open got from the clouds what was closed.
pub fn sound_without_clash()
    ensures { SoundWithoutClash }
{}

/// Where no two different blocks of a history share a digest, what happens is a run of the file map.
pub fn runs_without_clash()
    ensures { RunsWithoutClash }
{}
