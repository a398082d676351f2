//! What holds of every history; the functions only carry the laws.

ghost use Rattle.scfs_world.specs.Happening.{StandingAreShown};
ghost use Rattle.scfs_world.specs.Whole.{StatesAreWhole};

/// What a history of fewer than 2^24 events leaves is whole: no step that waits makes a file of an id that is there, and each reply that
/// waits is that of the step which its agent asked under its number.
pub fn states_are_whole()
    ensures { StatesAreWhole }
{}

/// A world that stands for a history of fewer than 2^24 events which happened shows a whole state, and so can be given an event.
pub fn standing_worlds_are_shown()
    ensures { StandingAreShown }
{}
