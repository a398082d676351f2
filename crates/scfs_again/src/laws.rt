//! What holds of two calls of `scfs` with the word `run`, by what its contract says of each; the functions only carry the laws.

ghost use Rattle.scfs_again.specs.Again.{CallsGoOn};
ghost use Rattle.scfs_again.specs.Behind.{OneRuleGoesOn, SecondCallsGoOn};
ghost use Rattle.scfs_again.specs.Leaving.{CallsLeaveJournals};

use scfs_policy::{RankFacts, RankRule};

/// What a call leaves, whatever its status: where it read its old journal to its end, what its new old journal has is left of the journal of
/// its history; else it wrote nothing. With another status than 5 it left that journal whole.
pub fn calls_leave_journals<R: Fn(RankFacts) -> u64>(rank: &RankRule<R>)
    ensures { CallsLeaveJournals (R.post rank.now) }
{}

/// Over what is left of a journal a call reads all of it and goes on from the events whose lines are whole; or reading failed, memory was
/// wanting, or the rank rule answers otherwise than before. It refuses no line, and no limit is passed.
pub fn calls_go_on<R: Fn(RankFacts) -> u64>(rank: &RankRule<R>)
    ensures { CallsGoOn (R.post rank.now) }
{}

/// So it is of a second call over what a first one left.
pub fn second_calls_go_on<R: Fn(RankFacts) -> u64, S: Fn(RankFacts) -> u64>(
    rank: &RankRule<R>,
    later: &RankRule<S>,
)
    ensures { SecondCallsGoOn (R.post rank.now) (S.post later.now) }
{}

/// Where both have one rank rule, with one answer for each of the facts, the second goes on from the very entries of the first, and no
/// line differs.
pub fn one_rule_goes_on<R: Fn(RankFacts) -> u64>(rank: &RankRule<R>)
    ensures { OneRuleGoesOn (R.post rank.now) }
{}
