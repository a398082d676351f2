//! What holds of every journal that was left; the functions only carry the laws.

ghost use Rattle.scfs_live.specs.GoingOn.{WalkedAreDone, WalkedAreKept};
ghost use Rattle.scfs_live.specs.Leaving.{StopsLeaveJournals};
ghost use Rattle.scfs_live.specs.RunAgain.{LeftJournalsReopen, OneRuleReopens};
ghost use Rattle.scfs_live.specs.Scheduled.{JournalsAreSchedules};
ghost use Rattle.scfs_live.specs.Stopped.{DrivenAreDone, ScriptsAreReadAgain, StoppedCallsLeave};

use scfs_policy::{RankFacts, RankRule};

/// Over what is left of the journal of a history reopening answers a world that stands for the events whose lines are whole, with the
/// kept lines as they are made now; or reading or writing failed, or memory was wanting; or the rank rule answers otherwise than before,
/// and then a line differs or an event is too large. No line is bad, and no other limit is passed.
pub fn left_journals_reopen<R: Fn(RankFacts) -> u64>(rank: &RankRule<R>)
    ensures { LeftJournalsReopen (R.post rank.now) }
{}

/// Where the rank rule has one answer for each of the facts, two histories of the same events are one. So where it gave the answers of the
/// old events too, reopening answers a world that stands for the old entries themselves, no line differs and no event is too large.
pub fn one_rule_reopens<R: Fn(RankFacts) -> u64>(rank: &RankRule<R>)
    ensures { OneRuleReopens (R.post rank.now) }
{}

/// Whatever front of what was to be written a stop leaves behind an old journal, it is left of the journal with the new events.
pub fn stops_leave_journals()
    ensures { StopsLeaveJournals }
{}

/// The events of an old journal that was run again are read again from their lines, and the program can do them.
pub fn walked_events_are_done()
    ensures { WalkedAreDone }
{}

/// The lines of an old journal that was run again are those of its history: the ones that are not left out, with those still to be kept
/// behind them.
pub fn walked_lines_are_kept()
    ensures { WalkedAreKept }
{}

/// So are the events of a script, whatever its text is.
pub fn script_events_are_read_again()
    ensures { ScriptsAreReadAgain }
{}

/// So are the events that the run of a script makes.
pub fn driven_events_are_done<R: Fn(RankFacts) -> u64>(rank: &RankRule<R>)
    ensures { DrivenAreDone (R.post rank.now) }
{}

/// What a call leaves that ran an old journal again and drove a script, whatever the byte at which it is stopped, is left of the journal
/// of its events: what reopening answers over it is said above.
pub fn stopped_calls_leave<R: Fn(RankFacts) -> u64>(rank: &RankRule<R>)
    ensures { StoppedCallsLeave (R.post rank.now) }
{}

/// The lines of an old journal that neither begin with a space nor end with `~`, and a line `end` behind them, are read as a schedule of
/// its header and its events, within the limit of an input.
pub fn journals_are_schedules()
    ensures { JournalsAreSchedules }
{}
