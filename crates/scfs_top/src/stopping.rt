//! How a run over real clouds ends, and its last line.

ghost use Rattle.std.specs.Prelude.{◌≡◌};
ghost use Rattle.scfs_top.specs.Running.{closing_of_run, live_closing, writing_failed};

use crate::closing::{Filled, Finish, LastLine, LineFault, closing_line};
use scfs_live::LiveEnd;

/// How a run of a script ended: at the script's finish, with so many events in the whole run, reading having ended so; or by the old
/// journal, or in driving.
#[derive(Debug, Drop)]
pub enum RunEnd {
    Finished(u64, Finish, Filled),
    Stopped(LiveEnd),
}

/// Whether a run ended so because writing failed.
pub fn writing_failed(end: &RunEnd) -> bool
    ensures { result ≡ writing_failed end.now }
{
    matches!(end, RunEnd::Stopped(LiveEnd::WriteFault(_)))
}

/// The last line of a run that ended so; none where writing failed or memory was wanting.
pub fn run_line(end: RunEnd) -> Option<LastLine>
    ensures { result ≡ closing_of_run end }
{
    match end {
        RunEnd::Finished(events, finish, filled) => closing_line(events, finish, filled),
        RunEnd::Stopped(why) => live_line(why),
    }
}

/// The last line where the old journal, or driving, ended the run.
fn live_line(why: LiveEnd) -> Option<LastLine>
    ensures { result ≡ live_closing why }
{
    match why {
        LiveEnd::ReadFault(which) => Some(LastLine::ReadFault(which)),
        LiveEnd::WriteFault(_) | LiveEnd::Memory => None,
        LiveEnd::TooLarge(which) => Some(LastLine::TooLarge(which)),
        LiveEnd::Bad(bad) => Some(LastLine::BadJournal(bad.line, LineFault::Bad(bad.kind))),
        LiveEnd::Unbuilt(line) => Some(LastLine::BadJournal(line, LineFault::Unbuilt)),
        LiveEnd::Differs { line, kept, made } => Some(LastLine::Differs(line, kept, made)),
    }
}
