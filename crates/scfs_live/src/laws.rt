//! What drives come to, one after the other, and what becomes of stores; the functions only carry the laws.

ghost use Rattle.scfs_live.specs.Driven.{RunsBegin, RunsEnd, RunsGoOn, RunsStop};
ghost use Rattle.scfs_live.specs.Stores.{StoresAskedOnceMore, StoresComeIntoStep, StoresKeepStep, StoresStayAhead};

/// A drive with no event, and then one with each event of a script, make the run of the script: where each came to its end and no event
/// is left the run is whole; where one ended before, its events are those of the run as far as it came.
pub fn drives_make_runs()
    ensures begins { RunsBegin }
    ensures goes_on { RunsGoOn }
    ensures stops { RunsStop }
    ensures ends { RunsEnd }
{}

/// A store in step with a history stays in step over new events, and one that was one ahead comes into step with its cloud's first answer
/// that is no failure; such a cloud neither lies nor is stale in them. With no answer, or where the oldest request was asked once more, it is
/// in step or one ahead.
pub fn stores_keep_step()
    ensures keeps { StoresKeepStep }
    ensures comes { StoresComeIntoStep }
    ensures stays { StoresStayAhead }
    ensures once_more { StoresAskedOnceMore }
{}
