//! A run of a script over real clouds.

ghost use Rattle.std.specs.Prelude.{◌≡◌, ◌≤◌, ◌+◌, [], List, IfErr, IfOk, length, map, true};
ghost use Rattle.scfs_policy.specs.Rank.{IsRankRule};
ghost use Rattle.scfs_schedule.specs.Grammar.{IsHeader};
ghost use Rattle.scfs_schedule.specs.Reading.{IsAtEvents};
ghost use Rattle.scfs_schedule.specs.declared.types.Event.{Event};
ghost use Rattle.scfs_schedule.specs.declared.types.Header.{Header};
ghost use Rattle.scfs_live.specs.Asked.{told};
ghost use Rattle.scfs_world.specs.Built.{is_built_header};
ghost use Rattle.scfs_top.specs.Giving.{IsFresh};
ghost use Rattle.scfs_top.specs.Outer.{SourceView, sink, source};
ghost use Rattle.scfs_top.specs.Running.{Runs};
ghost use Rattle.scfs_top.specs.Underway.{GivesEvent, ReadsHeader, ScriptSoFar};

use crate::closing::{Filled, Finish};
use crate::intake::{Given, Intake};
use crate::stopping::RunEnd;
use scfs_base::{Sink, Source};
use scfs_cloud::Cloud;
use scfs_durable::{serving_is_faithful, stored_names_are_uploads, versions_stay_safe};
use scfs_laws::{opens_are_newest, reads_are_held, runs_without_clash};
use scfs_live::{LiveEnd, drive, reopen, stores_keep_step};
use scfs_policy::{RankFacts, RankRule};
use scfs_schedule::{Event, Header};
use scfs_world::{is_built, is_built_header};
use std::alloc::Global;

/// Reads the script's header.
fn read_header<I: Source>(intake: &mut Intake, input: &mut I) -> Result<Header, RunEnd>
    requires fresh { IsFresh true intake.old }
    ensures reads { ReadsHeader (source (I.left input.old) (I.ends input.old) (I.faults input.old))
        (source (I.left input.new) (I.ends input.new) (I.faults input.new)) intake.new result }
    ensures header { IfOk result (λ header. IsHeader header × (is_built_header header ≡ true)) }
{
    match intake.next_alone(input) {
        Given::Memory => Err(RunEnd::Stopped(LiveEnd::Memory)),
        Given::Ended(ending, filled) => Err(RunEnd::Finished(0, Finish::Text(ending), filled)),
        Given::Event(_) => unreachable!(),
        Given::Header(header) => {
            if !is_built_header(&header) {
                let finish = Finish::Unbuilt(intake.line());
                return Err(RunEnd::Finished(0, finish, Filled::Open));
            }
            Ok(header)
        }
    }
}

/// The script's next event; with `count` events in the run so far.
fn next_event<I: Source>(intake: &mut Intake, input: &mut I, count: u64) -> Result<Event, RunEnd>
    requires begun { (header : Header) × IsAtEvents intake.old.reader header }
    ensures gives { (first : SourceView) (header : Header) (done : List Event) →
        (so_far : ScriptSoFar first (source (I.left input.old) (I.ends input.old) (I.faults input.old)) intake.old header done) →
        GivesEvent so_far.taken first (source (I.left input.new) (I.ends input.new) (I.faults input.new)) intake.new header done count result }
{
    match intake.next_alone(input) {
        Given::Memory => Err(RunEnd::Stopped(LiveEnd::Memory)),
        Given::Ended(ending, filled) => Err(RunEnd::Finished(count, Finish::Text(ending), filled)),
        Given::Header(_) => unreachable!(),
        Given::Event(event) => {
            if !is_built(&event) {
                let finish = Finish::Unbuilt(intake.line());
                return Err(RunEnd::Finished(count, finish, Filled::Open));
            }
            Ok(event)
        }
    }
}

/// Runs a script over real clouds: reads its header, and the old journal to its end, which is run again; then settles what waits, and
/// drives the script event by event.
pub fn run<I: Source, L: Source, O: Sink, J: Sink, C: Cloud, R: Fn(RankFacts) -> u64>(
    alloc: Global,
    input: &mut I,
    old: &mut L,
    out: &mut O,
    journal: &mut J,
    clouds: &mut [C],
    rank: &RankRule<R>,
) -> RunEnd
    requires clouds { 10 ≤ length clouds.old }
    requires rank { IsRankRule (R.pre rank.now) }
    ensures runs { Runs (R.post rank.now) (source (I.left input.old) (I.ends input.old) (I.faults input.old))
        (source (I.left input.new) (I.ends input.new) (I.faults input.new)) (source (L.left old.old) (L.ends old.old) (L.faults old.old))
        (source (L.left old.new) (L.ends old.new) (L.faults old.new)) (sink (O.written out.old) (O.faults out.old))
        (sink (O.written out.new) (O.faults out.new)) (sink (J.written journal.old) (J.faults journal.old))
        (sink (J.written journal.new) (J.faults journal.new)) (map (λ c. told (C.faults c) (C.log c) (C.store c)) clouds.old)
        (map (λ c. told (C.faults c) (C.log c) (C.store c)) clouds.new) result }
    ensures later_out { O.faults out.old ≤ O.faults out.new }
    ensures later_journal { J.faults journal.old ≤ J.faults journal.new }
{
    reads_are_held();
    opens_are_newest();
    versions_stay_safe();
    runs_without_clash();
    stored_names_are_uploads();
    serving_is_faithful();
    stores_keep_step();
    let mut intake = Intake::new(alloc, true);
    let header = match read_header(&mut intake, input) {
        Ok(header) => header,
        Err(end) => return end,
    };
    let mut world = match reopen(alloc, &header, old, journal, rank) {
        Ok(world) => world,
        Err(why) => return RunEnd::Stopped(why),
    };
    let mut given = None;
    'events: loop {
        match drive(alloc, world, given.as_ref(), clouds, out, journal, rank) {
            Ok(after) => world = after,
            Err(why) => return RunEnd::Stopped(why),
        }
        match next_event(&mut intake, input, world.events()) {
            Ok(event) => given = Some(event),
            Err(end) => return end,
        }
    }
}
