ghost use Rattle.std.specs.Prelude.{◌≡◌, ◌≤◌, ◌<◌, ◌+◌, ◌*◌, List, Some, None, IfErr, IfOk, IfSome, length, map};
ghost use Rattle.std.specs.Option.{option_copied};
ghost use Rattle.scfs_base.specs.Limits.{events_limit};
ghost use Rattle.scfs_model.specs.History.{History};
ghost use Rattle.scfs_policy.specs.Rank.{IsRankRule};
ghost use Rattle.scfs_schedule.specs.Grammar.{IsEvent};
ghost use Rattle.scfs_schedule.specs.declared.types.Header.{Header};
ghost use Rattle.scfs_world.specs.Built.{is_built};
ghost use Rattle.scfs_world.specs.Happening.{IsPlayed, Stands};
ghost use Rattle.scfs_world.specs.Stepping.{IsShown, IsWorld};
ghost use Rattle.scfs_live.specs.Asked.{Told, told};
ghost use Rattle.scfs_live.specs.Drives.{Drives, Ends, Going, StandsForSome};
ghost use Rattle.scfs_live.specs.Able.{CanBeDone, CanBeGiven, CanBeNext, Fits};
ghost use Rattle.scfs_live.specs.Driving.{begins_with};
ghost use Rattle.scfs_live.specs.Recording.{HasCauses};
ghost use Rattle.scfs_live.specs.declared.ending.LiveEnd.TheVariants as LiveEnd;
ghost use Rattle.scfs_model.specs.UnitFormat.{under};
ghost use Rattle.scfs_live.specs.Turning.{Advanced, Turned};
ghost use Rattle.scfs_live.specs.Waits.{waits_in};

use crate::driver::{Driver, Next};
use crate::ending::LiveEnd;
use crate::hearing::heard;
use crate::recording::write_event;
use scfs_base::{Memory, Sink};
use scfs_cloud::Cloud;
use scfs_policy::{RankFacts, RankRule};
use scfs_schedule::{Event, Which};
use scfs_world::{StepFault, World, standing_worlds_are_shown, states_are_whole};
use std::alloc::Global;

/// How many events one run may have.
const EVENTS_LIMIT: u64 = 1_000_000;

/// Does an event and records it.
fn turn<O: Sink, J: Sink, R: Fn(RankFacts) -> u64>(
    alloc: Global,
    world: World,
    event: &Event,
    out: &mut O,
    journal: &mut J,
    rank: &RankRule<R>,
) -> Result<World, LiveEnd>
    requires world { IsWorld world }
    requires shown { IsShown world }
    requires event { CanBeDone world.header event.now }
    requires room { world.events < events_limit }
    requires rank { IsRankRule (R.pre rank.now) }
    ensures turned { (header : Header) (past : History) → Stands world header past → IsPlayed (R.post rank.now) header past →
        Turned (R.post rank.now) header past (λ given. given ≡ event.now) (J.written journal.old) (J.written journal.new)
        (O.written out.old) (O.written out.new) result }
    ensures world { IfOk result (λ next. IsWorld next × (next.header ≡ world.header) × (next.events ≡ world.events + 1)) }
    ensures causes { HasCauses (J.faults journal.old) (J.faults journal.new) (O.faults out.old) (O.faults out.new) result }
{
    states_are_whole();
    match world.step(event, rank) {
        Ok(stepped) => write_event(alloc, stepped, event, out, journal),
        Err(end) => match end.fault {
            StepFault::TooLarge => Err(LiveEnd::TooLarge(Which::Objects)),
            StepFault::Memory => Err(LiveEnd::Memory),
        },
    }
}

/// Does what comes next and records it, unless as many events as there may be stand.
fn advance<C: Cloud, O: Sink, J: Sink, R: Fn(RankFacts) -> u64>(
    alloc: Global,
    world: World,
    next: Next,
    clouds: &mut [C],
    out: &mut O,
    journal: &mut J,
    rank: &RankRule<R>,
) -> Result<World, LiveEnd>
    requires world { IsWorld world }
    requires shown { IsShown world }
    requires next { CanBeNext world.header (waits_in world) next }
    requires clouds { 3 * world.header.f + 1 ≤ length clouds.old }
    requires room { world.events ≤ events_limit }
    requires rank { IsRankRule (R.pre rank.now) }
    ensures advanced { (header : Header) (past : History) → Stands world header past → IsPlayed (R.post rank.now) header past →
        Advanced (R.post rank.now) header past next (map (λ c. told (C.faults c) (C.log c) (C.store c)) clouds.old)
        (map (λ c. told (C.faults c) (C.log c) (C.store c)) clouds.new) (J.written journal.old) (J.written journal.new)
        (O.written out.old) (O.written out.new) result }
    ensures world { IfOk result (λ next. IsWorld next × (next.header ≡ world.header) × (next.events ≡ world.events + 1)) }
    ensures few { IfOk result (λ next. next.events ≤ events_limit) }
    ensures clouds { length clouds.new ≡ length clouds.old }
    ensures causes { HasCauses (J.faults journal.old) (J.faults journal.new) (O.faults out.old) (O.faults out.new) result }
{
    if world.events() == EVENTS_LIMIT {
        return Err(LiveEnd::TooLarge(Which::Events));
    }
    match heard(alloc, next, &world, clouds) {
        Ok(event) => turn(alloc, world, &event, out, journal, rank),
        Err(Memory) => Err(LiveEnd::Memory),
    }
}

/// Where no event was given nothing is done first.
fn begin_settling(alloc: Global, world: World) -> Result<(World, Driver), LiveEnd>
    requires world { IsWorld world }
    ensures begun { IfOk result (λ begun. (begun.0 ≡ world) × (begun.1 ≡ begins_with (under world.header) None)) }
    ensures ended { IfErr result (λ end. end ≡ LiveEnd.Memory) }
{
    match Driver::settling(alloc, world.header()) {
        Ok(driver) => Ok((world, driver)),
        Err(Memory) => Err(LiveEnd::Memory),
    }
}

/// Does the event that was given.
fn begin_with<O: Sink, J: Sink, R: Fn(RankFacts) -> u64>(
    alloc: Global,
    world: World,
    event: &Event,
    out: &mut O,
    journal: &mut J,
    rank: &RankRule<R>,
) -> Result<(World, Driver), LiveEnd>
    requires world { IsWorld world }
    requires shown { IsShown world }
    requires event { CanBeGiven world.header event.now }
    requires room { world.events ≤ events_limit }
    requires rank { IsRankRule (R.pre rank.now) }
    ensures begun { IfOk result (λ begun. (header : Header) (past : History) (clouds : List Told) → Stands world header past →
        IsPlayed (R.post rank.now) header past →
        Going (R.post rank.now) header (Some event.now) past begun.0 begun.1 (J.written journal.old) (J.written journal.new)
        (O.written out.old) (O.written out.new) clouds clouds) }
    ensures ended { IfErr result (λ end. (header : Header) (past : History) (clouds : List Told) → Stands world header past →
        IsPlayed (R.post rank.now) header past →
        Ends (R.post rank.now) end header (Some event.now) past (J.written journal.old) (J.written journal.new)
        (O.written out.old) (O.written out.new) clouds clouds) }
    ensures world { IfOk result (λ begun. IsWorld begun.0 × (begun.0.header ≡ world.header) × (begun.0.events ≤ events_limit)) }
    ensures driver { IfOk result (λ begun. Fits world.header begun.1) }
    ensures causes { HasCauses (J.faults journal.old) (J.faults journal.new) (O.faults out.old) (O.faults out.new) result }
{
    if world.events() == EVENTS_LIMIT {
        return Err(LiveEnd::TooLarge(Which::Events));
    }
    match Driver::begun(alloc, world.header(), event) {
        Ok(driver) => match turn(alloc, world, event, out, journal, rank) {
            Ok(world) => Ok((world, driver)),
            Err(end) => Err(end),
        },
        Err(Memory) => Err(LiveEnd::Memory),
    }
}

/// Does the event that was given, if there is one.
fn begin<O: Sink, J: Sink, R: Fn(RankFacts) -> u64>(
    alloc: Global,
    world: World,
    event: Option<&Event>,
    out: &mut O,
    journal: &mut J,
    rank: &RankRule<R>,
) -> Result<(World, Driver), LiveEnd>
    requires world { IsWorld world }
    requires shown { IsShown world }
    requires event { IfSome (option_copied event) (CanBeGiven world.header) }
    requires room { world.events ≤ events_limit }
    requires rank { IsRankRule (R.pre rank.now) }
    ensures begun { IfOk result (λ begun. (header : Header) (past : History) (clouds : List Told) → Stands world header past →
        IsPlayed (R.post rank.now) header past →
        Going (R.post rank.now) header (option_copied event.entry) past begun.0 begun.1 (J.written journal.old) (J.written journal.new)
        (O.written out.old) (O.written out.new) clouds clouds) }
    ensures ended { IfErr result (λ end. (header : Header) (past : History) (clouds : List Told) → Stands world header past →
        IsPlayed (R.post rank.now) header past →
        Ends (R.post rank.now) end header (option_copied event.entry) past (J.written journal.old) (J.written journal.new)
        (O.written out.old) (O.written out.new) clouds clouds) }
    ensures world { IfOk result (λ begun. IsWorld begun.0 × (begun.0.header ≡ world.header) × (begun.0.events ≤ events_limit)) }
    ensures driver { IfOk result (λ begun. Fits world.header begun.1) }
    ensures causes { HasCauses (J.faults journal.old) (J.faults journal.new) (O.faults out.old) (O.faults out.new) result }
{
    match event {
        None => begin_settling(alloc, world),
        Some(event) => begin_with(alloc, world, event, out, journal, rank),
    }
}

/// Does the event, if one is given, and then all that settling demands; where the event is a call that is unanswered then, its agent
/// has a turn and all is settled, up to eight times.
pub fn drive<C: Cloud, O: Sink, J: Sink, R: Fn(RankFacts) -> u64>(
    alloc: Global,
    world: World,
    event: Option<&Event>,
    clouds: &mut [C],
    out: &mut O,
    journal: &mut J,
    rank: &RankRule<R>,
) -> Result<World, LiveEnd>
    requires world { IsWorld world }
    requires stands { StandsForSome (R.post rank.now) world }
    requires event { IfSome (option_copied event) (CanBeGiven world.header) }
    requires clouds { 3 * world.header.f + 1 ≤ length clouds.old }
    requires room { world.events ≤ events_limit }
    requires rank { IsRankRule (R.pre rank.now) }
    ensures drives { IfOk result (λ after. (header : Header) (past : History) → Stands world header past →
        IsPlayed (R.post rank.now) header past →
        Drives (R.post rank.now) header (option_copied event.entry) past after (J.written journal.old) (J.written journal.new)
        (O.written out.old) (O.written out.new) (map (λ c. told (C.faults c) (C.log c) (C.store c)) clouds.old)
        (map (λ c. told (C.faults c) (C.log c) (C.store c)) clouds.new)) }
    ensures ends { IfErr result (λ end. (header : Header) (past : History) → Stands world header past →
        IsPlayed (R.post rank.now) header past →
        Ends (R.post rank.now) end header (option_copied event.entry) past (J.written journal.old) (J.written journal.new)
        (O.written out.old) (O.written out.new) (map (λ c. told (C.faults c) (C.log c) (C.store c)) clouds.old)
        (map (λ c. told (C.faults c) (C.log c) (C.store c)) clouds.new)) }
    ensures world { IfOk result (λ after. IsWorld after × (after.header ≡ world.header) × (after.events ≤ events_limit)) }
    ensures causes { HasCauses (J.faults journal.old) (J.faults journal.new) (O.faults out.old) (O.faults out.new) result }
{
    standing_worlds_are_shown();
    let (mut world, mut driver) = match begin(alloc, world, event, out, journal, rank) {
        Ok(begun) => begun,
        Err(end) => return Err(end),
    };
    'events: loop {
        let Ok(found) = driver.next(&world) else {
            return Err(LiveEnd::Memory);
        };
        let Some(next) = found else {
            return Ok(world);
        };
        match advance(alloc, world, next, clouds, out, journal, rank) {
            Ok(after) => world = after,
            Err(end) => return Err(end),
        }
    }
}
