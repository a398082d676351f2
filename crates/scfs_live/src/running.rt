ghost use Rattle.std.specs.Prelude.{◌≡◌, ◌≤◌, ◌<◌, ◌↔◌, true, [], ℕ, map, IfOk, IsTrue};
ghost use Rattle.scfs_base.specs.Limits.{events_limit};
ghost use Rattle.scfs_policy.specs.Rank.{IsRankRule};
ghost use Rattle.scfs_schedule.specs.Grammar.{IsEvent, IsHeader};
ghost use Rattle.scfs_schedule.specs.declared.types.Header.{Header};
ghost use Rattle.scfs_world.specs.Built.{is_built, is_built_header};
ghost use Rattle.scfs_world.specs.Stepping.{IsShown, IsWorld};
ghost use Rattle.scfs_world.specs.Happening.{IsPlayed, Stands};
ghost use Rattle.scfs_live.specs.Finding.{IsUnder, found};
ghost use Rattle.scfs_live.specs.Keeping.{made_line, unkept};
ghost use Rattle.scfs_live.specs.Reopening.{GoesOn, IsAt, Walk};
ghost use Rattle.scfs_live.specs.declared.finding.Found.TheVariants as founds;

use crate::LiveEnd;
use crate::awaited::Awaited;
use crate::finding::Found;
use crate::limits::EVENTS_LIMIT;
use scfs_base::{Bytes, Memory};
use scfs_policy::{RankFacts, RankRule};
use scfs_schedule::{Bad, Event, Header, Which};
use scfs_world::{StepFault, Stepped, World, is_built, states_are_whole};
use std::alloc::Global;

/// An old journal that is run again: the world after its events so far, and what is still to be kept of what was made.
#[derive(Drop)]
pub struct Running {
    pub world: World,
    pub awaited: Awaited,
}

/// A world after an event, of whose lines none is kept yet.
fn after_event(alloc: Global, stepped: Stepped) -> Result<Running, Memory>
    ensures { IfOk result (λ next. next ≡ record {
      world = stepped.world;
      awaited = record { header = []; lines = map (made_line stepped.world.events) stepped.lines };
    }) }
{
    let Stepped { world, lines } = stepped;
    let awaited = Awaited::of_event(alloc, world.events(), lines.as_slice())?;
    Ok(Running { world, awaited })
}

/// Plays the event of a line.
fn step<R: Fn(RankFacts) -> u64>(
    alloc: Global,
    world: World,
    event: &Event,
    rank: &RankRule<R>,
) -> Result<Running, LiveEnd>
    requires world { IsWorld world }
    requires shown { IsShown world }
    requires event { IsEvent world.header event.now }
    requires built { is_built event.now ≡ true }
    requires room { world.events < events_limit }
    requires rank { IsRankRule (R.pre rank.now) }
    ensures { (header : Header) (place : Walk) (number : ℕ) → Stands world header place.past → IsPlayed (R.post rank.now) header place.past →
        GoesOn (R.post rank.now) header place number (founds.Does event.now) result }
{
    states_are_whole();
    match world.step(event, rank) {
        Ok(stepped) => match after_event(alloc, stepped) {
            Ok(running) => Ok(running),
            Err(Memory) => Err(LiveEnd::Memory),
        },
        Err(end) => match end.fault {
            StepFault::TooLarge => Err(LiveEnd::TooLarge(Which::Objects)),
            StepFault::Memory => Err(LiveEnd::Memory),
        },
    }
}

/// Whether so many events are the most.
fn is_full(events: u64) -> bool
    ensures { IsTrue result ↔ (events ≡ events_limit) }
{
    events == EVENTS_LIMIT
}

/// Plays the event of the line of this number, unless it ends the running again.
fn play<R: Fn(RankFacts) -> u64>(
    alloc: Global,
    number: u64,
    world: World,
    event: Event,
    rank: &RankRule<R>,
) -> Result<Running, LiveEnd>
    requires world { IsWorld world }
    requires shown { IsShown world }
    requires event { IsEvent world.header event }
    requires room { world.events ≤ events_limit }
    requires rank { IsRankRule (R.pre rank.now) }
    ensures { (header : Header) (place : Walk) → Stands world header place.past → IsPlayed (R.post rank.now) header place.past →
        GoesOn (R.post rank.now) header place number (founds.Does event) result }
{
    if !is_built(&event) {
        Err(LiveEnd::Unbuilt(number))
    } else if is_full(world.events()) {
        Err(LiveEnd::TooLarge(Which::Events))
    } else {
        step(alloc, world, &event, rank)
    }
}

impl Running {
    /// Before the first line.
    pub fn new(alloc: Global, header: &Header) -> Result<Running, Memory>
        requires header { IsHeader header.now }
        requires built { is_built_header header.now ≡ true }
        ensures stands { IfOk result (λ running. Stands running.world header.now []) }
        ensures world { IfOk result (λ running. IsWorld running.world) }
        ensures awaited { IfOk result (λ running. running.awaited ≡ unkept header.now) }
    {
        let awaited = Awaited::of_header(alloc, header)?;
        let world = World::new(alloc, header.copy(alloc)?)?;
        Ok(Running { world, awaited })
    }

    /// Runs the line of this number again.
    pub fn on_line<R: Fn(RankFacts) -> u64>(
        self,
        alloc: Global,
        number: u64,
        line: &[u8],
        rank: &RankRule<R>,
    ) -> Result<Running, LiveEnd>
        requires world { IsWorld self.world }
        requires shown { IsShown self.world }
        requires room { self.world.events ≤ events_limit }
        requires rank { IsRankRule (R.pre rank.now) }
        ensures { (header : Header) (place : Walk) → IsAt (R.post rank.now) header place self →
            GoesOn (R.post rank.now) header place number (found header place.awaited line.now) result }
    {
        let Running { world, awaited } = self;
        match awaited.found(alloc, world.header(), line) {
            Err(Memory) => Err(LiveEnd::Memory),
            Ok(found) => after_line(alloc, number, world, awaited, found, rank),
        }
    }
}

/// The line of this number is not the one that was made.
fn differs(line: u64, kept: Bytes, made: Bytes) -> LiveEnd
    ensures { result ≡ LiveEnd.Differs line kept made }
{
    LiveEnd::Differs { line, kept, made }
}

/// Does what the line of this number was found to be.
fn after_line<R: Fn(RankFacts) -> u64>(
    alloc: Global,
    number: u64,
    world: World,
    awaited: Awaited,
    found: Found,
    rank: &RankRule<R>,
) -> Result<Running, LiveEnd>
    requires world { IsWorld world }
    requires shown { IsShown world }
    requires room { world.events ≤ events_limit }
    requires event { IsUnder world.header found }
    requires rank { IsRankRule (R.pre rank.now) }
    ensures { (header : Header) (place : Walk) → IsAt (R.post rank.now) header place (record { world = world; awaited = awaited }) →
        GoesOn (R.post rank.now) header place number found result }
{
    match found {
        Found::LeftOut => Ok(Running { world, awaited }),
        Found::KeepsHeader => Ok(Running {
            world,
            awaited: awaited.without_header_line(),
        }),
        Found::KeepsLine => Ok(Running {
            world,
            awaited: awaited.without_line(),
        }),
        Found::Does(event) => play(alloc, number, world, event, rank),
        Found::Differs(kept, made) => Err(differs(number, kept, made)),
        Found::Wrong(kind) => Err(LiveEnd::Bad(Bad { line: number, kind })),
    }
}
