ghost use Rattle.std.specs.Prelude.{◌≡◌, ◌+◌, ◌<◌, ◌≤◌, ◌++◌, List, ℕ, [], true, false, None, IfErr, IfOk};
ghost use Rattle.std.specs.List.{flat_map};
ghost use Rattle.scfs_base.specs.Limits.{events_limit};
ghost use Rattle.scfs_base.specs.Outside.{Rose};
ghost use Rattle.scfs_policy.specs.Rank.{IsRankRule};
ghost use Rattle.scfs_schedule.specs.Grammar.{IsEvent};
ghost use Rattle.scfs_schedule.specs.Reading.{read};
ghost use Rattle.scfs_schedule.specs.Text.{numbered};
ghost use Rattle.scfs_schedule.specs.declared.types.Header.{Header};
ghost use Rattle.scfs_model.specs.History.{History};
ghost use Rattle.scfs_world.specs.Built.{is_built, is_built_header};
ghost use Rattle.scfs_world.specs.Happening.{IsPlayed, Stands};
ghost use Rattle.scfs_world.specs.State.{WorldState};
ghost use Rattle.scfs_world.specs.Stepping.{IsShown, IsWorld};
ghost use Rattle.scfs_top.specs.Edges.{Passes};
ghost use Rattle.scfs_live.specs.Edges.{GetsPart};
ghost use Rattle.scfs_top.specs.Giving.{IsFresh, Tells};
ghost use Rattle.scfs_top.specs.Playing.{finish_at, played};
ghost use Rattle.scfs_top.specs.Plays.{EndsAtOnce, PlaysTo, Ran, SoFar, Turns, filled_at_begin, filled_of, finish_of, finish_of_turn};
ghost use Rattle.scfs_top.specs.declared.closing.Finish.{Finish};

use crate::built::finish_at;
use crate::closing::{Filled, Finish};
use crate::intake::{Given, Intake};
use crate::waiting::{PushFault, Waiting};
use scfs_base::{Failed, Memory, Sink, Source};
use scfs_durable::versions_stay_safe;
use scfs_laws::{no_clash_before, opens_are_newest, reads_are_held};
use scfs_policy::{RankFacts, RankRule};
use scfs_schedule::Event;
use scfs_world::{
    StepFault, Stepped, World, is_built_header, standing_worlds_are_shown, states_are_whole,
};
use std::alloc::Global;

/// How playing a schedule ended: it came to its finish after so many events, reading having ended so; or writing failed, or memory
/// was wanting.
#[derive(Clone, Copy, Debug, PartialEq, Eq)]
pub enum Played {
    Ended(u64, Finish, Filled),
    WriteFault,
    Memory,
}

/// How playing a schedule ended, and the world that it left where its text was played to the end.
#[derive(Drop)]
pub struct Playout {
    pub played: Played,
    pub world: Option<World>,
}

/// How one event's turn ended: its lines wait or are written, and this is the world now; or it ends what is played and nothing was
/// done; or it would carry too many bytes; or writing failed, or memory was wanting.
#[derive(Drop)]
pub enum Turn {
    Done(World),
    Finished(Finish),
    TooLarge,
    WriteFault,
    Memory,
}

/// Steps the world by an event and lets its lines wait.
fn take_turn<O: Sink, R: Fn(RankFacts) -> u64>(
    alloc: Global,
    world: World,
    event: &Event,
    rank: &RankRule<R>,
    waiting: &mut Waiting,
    out: &mut O,
) -> Turn
    requires world { IsWorld world }
    requires shown { IsShown world }
    requires event { IsEvent world.header event.now }
    requires built { is_built event.now ≡ true }
    requires room { world.events < events_limit }
    requires rank { IsRankRule (R.pre rank.now) }
    ensures turns { (header : Header) (past : History) → Stands world header past → IsPlayed (R.post rank.now) header past →
        Turns (R.post rank.now) header past event.now (O.written out.old) (O.written out.new) waiting.old waiting.new result }
    ensures done { (next : WorldState) → result ≡ Turn.Done next → (next.header ≡ world.header) × (next.events ≡ world.events + 1) }
    ensures world { (next : WorldState) → result ≡ Turn.Done next → IsWorld next }
    ensures goes_on { finish_of_turn result ≡ None }
    ensures fault { result ≡ Turn.WriteFault → Rose (O.faults out.old) (O.faults out.new) }
    ensures later { O.faults out.old ≤ O.faults out.new }
{
    states_are_whole();
    match world.step(event, rank) {
        Err(end) => match end.fault {
            StepFault::TooLarge => Turn::TooLarge,
            StepFault::Memory => Turn::Memory,
        },
        Ok(stepped) => pass_lines(alloc, stepped, waiting, out),
    }
}

/// Lets the lines wait of the event that a world did last.
fn pass_lines<O: Sink>(alloc: Global, stepped: Stepped, waiting: &mut Waiting, out: &mut O) -> Turn
    ensures done { (next : WorldState) → result ≡ Turn.Done next → (next ≡ stepped.world)
        × Passes (O.written out.old) (O.written out.new) waiting.old waiting.new (flat_map (numbered stepped.world.events) stepped.lines) }
    ensures goes_on { finish_of_turn result ≡ None }
    ensures small { result ≡ Turn.TooLarge → ⊥ }
    ensures part { result ≡ Turn.WriteFault →
        GetsPart (O.written out.old) (O.written out.new) (waiting.old ++ flat_map (numbered stepped.world.events) stepped.lines) }
    ensures nothing { result ≡ Turn.Memory → (O.written out.new ≡ O.written out.old) × (waiting.new ≡ waiting.old) }
    ensures fault { result ≡ Turn.WriteFault → Rose (O.faults out.old) (O.faults out.new) }
    ensures later { O.faults out.old ≤ O.faults out.new }
{
    let Stepped { world, lines } = stepped;
    match waiting.push(alloc, world.events(), lines.as_slice(), out) {
        Ok(()) => Turn::Done(world),
        Err(PushFault::Write) => Turn::WriteFault,
        Err(PushFault::Memory) => Turn::Memory,
    }
}

/// The turn of an event in the line of this number, unless it ends what is played.
fn play_event<O: Sink, R: Fn(RankFacts) -> u64>(
    alloc: Global,
    line: u64,
    world: World,
    event: Event,
    rank: &RankRule<R>,
    waiting: &mut Waiting,
    out: &mut O,
) -> Turn
    requires world { IsWorld world }
    requires shown { IsShown world }
    requires event { IsEvent world.header event }
    requires room { world.events ≤ events_limit }
    requires rank { IsRankRule (R.pre rank.now) }
    ensures turns { (header : Header) (past : History) → Stands world header past → IsPlayed (R.post rank.now) header past →
        Turns (R.post rank.now) header past event (O.written out.old) (O.written out.new) waiting.old waiting.new result }
    ensures finish { finish_at line world.events event ≡ finish_of_turn result }
    ensures done { (next : WorldState) → result ≡ Turn.Done next →
        (next.header ≡ world.header) × (next.events ≡ world.events + 1) × (next.events ≤ events_limit) }
    ensures world { (next : WorldState) → result ≡ Turn.Done next → IsWorld next }
    ensures fault { result ≡ Turn.WriteFault → Rose (O.faults out.old) (O.faults out.new) }
    ensures later { O.faults out.old ≤ O.faults out.new }
{
    match finish_at(line, world.events(), &event) {
        Some(finish) => Turn::Finished(finish),
        None => take_turn(alloc, world, &event, rank, waiting, out),
    }
}

/// Reads the header of the text on the input, and makes its world.
fn begin<I: Source, O: Sink>(
    alloc: Global,
    intake: &mut Intake,
    input: &mut I,
    waiting: &mut Waiting,
    out: &mut O,
) -> Result<World, Played>
    requires fresh { IsFresh false intake.old }
    requires nothing { waiting.old ≡ [] }
    ensures begun { IfOk result (λ world. SoFar (I.left input.old) (I.left input.new) (O.written out.old) (O.written out.new) intake.new
        waiting.new world.header []) }
    ensures world { IfOk result (λ world. IsWorld world × Stands world world.header [] × (is_built_header world.header ≡ true)) }
    ensures ran { IfErr result (λ end. (taken : List ℕ)
        × Ran (I.left input.old) (I.left input.new) (O.written out.old) (O.written out.new) waiting.new taken [] end
        × EndsAtOnce (played (read false taken)) (finish_of end)) }
    ensures tells { Tells (I.ends input.old) (I.ends input.new) (I.faults input.old) (I.faults input.new) (filled_at_begin result) }
    ensures fault { IfErr result (λ end. end ≡ Played.WriteFault → Rose (O.faults out.old) (O.faults out.new)) }
    ensures later { O.faults out.old ≤ O.faults out.new }
{
    let header = match intake.next(input, waiting, out) {
        Err(Failed) => return Err(Played::WriteFault),
        Ok(Given::Memory) => return Err(Played::Memory),
        Ok(Given::Ended(ending, filled)) => {
            return Err(Played::Ended(0, Finish::Text(ending), filled));
        }
        Ok(Given::Event(_)) => unreachable!(),
        Ok(Given::Header(header)) => header,
    };
    if !is_built_header(&header) {
        return Err(Played::Ended(0, Finish::Unbuilt(intake.line()), Filled::Open));
    }
    match World::new(alloc, header) {
        Ok(world) => Ok(world),
        Err(Memory) => Err(Played::Memory),
    }
}

/// Playing ended so, and no world is kept.
fn without_world(played: Played) -> Playout
    ensures { result ≡ record { played = played; world = None } }
{
    Playout {
        played,
        world: None,
    }
}

/// Plays the text on the input; of its lines some wait.
fn play_text<I: Source, O: Sink, R: Fn(RankFacts) -> u64>(
    alloc: Global,
    input: &mut I,
    rank: &RankRule<R>,
    waiting: &mut Waiting,
    out: &mut O,
) -> Playout
    requires nothing { waiting.old ≡ [] }
    requires rank { IsRankRule (R.pre rank.now) }
    ensures plays { PlaysTo (R.post rank.now) (I.left input.old) (I.left input.new) (O.written out.old) (O.written out.new) waiting.new result }
    ensures tells { Tells (I.ends input.old) (I.ends input.new) (I.faults input.old) (I.faults input.new) (filled_of result.played) }
    ensures fault { result.played ≡ Played.WriteFault → Rose (O.faults out.old) (O.faults out.new) }
    ensures later { O.faults out.old ≤ O.faults out.new }
{
    no_clash_before();
    reads_are_held();
    opens_are_newest();
    versions_stay_safe();
    standing_worlds_are_shown();
    let mut intake = Intake::new(alloc, false);
    let mut world = match begin(alloc, &mut intake, input, waiting, out) {
        Ok(world) => world,
        Err(played) => return without_world(played),
    };
    'events: loop {
        let count = world.events();
        let event = match intake.next(input, waiting, out) {
            Err(Failed) => return without_world(Played::WriteFault),
            Ok(Given::Memory) => return without_world(Played::Memory),
            Ok(Given::Ended(ending, filled)) => {
                return Playout {
                    played: Played::Ended(count, Finish::Text(ending), filled),
                    world: Some(world),
                };
            }
            Ok(Given::Header(_)) => unreachable!(),
            Ok(Given::Event(event)) => event,
        };
        match play_event(alloc, intake.line(), world, event, rank, waiting, out) {
            Turn::Done(after) => world = after,
            Turn::Finished(finish) => {
                return without_world(Played::Ended(count, finish, Filled::Open));
            }
            Turn::TooLarge => {
                return without_world(Played::Ended(count, Finish::Objects, Filled::Open));
            }
            Turn::WriteFault => return without_world(Played::WriteFault),
            Turn::Memory => return without_world(Played::Memory),
        }
    }
}

/// Plays a schedule from its header on, and writes its lines.
pub fn play<I: Source, O: Sink, R: Fn(RankFacts) -> u64>(
    alloc: Global,
    input: &mut I,
    rank: &RankRule<R>,
    out: &mut O,
) -> Playout
    requires rank { IsRankRule (R.pre rank.now) }
    ensures plays { PlaysTo (R.post rank.now) (I.left input.old) (I.left input.new) (O.written out.old) (O.written out.new) [] result }
    ensures tells { Tells (I.ends input.old) (I.ends input.new) (I.faults input.old) (I.faults input.new) (filled_of result.played) }
    ensures fault { result.played ≡ Played.WriteFault → Rose (O.faults out.old) (O.faults out.new) }
    ensures later { O.faults out.old ≤ O.faults out.new }
{
    let mut waiting = Waiting::new(alloc);
    let Playout { played, world } = play_text(alloc, input, rank, &mut waiting, out);
    match played {
        Played::WriteFault => without_world(Played::WriteFault),
        played => match waiting.flush(out) {
            Ok(()) => Playout { played, world },
            Err(Failed) => without_world(Played::WriteFault),
        },
    }
}
