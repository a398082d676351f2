ghost use Rattle.std.specs.Prelude.{◌≡◌, ◌≢◌, ◌+◌, ◌*◌, ◌<◌, ◌≤◌, ◌↔◌, [], length, true, slice_get, IfErr, IfOk, IfSome, IsTrue, Ok, is_some};
ghost use Rattle.std.specs.Option.{option_copied, option_map};
ghost use Rattle.scfs_net.specs.Queues.{cloud_at};
ghost use Rattle.scfs_policy.specs.Rank.{IsRankRule};
ghost use Rattle.scfs_schedule.specs.Grammar.{IsEvent, IsHeader};
ghost use Rattle.scfs_schedule.specs.declared.types.Event.TheVariants as events;
ghost use Rattle.scfs_world.specs.Built.{is_built, is_built_header};
ghost use Rattle.scfs_world.specs.Clouds.{Answers, Moves};
ghost use Rattle.scfs_world.specs.Happening.{PlaysOn, Stands};
ghost use Rattle.scfs_world.specs.Seating.{IsAtSeat};
ghost use Rattle.scfs_world.specs.State.{counted};
ghost use Rattle.scfs_world.specs.Stepping.{Does, DoesAlone, IsShown, IsTooLarge, IsWorld, Steps};
ghost use Rattle.scfs_world.specs.declared.fault.StepFault.TheVariants as StepFault;

use crate::clouds::{answer, cloud_of, shift};
use crate::ranges::brings_bytes;
use crate::seat::Seat;
use crate::shown::{did_lines, moved_lines, one_line};
use crate::{StepFault, WorldEnd};
use scfs_base::{CloudRequest, Memory, Sequence};
use scfs_net::Net;
use scfs_policy::{RankFacts, RankRule};
use scfs_schedule::{Event, Header, Line};
use scfs_tuples::{Space, Tuple};
use std::alloc::Global;
use std::marker::Model;

/// The agents of a header at their seats, the space and the clouds between them, the clock, and how many events there were.
#[derive(Drop)]
pub struct World {
    alloc: Global,
    header: Header,
    clock: u64,
    events: u64,
    space: Space,
    seats: Vec<Seat>,
    net: Net,
}

impl Model for World {
    ghost use Rattle.scfs_world.specs.State.{WorldState};

    ghost Value = { WorldState };

    ghost view = { λ w. record {
      header = w.header;
      clock = w.clock;
      events = w.events;
      space = w.space;
      seats = w.seats.items;
      net = w.net;
    } };
}

/// A world after an event, and the lines that the event had.
#[derive(Drop)]
pub struct Stepped {
    pub world: World,
    pub lines: Sequence<Line>,
}

impl World {
    /// The world of a header before its first event: an empty space, clouds that hold nothing, and agents that were given nothing.
    pub fn new(alloc: Global, header: Header) -> Result<World, Memory>
        requires header { IsHeader header }
        requires built { is_built_header header ≡ true }
        ensures stands { IfOk result (λ world. Stands world header []) }
        ensures world { IfOk result (λ world. IsWorld world) }
    {
        let mut seats = Vec::new(alloc);
        for no in 0..header.agents.len() {
            seats.push(Seat::new(alloc, no as u8, &header)?)?;
        }
        let net = Net::new(alloc, header.f)?;
        Ok(World {
            alloc,
            header,
            clock: 0,
            events: 0,
            space: Space::new(alloc),
            seats,
            net,
        })
    }

    /// One event that the program can do, and its lines. There were fewer than 1,000,000 before.
    pub fn step<R: Fn(RankFacts) -> u64>(
        self,
        event: &Event,
        rank: &RankRule<R>,
    ) -> Result<Stepped, WorldEnd>
        requires world { IsWorld self }
        requires shown { IsShown self }
        requires event { IsEvent self.header event.now }
        requires built { is_built event.now ≡ true }
        requires room { self.events < 1000000 }
        requires rank { IsRankRule (R.pre rank.now) }
        ensures steps { IfOk result (λ stepped. Steps (R.post rank.now) self stepped.world event.now stepped.lines) }
        ensures plays { IfOk result (λ stepped. PlaysOn (R.post rank.now) self stepped.world event.now stepped.lines) }
        ensures too_large { IfErr result (λ end. end.fault ≡ StepFault.TooLarge → IsTooLarge (R.post rank.now) self event.now) }
        ensures world { IfOk result (λ stepped. IsWorld stepped.world) }
        ensures header { IfOk result (λ stepped. stepped.world.header ≡ self.header) }
        ensures events { IfOk result (λ stepped. stepped.world.events ≡ self.events + 1) }
    {
        let mut world = self;
        match world.play(event, rank) {
            Ok(lines) => {
                world.events += 1;
                Ok(Stepped { world, lines })
            }
            Err(fault) => Err(WorldEnd { fault }),
        }
    }

    /// The event, and its lines; a history that was played is played on.
    fn play<R: Fn(RankFacts) -> u64>(
        &mut self,
        event: &Event,
        rank: &RankRule<R>,
    ) -> Result<Sequence<Line>, StepFault>
        requires world { IsWorld self.old }
        requires shown { IsShown self.old }
        requires event { IsEvent self.old.header event.now }
        requires built { is_built event.now ≡ true }
        requires room { self.old.events < 1000000 }
        requires rank { IsRankRule (R.pre rank.now) }
        ensures does { Does (R.post rank.now) self.old self.new event.now result }
        ensures plays { IfOk result (λ lines. PlaysOn (R.post rank.now) self.old (counted self.new) event.now lines) }
    {
        let lines = self.on(event, rank)?;
        brings_bytes(event);
        Ok(lines)
    }

    /// What the event does where it is, and its lines.
    fn on<R: Fn(RankFacts) -> u64>(
        &mut self,
        event: &Event,
        rank: &RankRule<R>,
    ) -> Result<Sequence<Line>, StepFault>
        requires world { IsWorld self.old }
        requires shown { IsShown self.old }
        requires event { IsEvent self.old.header event.now }
        requires built { is_built event.now ≡ true }
        requires room { self.old.events < 1000000 }
        requires rank { IsRankRule (R.pre rank.now) }
        ensures { Does (R.post rank.now) self.old self.new event.now result }
    {
        match event {
            Event::Call(a, _)
            | Event::Turn(a)
            | Event::Space(a)
            | Event::Later(a)
            | Event::Told(a)
            | Event::Crash(a)
            | Event::Start(a) => self.at_seat(*a, event, rank),
            Event::Give(c) => self.give(*c, rank),
            Event::Serve(_) | Event::Hide(_) | Event::Fail(_) | Event::Say(_, _) => {
                self.answered(event)
            }
            Event::Tick(ticks) => Ok(self.later(*ticks)),
            _ => self.moved(event),
        }
    }

    /// An event at the seat of an agent.
    fn at_seat<R: Fn(RankFacts) -> u64>(
        &mut self,
        a: u8,
        event: &Event,
        rank: &RankRule<R>,
    ) -> Result<Sequence<Line>, StepFault>
        requires world { IsWorld self.old }
        requires shown { IsShown self.old }
        requires event { IsAtSeat a event.now }
        requires agent { a < length self.old.header.agents }
        requires built { is_built event.now ≡ true }
        requires room { self.old.events < 1000000 }
        requires rank { IsRankRule (R.pre rank.now) }
        ensures { Does (R.post rank.now) self.old self.new event.now result }
    {
        let seat = &mut self.seats[usize::from(a)];
        seat.on(
            self.alloc,
            self.clock,
            event,
            &mut self.space,
            &mut self.net,
            rank,
        )
    }

    /// A cloud's oldest answer is given to the agent that asked.
    fn give<R: Fn(RankFacts) -> u64>(
        &mut self,
        c: u8,
        rank: &RankRule<R>,
    ) -> Result<Sequence<Line>, StepFault>
        requires world { IsWorld self.old }
        requires shown { IsShown self.old }
        requires room { self.old.events < 1000000 }
        requires cloud { c < 3 * self.old.header.f + 1 }
        requires rank { IsRankRule (R.pre rank.now) }
        ensures { Does (R.post rank.now) self.old self.new (events.Give c) result }
    {
        let Some(given) = self.net.give(c) else {
            return Ok(one_line(self.alloc, Line::Skip)?);
        };
        let a = usize::from(given.request.agent);
        if a >= self.seats.len() {
            return Ok(Sequence::new(self.alloc));
        }
        self.seats[a].hear(self.alloc, self.clock, c, given, &mut self.net, rank)
    }

    /// A cloud answers its oldest request.
    fn answered(&mut self, event: &Event) -> Result<Sequence<Line>, StepFault>
        requires world { IsWorld self.old }
        requires event { Answers (length self.old.net.clouds) event.now }
        ensures { DoesAlone self.old self.new event.now result }
    {
        let did = answer(self.alloc, &mut self.net, event)?;
        Ok(did_lines(self.alloc, cloud_of(event), did)?)
    }

    /// A message of a cloud is lost, moved to the back or repeated.
    fn moved(&mut self, event: &Event) -> Result<Sequence<Line>, StepFault>
        requires world { IsWorld self.old }
        requires event { Moves (length self.old.net.clouds) event.now }
        ensures { DoesAlone self.old self.new event.now result }
    {
        let moved = shift(&mut self.net, event)?;
        Ok(moved_lines(self.alloc, moved)?)
    }

    /// The clock goes on by so many ticks.
    fn later(&mut self, ticks: u64) -> Sequence<Line>
        requires world { IsWorld self.old }
        requires room { self.old.events < 1000000 }
        requires ticks { ticks ≤ 1000000000 }
        ensures { DoesAlone self.old self.new (events.Tick ticks) (Ok result) }
    {
        self.clock += ticks;
        Sequence::new(self.alloc)
    }

    /// The header of the run.
    pub fn header(&self) -> &Header
        ensures { result.now ≡ self.now.header }
    {
        &self.header
    }

    /// The moment on the clock.
    pub fn clock(&self) -> u64
        ensures { result ≡ self.now.clock }
    {
        self.clock
    }

    /// How many events there were.
    pub fn events(&self) -> u64
        ensures { result ≡ self.now.events }
    {
        self.events
    }

    /// The tuples of the space, in list order.
    pub fn tuples(&self) -> Result<Sequence<Tuple>, Memory>
        ensures { IfOk result (λ tuples. tuples ≡ self.now.space) }
    {
        self.space.tuples()
    }

    /// The oldest request that waits at a cloud: `None` exactly where no request waits.
    pub fn request(&self, cloud: u8) -> Option<&CloudRequest>
        requires { cloud < length self.now.net.clouds }
        ensures { option_copied result ≡ option_map (λ asked. asked.body) (slice_get (cloud_at self.now.net cloud).requests 0) }
    {
        self.net.oldest(cloud)
    }

    /// Whether a reply waits at a cloud.
    pub fn replied(&self, cloud: u8) -> bool
        requires { cloud < length self.now.net.clouds }
        ensures { IsTrue result ↔ ((cloud_at self.now.net cloud).replies ≢ []) }
    {
        self.net.replies(cloud)
    }

    /// Whether a step of an agent waits for the space.
    pub fn space_request(&self, agent: u8) -> bool
        requires { agent < length self.now.seats }
        ensures { IfSome (slice_get self.now.seats agent) (λ seat. IsTrue result ↔ (seat.asked ≢ [])) }
    {
        self.seats[usize::from(agent)].asks()
    }

    /// Whether a reply of the space waits for an agent.
    pub fn space_reply(&self, agent: u8) -> bool
        requires { agent < length self.now.seats }
        ensures { IfSome (slice_get self.now.seats agent) (λ seat. IsTrue result ↔ (seat.replied ≢ [])) }
    {
        self.seats[usize::from(agent)].replies()
    }

    /// Whether a call of an agent is unanswered.
    pub fn waits(&self, agent: u8) -> bool
        requires { agent < length self.now.seats }
        ensures { IfSome (slice_get self.now.seats agent) (λ seat. result ≡ is_some seat.agent.agent.waiting) }
    {
        self.seats[usize::from(agent)].waits()
    }
}
