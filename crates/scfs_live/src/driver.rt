ghost use Rattle.std.specs.Prelude.{◌≡◌, length, Option, Some, None, IfOk};
ghost use Rattle.scfs_live.specs.Driving.{agent_called, begins_with, begun, next_settled, next_within, next_work, round};
ghost use Rattle.scfs_live.specs.Given.{GivesNext, GivesWork};
ghost use Rattle.scfs_live.specs.Waits.{waits_in};
ghost use Rattle.scfs_model.specs.UnitFormat.{under};
ghost use Rattle.scfs_schedule.specs.Grammar.{IsHeader};
ghost use Rattle.scfs_world.specs.Stepping.{IsWorld};

use crate::waits::{answer_waits, call_waits, reply_waits, request_waits, step_waits};
use scfs_base::Memory;
use scfs_schedule::{Event, Header};
use scfs_world::World;
use std::alloc::Global;
use std::collections::VecDeque;
use std::marker::Model;

/// The most turns that one call is given.
const DRIVEN_TURNS: u8 = 8;

/// What is left of a round of settling.
#[derive(Clone, Copy, Debug, PartialEq, Eq)]
pub enum Work {
    /// While a step of the agent waits, the space serves it and the agent is told.
    Serve(u8),
    Tell(u8),
    /// While a reply of the space waits, the agent is told it.
    TellRest(u8),
    /// While a request waits, the real cloud is asked, and its answer is given.
    Ask(u8),
    Hand(u8),
    /// While an answer of the cloud waits, it is given.
    HandRest(u8),
}

/// What comes next: an event, or what a real cloud answers to its oldest request.
#[derive(Debug, Drop)]
pub enum Next {
    Does(Event),
    Hears(u8),
}

/// What a round does next; it is taken off the work.
fn next_work(work: &mut VecDeque<Work>, world: &World) -> Result<Option<Next>, Memory>
    requires { IsWorld world.now }
    ensures { IfOk result (λ next. GivesWork (next_work (waits_in world.now) work.old.items) next work.new.items) }
{
    'work: while let Some(first) = work.front() {
        match *first {
            Work::Serve(agent) if step_waits(world, agent) => {
                work.push_front(Work::Tell(agent))?;
                return Ok(Some(Next::Does(Event::Space(agent))));
            }
            Work::TellRest(agent) if reply_waits(world, agent) => {
                return Ok(Some(Next::Does(Event::Told(agent))));
            }
            Work::Ask(cloud) if request_waits(world, cloud) => {
                work.push_front(Work::Hand(cloud))?;
                return Ok(Some(Next::Hears(cloud)));
            }
            Work::HandRest(cloud) if answer_waits(world, cloud) => {
                return Ok(Some(Next::Does(Event::Give(cloud))));
            }
            Work::Tell(agent) => {
                let _ = work.pop_front();
                return Ok(Some(Next::Does(Event::Told(agent))));
            }
            Work::Hand(cloud) => {
                let _ = work.pop_front();
                return Ok(Some(Next::Does(Event::Give(cloud))));
            }
            _ => {
                let _ = work.pop_front();
            }
        }
    }
    Ok(None)
}

/// A whole round: each agent of the header in order, then each cloud.
fn round(alloc: Global, header: &Header) -> Result<VecDeque<Work>, Memory>
    requires { IsHeader header.now }
    ensures { IfOk result (λ work. work.items ≡ round (under header.now)) }
{
    let mut work = VecDeque::new(alloc);
    let agents = header.agents.len() as u8;
    let clouds = 3 * header.f + 1;
    'agents: for agent in 0..agents {
        work.push_back(Work::Serve(agent))?;
        work.push_back(Work::TellRest(agent))?;
    }
    'clouds: for cloud in 0..clouds {
        work.push_back(Work::Ask(cloud))?;
        work.push_back(Work::HandRest(cloud))?;
    }
    Ok(work)
}

/// The agent whose call an event is.
fn agent_called(event: &Event) -> Option<u8>
    ensures { result ≡ agent_called event.now }
{
    match event {
        Event::Call(agent, _) => Some(*agent),
        _ => None,
    }
}

/// Where driving is, once the event that was given is done.
#[derive(Drop)]
pub struct Driver {
    alloc: Global,
    work: VecDeque<Work>,
    called: Option<u8>,
    turns: u8,
}

impl Model for Driver {
    ghost use Rattle.std.specs.Prelude.{None};
    ghost use Rattle.scfs_live.specs.Driving as driving;

    ghost Value = { driving.Driver };

    ghost view = { λ d. record { given = None; work = d.work.items; called = d.called; turns = d.turns } };
}

impl Driver {
    /// Where no event was given.
    pub fn settling(alloc: Global, header: &Header) -> Result<Driver, Memory>
        requires { IsHeader header.now }
        ensures { IfOk result (λ d. d ≡ begins_with (under header.now) None) }
    {
        Ok(Driver {
            alloc,
            work: round(alloc, header)?,
            called: None,
            turns: 0,
        })
    }

    /// After the event that was given.
    pub fn begun(alloc: Global, header: &Header, event: &Event) -> Result<Driver, Memory>
        requires { IsHeader header.now }
        ensures { IfOk result (λ d. d ≡ begun (under header.now) event.now) }
    {
        Ok(Driver {
            alloc,
            work: round(alloc, header)?,
            called: agent_called(event),
            turns: DRIVEN_TURNS,
        })
    }

    /// A turn of the agent whose call is unanswered, where one is to come.
    fn take_turn(&mut self, world: &World) -> Result<Option<Next>, Memory>
        requires { IsWorld world.now }
        ensures { IfOk result (λ next.
            GivesNext (next_settled (under world.now.header) (waits_in world.now) self.old self.old.called) next self.new) }
    {
        let Some(agent) = self.called else {
            return Ok(None);
        };
        if !call_waits(world, agent) || self.turns == 0 {
            return Ok(None);
        }
        self.turns -= 1;
        self.work = round(self.alloc, world.header())?;
        Ok(Some(Next::Does(Event::Turn(agent))))
    }

    /// What comes next; none where all is settled and no turn is to come.
    pub fn next(&mut self, world: &World) -> Result<Option<Next>, Memory>
        requires { IsWorld world.now }
        ensures { IfOk result (λ next. GivesNext (next_within (under world.now.header) (waits_in world.now) self.old) next self.new) }
    {
        if let Some(next) = next_work(&mut self.work, world)? {
            return Ok(Some(next));
        }
        self.work = round(self.alloc, world.header())?;
        if let Some(next) = next_work(&mut self.work, world)? {
            return Ok(Some(next));
        }
        self.take_turn(world)
    }
}
