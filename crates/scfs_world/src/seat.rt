ghost use Rattle.std.specs.Prelude.{◌≡◌, ◌≢◌, ◌^◌, ◌+◌, ◌*◌, ◌<◌, ◌≤◌, ◌↔◌, ℕ, List, [], length, true, All, IfOk, IsTrue, is_some};
ghost use Rattle.scfs_base.specs.Limits.{carried_limit};
ghost use Rattle.scfs_model.specs.Agents.{first_agent};
ghost use Rattle.scfs_model.specs.UnitFormat.{under};
ghost use Rattle.scfs_policy.specs.Rank.{IsRankRule};
ghost use Rattle.scfs_schedule.specs.Grammar.{IsHeader};
ghost use Rattle.scfs_tuples.specs.Steps.{IsStep};
ghost use Rattle.scfs_tuples.specs.declared.types.Tuple.{Tuple};
ghost use Rattle.scfs_agent.specs.Reacting.{FitsInput};
ghost use Rattle.scfs_world.specs.Built.{is_built, is_built_call};
ghost use Rattle.scfs_world.specs.Doing.{Brings, Comes, ComesBack, FitsOldest, PostponesOldest, ServesOldest, TellsOldest, input_of};
ghost use Rattle.scfs_world.specs.Seating.{answer_at, event_at, IsAtSeat, IsReady, IsShownAt, SeatDoes};

use crate::StepFault;
use crate::doing::do_outputs;
use crate::served::line_of;
use crate::shown::{one_line, sum_of};
use scfs_agent::{Agent, Input};
use scfs_base::{Memory, RequestNo, Sequence};
use scfs_net::{Given, Net};
use scfs_policy::{RankFacts, RankRule};
use scfs_schedule::{Call, Event, Header, Line};
use scfs_tuples::{Reply, Space, Step};
use std::alloc::Global;
use std::collections::VecDeque;
use std::marker::Model;

/// A step that was asked of the space and waits to be served.
#[derive(Debug, Drop)]
pub struct StepAsked {
    pub request: RequestNo,
    pub step: Step,
}

/// A reply of the space that waits to be told.
#[derive(Debug, Drop)]
pub struct StepReply {
    pub request: RequestNo,
    pub reply: Reply,
}

/// An agent, and what stands between it and the space, the oldest first: steps that are not served, replies that are not told.
#[derive(Drop)]
pub struct Seat {
    agent: Agent,
    asked: VecDeque<StepAsked>,
    replied: VecDeque<StepReply>,
}

impl Model for Seat {
    ghost use Rattle.scfs_world.specs.State.{SeatState};

    ghost Value = { SeatState };

    ghost view = { λ seat. record { agent = seat.agent; asked = seat.asked.items; replied = seat.replied.items } };
}

/// A call that is built, again.
fn copy_call(alloc: Global, call: &Call) -> Result<Call, Memory>
    requires { is_built_call call.now ≡ true }
    ensures { IfOk result (λ copied. copied ≡ call.now) }
{
    match call {
        Call::Create(path) => Ok(Call::Create(path.copy(alloc)?)),
        Call::Stat(path) => Ok(Call::Stat(path.copy(alloc)?)),
        Call::OpenR(path) => Ok(Call::OpenR(path.copy(alloc)?)),
        Call::OpenW(path) => Ok(Call::OpenW(path.copy(alloc)?)),
        Call::Read(session, offset, count) => Ok(Call::Read(*session, *offset, *count)),
        Call::Write(session, offset, bytes) => {
            Ok(Call::Write(*session, *offset, bytes.copy(alloc)?))
        }
        Call::Truncate(session, size) => Ok(Call::Truncate(*session, *size)),
        Call::Close(session) => Ok(Call::Close(*session)),
        _ => unreachable!(),
    }
}

/// What an event brings to an agent.
fn input_of(alloc: Global, event: &Event) -> Result<Input, Memory>
    requires { is_built event.now ≡ true }
    ensures { IfOk result (λ input. input ≡ input_of event.now) }
{
    match event {
        Event::Call(_, call) => Ok(Input::Call(copy_call(alloc, call)?)),
        Event::Crash(_) => Ok(Input::Crash),
        Event::Start(_) => Ok(Input::Start),
        _ => Ok(Input::Turn),
    }
}

impl Seat {
    /// The seat of the agent of this number of the header, before it was given anything.
    pub(crate) fn new(alloc: Global, no: u8, header: &Header) -> Result<Seat, Memory>
        requires header { IsHeader header.now }
        requires no { no < length header.now.agents }
        ensures { IfOk result (λ seat. seat ≡ record {
          agent = record { header = header.now; no = no; inputs = 0; agent = first_agent (under header.now) };
          asked = [];
          replied = [];
        }) }
    {
        Ok(Seat {
            agent: Agent::new(alloc, no, header)?,
            asked: VecDeque::new(alloc),
            replied: VecDeque::new(alloc),
        })
    }

    /// What an event at the seat does, and its lines.
    pub(crate) fn on<R: Fn(RankFacts) -> u64>(
        &mut self,
        alloc: Global,
        now: u64,
        event: &Event,
        space: &mut Space,
        net: &mut Net,
        rank: &RankRule<R>,
    ) -> Result<Sequence<Line>, StepFault>
        requires rank { IsRankRule (R.pre rank.now) }
        requires event { (a : ℕ) × IsAtSeat a event.now }
        requires built { is_built event.now ≡ true }
        requires moment { now < 2 ^ 62 }
        requires ready { IsReady 999999 self.old.agent self.old.asked net.old }
        requires shown { IsShownAt now (record { seat = self.old; space = space.old; net = net.old }) }
        ensures { SeatDoes (R.post rank.now) now (event_at event.now)
            (record { seat = self.old; space = space.old; net = net.old }) (record { seat = self.new; space = space.new; net = net.new }) result }
    {
        match event {
            Event::Space(_) => Ok(self.serve(alloc, now, space)?),
            Event::Later(_) => Ok(self.postpone(alloc)?),
            Event::Told(_) => self.tell(alloc, now, net, rank),
            _ => self.come(alloc, now, event, net, rank),
        }
    }

    /// An answer of a cloud is given to the agent.
    pub(crate) fn hear<R: Fn(RankFacts) -> u64>(
        &mut self,
        alloc: Global,
        now: u64,
        cloud: u8,
        given: Given,
        net: &mut Net,
        rank: &RankRule<R>,
    ) -> Result<Sequence<Line>, StepFault>
        requires rank { IsRankRule (R.pre rank.now) }
        requires cloud { cloud < 3 * self.old.agent.header.f + 1 }
        requires ready { IsReady 999999 self.old.agent self.old.asked net.old }
        ensures { (space : List Tuple) → SeatDoes (R.post rank.now) now (answer_at cloud given.request given.answer)
            (record { seat = self.old; space = space; net = net.old }) (record { seat = self.new; space = space; net = net.new }) result }
    {
        let sum = sum_of(&given.answer);
        let lines = one_line(alloc, Line::Gave(cloud, given.request, sum))?;
        let input = Input::Cloud(cloud, given.request, given.answer);
        self.come_back(alloc, now, given.request, input, lines, net, rank)
    }

    /// The agent is given an input, and what it puts out is done; the lines come behind these.
    fn input<R: Fn(RankFacts) -> u64>(
        &mut self,
        alloc: Global,
        now: u64,
        input: Input,
        before: Sequence<Line>,
        net: &mut Net,
        rank: &RankRule<R>,
    ) -> Result<Sequence<Line>, StepFault>
        requires rank { IsRankRule (R.pre rank.now) }
        requires room { self.old.agent.inputs < 1000000 }
        requires input { FitsInput self.old.agent.header self.old.agent.agent input }
        requires clouds { length net.old.clouds ≡ 3 * self.old.agent.header.f + 1 }
        requires carried { net.old.carried ≤ carried_limit }
        ensures { Comes (R.post rank.now) now self.old self.new net.old net.new input before result }
    {
        let outputs = self.agent.on(now, input, rank)?;
        let mut lines = before;
        do_outputs(alloc, outputs, &mut self.asked, net, &mut lines)?;
        Ok(lines)
    }

    /// The agent is given what an event brings, where it can have it.
    fn come<R: Fn(RankFacts) -> u64>(
        &mut self,
        alloc: Global,
        now: u64,
        event: &Event,
        net: &mut Net,
        rank: &RankRule<R>,
    ) -> Result<Sequence<Line>, StepFault>
        requires rank { IsRankRule (R.pre rank.now) }
        requires built { is_built event.now ≡ true }
        requires room { self.old.agent.inputs < 1000000 }
        requires clouds { length net.old.clouds ≡ 3 * self.old.agent.header.f + 1 }
        requires carried { net.old.carried ≤ carried_limit }
        ensures { Brings (R.post rank.now) now self.old self.new net.old net.new event.now result }
    {
        if self.agent.is_up() == matches!(event, Event::Start(_)) {
            return Ok(one_line(alloc, Line::Skip)?);
        }
        let input = input_of(alloc, event)?;
        self.input(alloc, now, input, Sequence::new(alloc), net, rank)
    }

    /// The agent is given the reply to a request where it is up in the incarnation that asked; otherwise the reply is gone.
    fn come_back<R: Fn(RankFacts) -> u64>(
        &mut self,
        alloc: Global,
        now: u64,
        request: RequestNo,
        input: Input,
        before: Sequence<Line>,
        net: &mut Net,
        rank: &RankRule<R>,
    ) -> Result<Sequence<Line>, StepFault>
        requires rank { IsRankRule (R.pre rank.now) }
        requires room { self.old.agent.inputs < 1000000 }
        requires input { FitsInput self.old.agent.header self.old.agent.agent input }
        requires clouds { length net.old.clouds ≡ 3 * self.old.agent.header.f + 1 }
        requires carried { net.old.carried ≤ carried_limit }
        ensures { ComesBack (R.post rank.now) now self.old self.new net.old net.new request input before result }
    {
        if !self.agent.is_up() || self.agent.incarnation() != request.incarnation {
            return Ok(one_line(alloc, Line::Gone(request))?);
        }
        self.input(alloc, now, input, before, net, rank)
    }

    /// The agent is told the oldest reply.
    fn tell<R: Fn(RankFacts) -> u64>(
        &mut self,
        alloc: Global,
        now: u64,
        net: &mut Net,
        rank: &RankRule<R>,
    ) -> Result<Sequence<Line>, StepFault>
        requires rank { IsRankRule (R.pre rank.now) }
        requires room { self.old.agent.inputs < 1000000 }
        requires told { FitsOldest self.old.agent self.old.replied }
        requires clouds { length net.old.clouds ≡ 3 * self.old.agent.header.f + 1 }
        requires carried { net.old.carried ≤ carried_limit }
        ensures { TellsOldest (R.post rank.now) now self.old self.new net.old net.new self.old.replied result }
    {
        let Some(oldest) = self.replied.pop_front() else {
            return Ok(one_line(alloc, Line::Skip)?);
        };
        let input = Input::Space(oldest.request, oldest.reply);
        self.come_back(
            alloc,
            now,
            oldest.request,
            input,
            Sequence::new(alloc),
            net,
            rank,
        )
    }

    /// The space serves the oldest step.
    fn serve(
        &mut self,
        alloc: Global,
        now: u64,
        space: &mut Space,
    ) -> Result<Sequence<Line>, Memory>
        requires moment { now < 2 ^ 62 }
        requires steps { All (λ (x : StepAsked). IsStep x.step) self.old.asked }
        ensures { IfOk result (λ lines. ServesOldest now self.old self.new space.old space.new lines self.old.asked) }
    {
        let Some(oldest) = self.asked.pop_front() else {
            return Ok(one_line(alloc, Line::Skip)?);
        };
        let reply = space.act(now, &oldest.step)?;
        let line = line_of(oldest.request, &oldest.step, &reply);
        self.replied.push_back(StepReply {
            request: oldest.request,
            reply,
        })?;
        Ok(one_line(alloc, line)?)
    }

    /// The oldest step goes to the back.
    fn postpone(&mut self, alloc: Global) -> Result<Sequence<Line>, Memory>
        ensures { IfOk result (λ lines. PostponesOldest self.old self.new lines self.old.asked) }
    {
        if self.asked.is_empty() {
            return Ok(one_line(alloc, Line::Skip)?);
        }
        self.asked.rotate_left(1);
        Ok(Sequence::new(alloc))
    }

    /// Whether a step waits for the space.
    pub(crate) fn asks(&self) -> bool
        ensures { IsTrue result ↔ (self.now.asked ≢ []) }
    {
        !self.asked.is_empty()
    }

    /// Whether a reply waits to be told.
    pub(crate) fn replies(&self) -> bool
        ensures { IsTrue result ↔ (self.now.replied ≢ []) }
    {
        !self.replied.is_empty()
    }

    /// Whether a call is unanswered.
    pub(crate) fn waits(&self) -> bool
        ensures { result ≡ is_some self.now.agent.agent.waiting }
    {
        self.agent.waits()
    }
}
