ghost use Rattle.std.specs.Prelude.{◌≡◌, ◌+◌, ◌^◌, ◌<◌, ◌≤◌, ◌*◌, [], length, is_some, cond, IfOk, OnOk};
ghost use Rattle.scfs_tuples.specs.Steps.{IsStep};
ghost use Rattle.std.specs.List.{All};
ghost use Rattle.scfs_policy.specs.Rank.{IsRankRule};
ghost use Rattle.scfs_schedule.specs.Grammar.{IsHeader};
ghost use Rattle.scfs_anchor.specs.StepPlans.{step_on_tuples};
ghost use Rattle.scfs_model.specs.Names.{request_no};
ghost use Rattle.scfs_model.specs.Layers.{rows};
ghost use Rattle.scfs_model.specs.UnitFormat.{under};
ghost use Rattle.scfs_model.specs.Lives.{is_up};
ghost use Rattle.scfs_model.specs.Agents.{first_agent, asks_step, no_tallies};
ghost use Rattle.scfs_model.specs.Opens.{open_turns};
ghost use Rattle.scfs_model.specs.Closes.{upload_turns};
ghost use Rattle.scfs_model.specs.Reactions.{hears, to_work, turns};
ghost use Rattle.scfs_agent.specs.State.{setup, given_now};
ghost use Rattle.scfs_agent.specs.Asking.{MayAsk};
ghost use Rattle.scfs_agent.specs.Views.{step_of};
ghost use Rattle.scfs_agent.specs.Outputs.{outputs_of};
ghost use Rattle.scfs_agent.specs.Keeping.{FitsOutput, FitsAsking, HasRoom, Keeps, MayDraw, MayTurn, calls_in, calls_of, is_call};
ghost use Rattle.scfs_agent.specs.Reacting.{FitsInput, Reacts};

use crate::outputs::{alone, extend};
use crate::work::{Asking, Pending, Work};
use crate::{Input, Output};
use scfs_anchor::{commit, create, open_read, open_write, renew, stat, unlock, unlock_all};
use scfs_base::{CloudAnswer, Memory, RequestNo, Sequence};
use scfs_lease::Leases;
use scfs_policy::{RankFacts, RankRule};
use scfs_schedule::Header;
use scfs_session::Sessions;
use scfs_tuples::Step;
use std::alloc::Global;
use std::marker::Model;
use std::mem;

/// One agent of a run: a machine from inputs to outputs.
#[derive(Drop)]
pub struct Agent {
    pub(crate) alloc: Global,
    pub(crate) header: Header,
    pub(crate) no: u8,
    pub(crate) inputs: u64,
    pub(crate) work: Work,
    pub(crate) sessions: Sessions,
    pub(crate) leases: Leases,
    pub(crate) pending: Sequence<Pending>,
    pub(crate) tallies: Sequence<RankFacts>,
    pub(crate) incarnation: u32,
    pub(crate) requests: u64,
    pub(crate) opens: u64,
    pub(crate) files: u32,
    pub(crate) uploads: u32,
}

impl Model for Agent {
    ghost use Rattle.std.specs.Coded.{codes};
    ghost use Rattle.std.specs.Prelude.{map};
    ghost use Rattle.scfs_agent.specs.State.{AgentState};
    ghost use Rattle.scfs_agent.specs.Views.{life_of, waiting_of, closed_in, request_of};
    ghost use Rattle.scfs_agent.specs.Keeping.{IsKept};
    ghost use Rattle.scfs_agent.specs.contracts.work.Work as unfinished;

    ghost Value = { AgentState };

    ghost coded = { Prim.hlevel (codes, unfinished.the_row.coded) };

    ghost view = { λ a. record {
      header = a.header;
      no = a.no;
      inputs = a.inputs;
      agent = record {
        life = life_of a.work;
        waiting = waiting_of a.work;
        sessions = a.sessions;
        closed = closed_in a.work;
        leases = a.leases;
        pending = map request_of a.pending;
        tallies = a.tallies;
        incarnation = a.incarnation;
        requests = a.requests;
        opens = a.opens;
        files = a.files;
        uploads = a.uploads;
      };
    } };

    ghost invariant = { λ a. IsKept a.header a.no a.incarnation a.inputs a.requests a.opens a.files a.uploads a.work a.sessions a.leases
        a.tallies a.pending };
}

/// The tallies of all clouds, with no answers counted.
pub(crate) fn no_tallies(alloc: Global, header: &Header) -> Result<Sequence<RankFacts>, Memory>
    requires { IsHeader header.now }
    ensures { IfOk result (λ tallies. tallies ≡ no_tallies (under header.now)) }
{
    let mut tallies = Sequence::new(alloc);
    for cloud in 0..3 * header.f + 1 {
        tallies.push(RankFacts {
            cloud,
            good: 0,
            bad: 0,
        })?;
    }
    Ok(tallies)
}

impl Agent {
    /// The agent of this number of the header, which has not been given anything.
    pub fn new(alloc: Global, no: u8, header: &Header) -> Result<Agent, Memory>
        requires header { IsHeader header.now }
        requires no { no < length header.now.agents }
        ensures { IfOk result (λ agent. agent
            ≡ record { header = header.now; no = no; inputs = 0; agent = first_agent (under header.now) }) }
    {
        Ok(Agent {
            alloc,
            header: header.copy(alloc)?,
            no,
            inputs: 0,
            work: Work::Idle,
            sessions: Sessions::new(alloc)?,
            leases: Leases::new(alloc)?,
            pending: Sequence::new(alloc),
            tallies: no_tallies(alloc, header)?,
            incarnation: 0,
            requests: 0,
            opens: 0,
            files: 0,
            uploads: 0,
        })
    }

    /// What the agent does when this input comes: its steps, its answers, then its requests to clouds. Fewer than 1,000,000 came before.
    pub fn on<R: Fn(RankFacts) -> u64>(
        &mut self,
        now: u64,
        input: Input,
        rank: &RankRule<R>,
    ) -> Result<Sequence<Output>, Memory>
        requires rank { IsRankRule (R.pre rank.now) }
        requires room { self.old.inputs < 1000000 }
        requires input { FitsInput self.old.header self.old.agent input }
        ensures reacts { IfOk result (λ given.
            Reacts (R.post rank.now) now self.old.header self.old.no self.old.agent self.new.agent given input) }
        ensures asks { IfOk result (λ given. All (FitsOutput self.old.header.f) given) }
        ensures header { OnOk result (self.new.header ≡ self.old.header) }
        ensures no { OnOk result (self.new.no ≡ self.old.no) }
        ensures inputs { OnOk result (self.new.inputs ≡ self.old.inputs + 1) }
    {
        self.count_input();
        self.obey(now, &input, rank)
    }

    /// Counts an input.
    fn count_input(&mut self)
        requires { self.old.inputs < 1000000 }
        ensures after { self.new ≡ record self.old { inputs = self.old.inputs + 1 } }
        ensures room { HasRoom self.new }
    {
        self.inputs += 1;
    }

    /// What it draws next fits, and so does what it asks to be completed; it does nothing.
    fn may_ask(&self)
        ensures { MayAsk self.now.no self.now.agent }
    {
        let _no = self.no;
    }

    /// Does what a counted input asks for.
    fn obey<R: Fn(RankFacts) -> u64>(
        &mut self,
        now: u64,
        input: &Input,
        rank: &RankRule<R>,
    ) -> Result<Sequence<Output>, Memory>
        requires rank { IsRankRule (R.pre rank.now) }
        requires room { HasRoom self.old }
        requires input { FitsInput self.old.header self.old.agent input.now }
        ensures reacts { IfOk result (λ given.
            Reacts (R.post rank.now) now self.old.header self.old.no self.old.agent self.new.agent given input.now) }
        ensures keeps { OnOk result (Keeps self.old self.new) }
        ensures asks { IfOk result (λ given. All (FitsOutput self.old.header.f) given) }
    {
        self.may_ask();
        match input {
            Input::Call(call) => self.call(call),
            Input::Space(request, reply) => {
                let ranks = self.ranks(*request, reply, rank)?;
                self.told(now, ranks.as_slice(), *request, reply)
            }
            Input::Cloud(cloud, request, answer) => self.heard(*cloud, *request, answer),
            Input::Turn => self.turn(now),
            Input::Crash => self.crash(),
            Input::Start => self.start(),
        }
    }

    /// A cloud's answer.
    fn heard(
        &mut self,
        cloud: u8,
        request: RequestNo,
        answer: &CloudAnswer,
    ) -> Result<Sequence<Output>, Memory>
        requires room { HasRoom self.old }
        requires cloud { cloud < 3 * self.old.header.f + 1 }
        ensures gives { IfOk result (λ given. given ≡ outputs_of self.old
            (hears (setup self.old) rows self.old.no self.old.agent cloud request answer.now)) }
        ensures after { OnOk result (self.new ≡ record self.old {
          agent = (hears (setup self.old) rows self.old.no self.old.agent cloud request answer.now).agent;
        }) }
        ensures asks { IfOk result (λ given. All (FitsOutput self.old.header.f) given) }
    {
        match mem::replace(&mut self.work, Work::Idle) {
            Work::Fetch(fetch) => self.heard_fetch(fetch, cloud, request, answer),
            Work::Upload(upload) => self.heard_upload(upload, cloud, request, answer),
            other => {
                self.work = other;
                Ok(Sequence::new(self.alloc))
            }
        }
    }

    /// A turn: first the locks are renewed that are due.
    fn turn(&mut self, now: u64) -> Result<Sequence<Output>, Memory>
        requires { HasRoom self.old }
        ensures gives { IfOk result (λ given. given ≡ outputs_of self.old
            (turns (setup self.old) rows self.old.no self.old.agent (given_now now []))) }
        ensures after { OnOk result (self.new ≡ record self.old {
          agent = (turns (setup self.old) rows self.old.no self.old.agent (given_now now [])).agent;
        }) }
        ensures asks { IfOk result (λ given. All (FitsOutput self.old.header.f) given) }
    {
        let mut given = self.renew_due(now)?;
        let more = self.turn_work()?;
        extend(&mut given, more)?;
        Ok(given)
    }

    /// A turn of the open or the upload.
    fn turn_work(&mut self) -> Result<Sequence<Output>, Memory>
        requires room { MayDraw self.old }
        requires turns { MayTurn self.old.inputs self.old.agent.closed }
        ensures gives { IfOk result (λ given. given ≡ outputs_of self.old
            (to_work self.old.agent (open_turns (setup self.old) rows self.old.no) (upload_turns (setup self.old) self.old.no))) }
        ensures after { OnOk result (self.new ≡ record self.old {
          agent = (to_work self.old.agent (open_turns (setup self.old) rows self.old.no) (upload_turns (setup self.old) self.old.no)).agent;
        }) }
        ensures asks { IfOk result (λ given. All (FitsOutput self.old.header.f) given) }
    {
        match mem::replace(&mut self.work, Work::Idle) {
            Work::Fetch(fetch) => self.turned_fetch(fetch),
            Work::Upload(upload) => self.turned_upload(upload),
            other => {
                self.work = other;
                Ok(Sequence::new(self.alloc))
            }
        }
    }

    /// The number of the next request.
    fn next_number(&self) -> RequestNo
        requires { self.now.agent.requests < 2 ^ 63 }
        ensures { result ≡ request_no self.now.no self.now.agent.incarnation (self.now.agent.requests + 1) }
    {
        RequestNo {
            agent: self.no,
            incarnation: self.incarnation,
            number: self.requests + 1,
        }
    }

    /// It asks a step of the space.
    pub(crate) fn ask(&mut self, asking: Asking) -> Result<Sequence<Output>, Memory>
        requires room { self.old.agent.requests + 1 ≤ 2000000 * self.old.inputs }
        requires asking { FitsAsking asking }
        requires calls { calls_in self.old.agent.pending + cond (is_call (step_of asking)) 1 0 ≤ calls_of self.old.agent.waiting }
        ensures gives { IfOk result (λ given. given ≡ outputs_of self.old (asks_step self.old.no self.old.agent (step_of asking))) }
        ensures after { OnOk result (self.new ≡ record self.old { agent = (asks_step self.old.no self.old.agent (step_of asking)).agent }) }
        ensures asks { IfOk result (λ given. All (FitsOutput self.old.header.f) given) }
    {
        let number = self.next_number();
        let step = self.step(number, &asking)?;
        self.pending.push(Pending { number, asking })?;
        self.requests += 1;
        alone(self.alloc, Output::Space(number, step))
    }

    /// What is asked under a number, as a step of the space.
    pub(crate) fn step(&self, number: RequestNo, asking: &Asking) -> Result<Step, Memory>
        requires { FitsAsking asking.now }
        ensures step { IfOk result (λ step. step ≡ step_on_tuples self.now.header.lease number (step_of asking.now)) }
        ensures allowed { IfOk result (λ step. IsStep step) }
    {
        let (alloc, agent, incarnation) = (self.alloc, number.agent, number.incarnation);
        match asking {
            Asking::Make(path, id) => create(alloc, path, *id),
            Asking::Look(path) => stat(alloc, path),
            Asking::OpenRead(path, _session) => open_read(alloc, path, None),
            Asking::OpenWrite(path, session) => {
                let lease = self.header.lease;
                open_write(alloc, path, agent, incarnation, *session, lease)
            }
            Asking::Commit(session, row) => commit(alloc, row, *session),
            Asking::Unlock(id, session) => unlock(alloc, *id, agent, incarnation, *session),
            Asking::UnlockAll => unlock_all(alloc, agent),
            Asking::Renew(id, session) => {
                renew(alloc, *id, agent, incarnation, *session, self.header.lease)
            }
        }
    }

    /// Whether a call is unanswered.
    pub fn waits(&self) -> bool
        ensures { result ≡ is_some self.now.agent.waiting }
    {
        matches!(self.work, Work::Step | Work::Fetch(_) | Work::Upload(_))
    }

    /// Whether it is up.
    pub fn is_up(&self) -> bool
        ensures { result ≡ is_up self.now.agent.life }
    {
        !matches!(self.work, Work::Down)
    }

    /// The incarnation: how often the agent was started.
    pub fn incarnation(&self) -> u32
        ensures { result ≡ self.now.agent.incarnation }
    {
        self.incarnation
    }
}
