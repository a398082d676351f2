ghost use Rattle.std.specs.Prelude.{◌≡◌, ◌<◌, ◌+◌, ◌*◌, ◌≤◌, [], length, filter, map, not, None, IfOk, OnOk};
ghost use Rattle.std.specs.List.{All};
ghost use Rattle.scfs_base.specs.Limits.{contents_limit};
ghost use Rattle.scfs_policy.specs.declared.rank.RankFacts.{RankFacts};
ghost use Rattle.scfs_quorum_read.specs.Reading.{is_among};
ghost use Rattle.scfs_model.specs.Layers.{rows};
ghost use Rattle.scfs_model.specs.Leases.{unleased};
ghost use Rattle.scfs_model.specs.Opens.{opened, begins_open, asks_gets, reads, open_hears, open_turns, gives_up, tallied, one_more};
ghost use Rattle.scfs_agent.specs.State.{setup, given_now};
ghost use Rattle.scfs_agent.specs.Views.{row_of, opening_of, next_of};
ghost use Rattle.scfs_agent.specs.Outputs.{outputs_of};
ghost use Rattle.scfs_agent.specs.Keeping.{FitsOutput, IsFetch, IsFetchAsking, IsFree, IsRow, HasRead, HaveRoom, MayDraw};

use crate::ordering::order_by;
use crate::outputs::{alone, append, get_outputs, is_answer_to, numbered};
use crate::work::{Asking, Fetch, Work};
use crate::{Agent, Output};
use scfs_anchor::VersionRow;
use scfs_base::{Bytes, CloudAnswer, FileId, Memory, RequestNo, Sequence};
use scfs_policy::RankFacts;
use scfs_quorum_read::{ReadStep, ReadTracker, TurnStep};
use scfs_schedule::{Line, Refusal, Src};
use scfs_session::Sessions;
use std::alloc::Global;
use std::mem;

/// The turns after which an open is given up.
const TURNS: u8 = 8;

/// The clouds of an order that gave no good answer.
fn wanted(alloc: Global, order: &[u8], tracker: &ReadTracker) -> Result<Sequence<u8>, Memory>
    ensures { IfOk result (λ clouds. clouds ≡ filter (λ c. not (is_among c tracker.now.pieces)) order.now) }
{
    let mut clouds = Sequence::new(alloc);
    let mut rest = order;
    'each: while let Some((cloud, others)) = rest.split_first() {
        if tracker.wants(*cloud) {
            clouds.push(*cloud)?;
        }
        rest = others;
    }
    Ok(clouds)
}

impl Agent {
    /// An open is answered: its session is there.
    pub(crate) fn opened(
        &mut self,
        session: u64,
        id: FileId,
        base: u32,
        writes: bool,
        contents: Bytes,
        source: Src,
    ) -> Result<Sequence<Output>, Memory>
        requires free { IsFree self.old }
        requires short { length contents ≤ contents_limit }
        requires base { base ≤ 1000000 }
        ensures gives { IfOk result (λ given. given ≡ outputs_of self.old
            (opened self.old.agent session (record { file = id; base = base; writes = writes; contents = contents }) source)) }
        ensures after { OnOk result (self.new ≡ record self.old {
          agent = (opened self.old.agent session (record { file = id; base = base; writes = writes; contents = contents }) source).agent;
        }) }
        ensures asks { IfOk result (λ given. All (FitsOutput self.old.header.f) given) }
    {
        let size = contents.len() as u64;
        let mut sessions = mem::replace(&mut self.sessions, Sessions::new(self.alloc)?);
        sessions.add(session, id, base, writes, contents)?;
        self.sessions = sessions;
        self.work = Work::Idle;
        let line = Line::Opened(self.no, session, u64::from(base), source, size);
        alone(self.alloc, Output::Line(line))
    }

    /// A version is read from the clouds, in the order of these ranks.
    pub(crate) fn fetch(
        &mut self,
        now: u64,
        ranks: &[u64],
        session: u64,
        writes: bool,
        row: &VersionRow,
    ) -> Result<Sequence<Output>, Memory>
        requires free { IsFree self.old }
        requires room { MayDraw self.old }
        requires ranks { length ranks.now ≡ 3 * self.old.header.f + 1 }
        requires row { IsRow row.now }
        ensures gives { IfOk result (λ given. given ≡ outputs_of self.old
            (begins_open (setup self.old) rows self.old.no self.old.agent (given_now now ranks.now) session writes (row_of row.now))) }
        ensures after { OnOk result (self.new ≡ record self.old {
          agent = (begins_open (setup self.old) rows self.old.no self.old.agent (given_now now ranks.now) session writes (row_of row.now)).agent;
        }) }
        ensures asks { IfOk result (λ given. All (FitsOutput self.old.header.f) given) }
    {
        let order = order_by(self.alloc, ranks)?;
        let tracker = ReadTracker::new(
            self.alloc,
            self.header.f,
            row.root,
            row.length,
            order.as_slice(),
            Some(TURNS),
        )?;
        let first = Sequence::from_vec(Vec::from_slice(
            self.alloc,
            &order.as_slice()[..usize::from(self.header.f) + 1],
        )?);
        let fetch = Fetch {
            session,
            writes,
            row: *row,
            gets: Sequence::new(self.alloc),
            tracker,
        };
        self.ask_gets(fetch, first.as_slice())
    }

    /// Asks further Gets of these clouds.
    fn ask_gets(&mut self, mut fetch: Fetch, clouds: &[u8]) -> Result<Sequence<Output>, Memory>
        requires free { IsFree self.old }
        requires room { MayDraw self.old }
        requires fetch { IsFetchAsking self.old.header.f fetch clouds.now }
        requires few { length clouds.now ≤ 10 }
        requires clouds { All (λ c. c < 3 * self.old.header.f + 1) clouds.now }
        ensures gives { IfOk result (λ given. given ≡ outputs_of self.old
            (asks_gets (setup self.old) rows self.old.no self.old.agent (opening_of fetch) clouds.now)) }
        ensures after { OnOk result (self.new ≡ record self.old {
          agent = (asks_gets (setup self.old) rows self.old.no self.old.agent (opening_of fetch) clouds.now).agent;
        }) }
        ensures asks { IfOk result (λ given. All (FitsOutput self.old.header.f) given) }
    {
        let gets = numbered(self.alloc, self.no, self.incarnation, self.requests, clouds)?;
        let row = fetch.row;
        let given = get_outputs(
            self.alloc,
            self.header.f,
            row.upload,
            row.length,
            gets.as_slice(),
        )?;
        append(&mut fetch.gets, gets.as_slice())?;
        self.requests += gets.len() as u64;
        self.work = Work::Fetch(fetch);
        Ok(given)
    }

    /// A cloud's answer to an open.
    pub(crate) fn heard_fetch(
        &mut self,
        mut fetch: Fetch,
        cloud: u8,
        request: RequestNo,
        answer: &CloudAnswer,
    ) -> Result<Sequence<Output>, Memory>
        requires free { IsFree self.old }
        requires room { MayDraw self.old }
        requires tallies { HaveRoom self.old.inputs self.old.agent.tallies }
        requires fetch { IsFetch self.old.header.f fetch }
        requires cloud { cloud < 3 * self.old.header.f + 1 }
        ensures gives { IfOk result (λ given. given ≡ outputs_of self.old
            (open_hears (setup self.old) rows self.old.no self.old.agent (opening_of fetch) cloud request answer.now)) }
        ensures after { OnOk result (self.new ≡ record self.old {
          agent = (open_hears (setup self.old) rows self.old.no self.old.agent (opening_of fetch) cloud request answer.now).agent;
        }) }
        ensures asks { IfOk result (λ given. All (FitsOutput self.old.header.f) given) }
    {
        if !is_answer_to(fetch.gets.as_slice(), cloud, request) || !fetch.tracker.wants(cloud) {
            self.work = Work::Fetch(fetch);
            return Ok(Sequence::new(self.alloc));
        }
        let step = fetch.tracker.answer(cloud, answer)?;
        self.tally(cloud, !fetch.tracker.wants(cloud))?;
        self.reads(fetch, step)
    }

    /// A cloud was good or bad to an open.
    fn tally(&mut self, cloud: u8, is_good: bool) -> Result<(), Memory>
        requires { HaveRoom self.old.inputs self.old.agent.tallies }
        ensures { OnOk result (self.new ≡ record self.old { agent = tallied self.old.agent cloud is_good }) }
    {
        self.tallies = one_more_of(self.alloc, self.tallies.as_slice(), cloud, is_good)?;
        Ok(())
    }

    /// What an answer brought.
    fn reads(&mut self, fetch: Fetch, step: ReadStep) -> Result<Sequence<Output>, Memory>
        requires free { IsFree self.old }
        requires room { MayDraw self.old }
        requires fetch { HasRead self.old.header.f fetch step }
        ensures gives { IfOk result (λ given. given ≡ outputs_of self.old
            (reads (setup self.old) rows self.old.no self.old.agent (opening_of fetch) (next_of step))) }
        ensures after { OnOk result (self.new ≡ record self.old {
          agent = (reads (setup self.old) rows self.old.no self.old.agent (opening_of fetch) (next_of step)).agent;
        }) }
        ensures asks { IfOk result (λ given. All (FitsOutput self.old.header.f) given) }
    {
        match step {
            ReadStep::Ask(cloud) => self.ask_gets(fetch, &[cloud]),
            ReadStep::Wait => {
                self.work = Work::Fetch(fetch);
                Ok(Sequence::new(self.alloc))
            }
            ReadStep::Whole(contents) => self.opened(
                fetch.session,
                fetch.row.id,
                fetch.row.number,
                fetch.writes,
                contents,
                Src::Clouds,
            ),
        }
    }

    /// A turn of an open.
    pub(crate) fn turned_fetch(&mut self, mut fetch: Fetch) -> Result<Sequence<Output>, Memory>
        requires free { IsFree self.old }
        requires room { MayDraw self.old }
        requires fetch { IsFetch self.old.header.f fetch }
        ensures gives { IfOk result (λ given. given ≡ outputs_of self.old
            (open_turns (setup self.old) rows self.old.no self.old.agent (opening_of fetch))) }
        ensures after { OnOk result (self.new ≡ record self.old {
          agent = (open_turns (setup self.old) rows self.old.no self.old.agent (opening_of fetch)).agent;
        }) }
        ensures asks { IfOk result (λ given. All (FitsOutput self.old.header.f) given) }
    {
        let wanted = wanted(self.alloc, fetch.tracker.order(), &fetch.tracker)?;
        match fetch.tracker.turn() {
            TurnStep::Again => self.ask_gets(fetch, wanted.as_slice()),
            TurnStep::Spent(good) => self.give_up_open(&fetch, good),
        }
    }

    /// The call for a session is given up, and its lock, if it has one, is not renewed any more.
    pub(crate) fn give_up(&mut self, session: u64)
        requires { IsFree self.old }
        ensures { self.new ≡ record self.old { agent = record (unleased self.old.agent session) { waiting = None } } }
    {
        self.work = Work::Idle;
        self.leases.given_back(session);
    }

    /// An open is given up: its refusal, and where it has a lock, the unlock, which no call waits for.
    fn give_up_open(&mut self, fetch: &Fetch, good: u8) -> Result<Sequence<Output>, Memory>
        requires free { IsFree self.old }
        requires room { MayDraw self.old }
        ensures gives { IfOk result (λ given. given ≡ outputs_of self.old
            (gives_up (setup self.old) rows self.old.no self.old.agent (opening_of fetch.now) good)) }
        ensures after { OnOk result (self.new ≡ record self.old {
          agent = (gives_up (setup self.old) rows self.old.no self.old.agent (opening_of fetch.now) good).agent;
        }) }
        ensures asks { IfOk result (λ given. All (FitsOutput self.old.header.f) given) }
    {
        self.give_up(fetch.session);
        let mut given = Sequence::new(self.alloc);
        if fetch.writes {
            given = self.ask(Asking::Unlock(fetch.row.id, fetch.session))?;
        }
        let why = Refusal::Unavailable(u64::from(fetch.row.number), good);
        given.push(Output::Line(Line::No(self.no, why)))?;
        Ok(given)
    }
}

/// One more good or bad answer of the cloud, if these are its facts.
fn one_more(facts: RankFacts, cloud: u8, is_good: bool) -> RankFacts
    requires good { facts.good < 4294967295 }
    requires bad { facts.bad < 4294967295 }
    ensures { result ≡ one_more cloud is_good facts }
{
    if facts.cloud != cloud {
        return facts;
    }
    if is_good {
        RankFacts {
            good: facts.good + 1,
            ..facts
        }
    } else {
        RankFacts {
            bad: facts.bad + 1,
            ..facts
        }
    }
}

/// The tallies with one more good or bad answer of the cloud.
fn one_more_of(
    alloc: Global,
    tallies: &[RankFacts],
    cloud: u8,
    is_good: bool,
) -> Result<Sequence<RankFacts>, Memory>
    requires { All (λ (x : RankFacts). (x.good < 4294967295) × (x.bad < 4294967295)) tallies.now }
    ensures { IfOk result (λ counted. counted ≡ map (one_more cloud is_good) tallies.now) }
{
    let mut counted = Sequence::new(alloc);
    let mut rest = tallies;
    'each: while let Some((facts, others)) = rest.split_first() {
        counted.push(one_more(*facts, cloud, is_good))?;
        rest = others;
    }
    Ok(counted)
}
