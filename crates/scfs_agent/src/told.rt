ghost use Rattle.std.specs.Prelude.{◌≡◌, ◌≢◌, ◌<◌, ◌+◌, ◌*◌, ◌≤◌, ◌&&◌, ℕ, List, [], ◌∷◌, length, map, true, false, cond, is_some, None, Some, IfOk, IfSome, OnOk};
ghost use Rattle.std.specs.List.{All};
ghost use Rattle.scfs_policy.specs.Rank.{IsRankRule};
ghost use Rattle.scfs_anchor.specs.StepPlans.{step_on_tuples};
ghost use Rattle.scfs_anchor.specs.StepReplies.{IsReplyTo, FitsOutcome, IsNameReply, FitsNames, IsSessionReply, FitsSessions};
ghost use Rattle.scfs_anchor.specs.Replies.{refusal_in, sight_of};
ghost use Rattle.scfs_model.specs.Layers.{Row, rows};
ghost use Rattle.scfs_model.specs.Walks.{OrRefusal};
ghost use Rattle.scfs_model.specs.NameSteps.{Make, Look, Name_outcome};
ghost use Rattle.scfs_model.specs.SessionSteps.{Commit, Session_outcome};
ghost use Rattle.scfs_model.specs.Steps.{Outcome, On_sessions};
ghost use Rattle.scfs_model.specs.Runs.{Answers};
ghost use Rattle.scfs_model.specs.Sayings.{said_by};
ghost use Rattle.scfs_model.specs.Agents.{For_close};
ghost use Rattle.scfs_model.specs.Opens.{saw, sighted, found};
ghost use Rattle.scfs_model.specs.Told.{tells, told, told_open, told_commit, told_closed, name_answer};
ghost use Rattle.scfs_agent.specs.State.{setup, given_now};
ghost use Rattle.scfs_agent.specs.Views.{step_of, request_of, row_of, closed_of};
ghost use Rattle.scfs_agent.specs.Outputs.{outputs_of};
ghost use Rattle.scfs_agent.specs.Keeping.{FitsOutput, FitsAsking, HasRoom, IsFree, IsRow, Keeps, MayDraw, is_call};
ghost use Rattle.scfs_agent.specs.Telling.{IsTold, FitsReply, outcome_step, pending_step, reads_version, shows_version, has_version, is_open, kind_of, stat_line, first_place, is_numbered, FitsSeen, sight_meant, found_of, open_step};

use crate::outputs::{after_line, alone, same_request};
use crate::work::{Asking, Pending, Upload, Work};
use crate::{Agent, Output};
use scfs_anchor::{Path, ROOT, Sight, VersionRow, number_at, refusal, sight_of};
use scfs_base::{Bytes, FileId, Memory, RequestNo, Sequence};
use scfs_policy::{RankFacts, RankRule};
use scfs_schedule::{How, Kind, Line, Src};
use scfs_tuples::{Field, Reply, StepResult};
use std::mem;

/// The place of what was asked under a number, behind all where there is none.
fn place_of(pending: &[Pending], request: RequestNo) -> usize
    ensures place { result ≡ first_place (is_numbered request) (map request_of pending.now) }
    ensures within { result ≤ length pending.now }
{
    let mut at = 0;
    let mut rest = pending;
    'each: while let Some((first, others)) = rest.split_first() {
        if same_request(first.number, request) {
            return at;
        }
        at += 1;
        rest = others;
    }
    at
}

/// Whether it asks for an open.
fn is_open(asking: &Asking) -> bool
    ensures { result ≡ is_open (step_of asking.now) }
{
    match asking {
        Asking::OpenRead(_path, _session) | Asking::OpenWrite(_path, _session) => true,
        Asking::Make(_path, _id) => false,
        Asking::Look(_path) => false,
        Asking::Commit(_session, _row) => false,
        Asking::Unlock(_id, _session) | Asking::Renew(_id, _session) => false,
        Asking::UnlockAll => false,
    }
}

/// The row of the version that an open reads by its sight; version 0 has none.
fn row_seen(seen: &Sight) -> Option<VersionRow>
    ensures found { found_of result ≡ found (sight_meant seen.now) }
    ensures some { is_some result ≡ has_version seen.now }
    ensures fits { FitsSeen seen.now → IfSome result IsRow }
{
    if seen.newest == 0 { None } else { seen.row }
}

/// Whether a result shows a version that is to be read.
fn shows_version(came: &StepResult) -> bool
    ensures { result ≡ shows_version came.now }
{
    match came {
        StepResult::Did {
            bound: _,
            taken: _,
            rows: _,
        } => row_seen(&sight_of(came)).is_some(),
        StepResult::Refused { index: _, tuple: _ } => false,
    }
}

/// The kind that a number of a node's tuple stands for.
fn kind_of(number: u64) -> Kind
    ensures { result ≡ kind_of number }
{
    if number == 0 { Kind::Dir } else { Kind::File }
}

/// The answer of a stat, from the last four fields that its step bound.
fn stat_line(agent: u8, of_root: bool, bound: &[Field]) -> Line
    ensures { result ≡ stat_line agent of_root bound.now }
{
    if of_root {
        return Line::OkStat(agent, Kind::Dir, FileId(ROOT), 0, 0, How::Fresh);
    }
    let at = bound.len().saturating_sub(4);
    Line::OkStat(
        agent,
        kind_of(number_at(bound, at + 1)),
        FileId(number_at(bound, at)),
        number_at(bound, at + 2),
        number_at(bound, at + 3),
        How::Fresh,
    )
}

impl Agent {
    /// Whether a reply of the space has the agent read a version.
    fn reads_version(&self, request: RequestNo, reply: &Reply) -> bool
        ensures { result ≡ reads_version (pending_step self.now.agent.pending request) reply.entry.now.result }
    {
        let at = place_of(self.pending.as_slice(), request);
        match self.pending.get(at) {
            None => false,
            Some(asked) => is_open(&asked.asking) && shows_version(&reply.result),
        }
    }

    /// What the rank rule says on a reply of the space: it is asked about all clouds where a version is to be read.
    pub(crate) fn ranks<R: Fn(RankFacts) -> u64>(
        &self,
        request: RequestNo,
        reply: &Reply,
        rank: &RankRule<R>,
    ) -> Result<Sequence<u64>, Memory>
        requires { IsRankRule (R.pre rank.now) }
        ensures answers { IfOk result (λ ranks. Answers (R.post rank.now)
            (cond (reads_version (pending_step self.now.agent.pending request) reply.entry.now.result) self.now.agent.tallies []) ranks) }
        ensures count { IfOk result (λ ranks. reads_version (pending_step self.now.agent.pending request) reply.entry.now.result ≡ true
            → length ranks ≡ 3 * self.now.header.f + 1) }
    {
        if !self.reads_version(request, reply) {
            return Ok(Sequence::new(self.alloc));
        }
        self.all_ranks(rank)
    }

    /// What the rank rule says of all clouds.
    fn all_ranks<R: Fn(RankFacts) -> u64>(
        &self,
        rank: &RankRule<R>,
    ) -> Result<Sequence<u64>, Memory>
        requires { IsRankRule (R.pre rank.now) }
        ensures answers { IfOk result (λ ranks. Answers (R.post rank.now) self.now.agent.tallies ranks) }
        ensures count { IfOk result (λ ranks. length ranks ≡ 3 * self.now.header.f + 1) }
    {
        let mut ranks = Sequence::new(self.alloc);
        let mut rest = self.tallies.as_slice();
        'each: while let Some((facts, others)) = rest.split_first() {
            ranks.push(rank.rank(*facts))?;
            rest = others;
        }
        Ok(ranks)
    }

    /// The space's reply to a step: what was asked under its number is told what it came to.
    pub(crate) fn told(
        &mut self,
        now: u64,
        ranks: &[u64],
        request: RequestNo,
        reply: &Reply,
    ) -> Result<Sequence<Output>, Memory>
        requires room { HasRoom self.old }
        requires reply { FitsReply (pending_step self.old.agent.pending request) reply.now }
        requires ranks { reads_version (pending_step self.old.agent.pending request) reply.now.result ≡ true
            → length ranks.now ≡ 3 * self.old.header.f + 1 }
        ensures gives { (o : Outcome Row) → IsTold self.old.header.lease self.old.agent.pending request reply.entry.now o
            → IfOk result (λ given. given ≡ outputs_of self.old
            (tells (setup self.old) rows self.old.no self.old.agent (given_now now ranks.now) request o)) }
        ensures after { (o : Outcome Row) → IsTold self.old.header.lease self.old.agent.pending request reply.entry.now o
            → OnOk result (self.new ≡ record self.old {
              agent = (tells (setup self.old) rows self.old.no self.old.agent (given_now now ranks.now) request o).agent;
            }) }
        ensures keeps { OnOk result (Keeps self.old self.new) }
        ensures asks { IfOk result (λ given. All (FitsOutput self.old.header.f) given) }
    {
        let at = place_of(self.pending.as_slice(), request);
        if at == self.pending.len() {
            return Ok(Sequence::new(self.alloc));
        }
        let Pending { number: _, asking } = self.pending.remove(at);
        self.told_step(now, ranks, request, &asking, reply)
    }

    /// A step that was asked is told what it came to.
    fn told_step(
        &mut self,
        now: u64,
        ranks: &[u64],
        request: RequestNo,
        asking: &Asking,
        reply: &Reply,
    ) -> Result<Sequence<Output>, Memory>
        requires room { MayDraw self.old }
        requires asking { FitsAsking asking.now }
        requires leases { length self.old.agent.leases + 1 ≤ self.old.inputs }
        requires reply { is_open (step_of asking.now) ≡ true → FitsSeen (sight_of reply.now.result) }
        requires call { is_call (step_of asking.now) ≡ true → IsFree self.old }
        requires ranks { (is_open (step_of asking.now) && shows_version reply.now.result) ≡ true
            → length ranks.now ≡ 3 * self.old.header.f + 1 }
        ensures gives { (o : Outcome Row) → outcome_step o ≡ step_of asking.now → IsReplyTo self.old.header.lease request o reply.entry.now
            → FitsOutcome o → IfOk result (λ given. given ≡ outputs_of self.old
            (told (setup self.old) rows self.old.no self.old.agent (given_now now ranks.now) request o)) }
        ensures after { (o : Outcome Row) → outcome_step o ≡ step_of asking.now → IsReplyTo self.old.header.lease request o reply.entry.now
            → FitsOutcome o → OnOk result (self.new ≡ record self.old {
              agent = (told (setup self.old) rows self.old.no self.old.agent (given_now now ranks.now) request o).agent;
            }) }
        ensures keeps { OnOk result (Keeps self.old self.new) }
        ensures asks { IfOk result (λ given. All (FitsOutput self.old.header.f) given) }
    {
        match asking {
            Asking::Make(path, id) => self.told_make(request, asking, path, *id, reply),
            Asking::Look(path) => self.told_look(request, asking, path, reply),
            Asking::OpenRead(_path, session) => {
                self.told_open(now, ranks, request, asking, *session, false, reply)
            }
            Asking::OpenWrite(_path, session) => {
                self.told_open(now, ranks, request, asking, *session, true, reply)
            }
            Asking::Commit(session, row) => {
                self.told_commit(request, asking, *session, row, reply)
            }
            Asking::Unlock(_id, _session) => Ok(Sequence::new(self.alloc)),
            Asking::UnlockAll => self.told_start(request, reply),
            Asking::Renew(id, session) => self.told_renewal(request, *id, *session, reply),
        }
    }

    /// It says why a step was refused.
    fn say_refused(
        &self,
        request: RequestNo,
        asking: &Asking,
        reply: &Reply,
    ) -> Result<Sequence<Output>, Memory>
        requires { FitsAsking asking.now }
        ensures gives { IfOk result (λ given. given ≡ Output.Line (Line.No self.now.no
            (refusal_in (step_on_tuples self.now.header.lease request (step_of asking.now)).conds reply.entry.now.result)) ∷ []) }
        ensures asks { IfOk result (λ given. All (FitsOutput self.now.header.f) given) }
    {
        let step = self.step(request, asking)?;
        let why = refusal(&step, reply);
        alone(self.alloc, Output::Line(Line::No(self.no, why)))
    }

    /// The call for a new file is told what its step came to.
    fn told_make(
        &mut self,
        request: RequestNo,
        asking: &Asking,
        path: &Path,
        id: FileId,
        reply: &Reply,
    ) -> Result<Sequence<Output>, Memory>
        requires asking { FitsAsking asking.now }
        requires make { asking.now ≡ Asking.Make path.now id }
        requires free { IsFree self.old }
        ensures gives { (r : OrRefusal Name_outcome) → IsNameReply (Make path.now id) r reply.entry.now → FitsNames (Make path.now id) r
            → IfOk result (λ given. given ≡ Output.Line (said_by self.old.no (name_answer r)) ∷ []) }
        ensures after { OnOk result (self.new ≡ record self.old { agent = record self.old.agent { waiting = None } }) }
        ensures asks { IfOk result (λ given. All (FitsOutput self.old.header.f) given) }
    {
        self.work = Work::Idle;
        match &reply.result {
            StepResult::Refused { index: _, tuple: _ } => self.say_refused(request, asking, reply),
            StepResult::Did {
                bound: _,
                taken: _,
                rows: _,
            } => alone(self.alloc, Output::Line(Line::OkCreate(self.no, id))),
        }
    }

    /// The look at a node is told what its step came to.
    fn told_look(
        &mut self,
        request: RequestNo,
        asking: &Asking,
        path: &Path,
        reply: &Reply,
    ) -> Result<Sequence<Output>, Memory>
        requires asking { FitsAsking asking.now }
        requires look { asking.now ≡ Asking.Look path.now }
        requires free { IsFree self.old }
        ensures gives { (r : OrRefusal Name_outcome) → IsNameReply (Look path.now) r reply.entry.now → FitsNames (Look path.now) r
            → IfOk result (λ given. given ≡ Output.Line (said_by self.old.no (name_answer r)) ∷ []) }
        ensures after { OnOk result (self.new ≡ record self.old { agent = record self.old.agent { waiting = None } }) }
        ensures asks { IfOk result (λ given. All (FitsOutput self.old.header.f) given) }
    {
        self.work = Work::Idle;
        match &reply.result {
            StepResult::Refused { index: _, tuple: _ } => self.say_refused(request, asking, reply),
            StepResult::Did {
                bound,
                taken: _,
                rows: _,
            } => {
                let line = stat_line(self.no, path.is_root(), bound.as_slice());
                alone(self.alloc, Output::Line(line))
            }
        }
    }

    /// An open is told what its step came to.
    fn told_open(
        &mut self,
        now: u64,
        ranks: &[u64],
        request: RequestNo,
        asking: &Asking,
        session: u64,
        writes: bool,
        reply: &Reply,
    ) -> Result<Sequence<Output>, Memory>
        requires room { MayDraw self.old }
        requires asking { FitsAsking asking.now }
        requires leases { length self.old.agent.leases + 1 ≤ self.old.inputs }
        requires session { 1 ≤ session }
        requires seen { FitsSeen (sight_of reply.now.result) }
        requires free { IsFree self.old }
        requires ranks { shows_version reply.now.result ≡ true → length ranks.now ≡ 3 * self.old.header.f + 1 }
        ensures gives { (names : List (List ℕ)) (r : OrRefusal (Session_outcome Row))
            → On_sessions (open_step writes names session) ≡ step_of asking.now
            → IsSessionReply self.old.header.lease request (open_step writes names session) r reply.entry.now
            → FitsSessions (open_step writes names session) r → IfOk result (λ given. given ≡ outputs_of self.old
            (told_open (setup self.old) rows self.old.no self.old.agent (given_now now ranks.now) request session r)) }
        ensures after { (names : List (List ℕ)) (r : OrRefusal (Session_outcome Row))
            → On_sessions (open_step writes names session) ≡ step_of asking.now
            → IsSessionReply self.old.header.lease request (open_step writes names session) r reply.entry.now
            → FitsSessions (open_step writes names session) r → OnOk result (self.new ≡ record self.old {
              agent = (told_open (setup self.old) rows self.old.no self.old.agent (given_now now ranks.now) request session r).agent;
            }) }
        ensures keeps { OnOk result (Keeps self.old self.new) }
        ensures asks { IfOk result (λ given. All (FitsOutput self.old.header.f) given) }
    {
        match &reply.result {
            StepResult::Refused { index: _, tuple: _ } => {
                self.work = Work::Idle;
                self.say_refused(request, asking, reply)
            }
            StepResult::Did {
                bound: _,
                taken: _,
                rows: _,
            } => {
                if writes {
                    self.lease(session, reply.now.saturating_add(self.header.lease))?;
                }
                let seen = sight_of(&reply.result);
                self.saw(now, ranks, request, session, writes, &seen)
            }
        }
    }

    /// What an open saw: version 0 is opened at once, another is read from the clouds.
    fn saw(
        &mut self,
        now: u64,
        ranks: &[u64],
        request: RequestNo,
        session: u64,
        writes: bool,
        seen: &Sight,
    ) -> Result<Sequence<Output>, Memory>
        requires room { MayDraw self.old }
        requires fits { FitsSeen seen.now }
        requires free { IsFree self.old }
        requires ranks { has_version seen.now ≡ true → length ranks.now ≡ 3 * self.old.header.f + 1 }
        ensures gives { IfOk result (λ given. given ≡ outputs_of self.old
            (saw (setup self.old) rows self.old.no self.old.agent (given_now now ranks.now) request session writes (sight_meant seen.now))) }
        ensures after { OnOk result (self.new ≡ record self.old {
          agent = (saw (setup self.old) rows self.old.no self.old.agent (given_now now ranks.now)
              request session writes (sight_meant seen.now)).agent;
        }) }
        ensures asks { IfOk result (λ given. All (FitsOutput self.old.header.f) given) }
    {
        let line = Line::Saw(request, seen.id, u64::from(seen.newest));
        let more = self.sights(now, ranks, session, writes, seen)?;
        after_line(self.alloc, line, more)
    }

    /// What becomes of an open by its sight.
    fn sights(
        &mut self,
        now: u64,
        ranks: &[u64],
        session: u64,
        writes: bool,
        seen: &Sight,
    ) -> Result<Sequence<Output>, Memory>
        requires room { MayDraw self.old }
        requires fits { FitsSeen seen.now }
        requires free { IsFree self.old }
        requires ranks { has_version seen.now ≡ true → length ranks.now ≡ 3 * self.old.header.f + 1 }
        ensures gives { IfOk result (λ given. given ≡ outputs_of self.old (sighted (setup self.old) rows self.old.no self.old.agent
            (given_now now ranks.now) session writes (sight_meant seen.now) (found (sight_meant seen.now)))) }
        ensures after { OnOk result (self.new ≡ record self.old {
          agent = (sighted (setup self.old) rows self.old.no self.old.agent
              (given_now now ranks.now) session writes (sight_meant seen.now) (found (sight_meant seen.now))).agent;
        }) }
        ensures asks { IfOk result (λ given. All (FitsOutput self.old.header.f) given) }
    {
        match row_seen(seen) {
            None => {
                let contents = Bytes::new(self.alloc);
                self.opened(session, seen.id, seen.newest, writes, contents, Src::Empty)
            }
            Some(row) => self.fetch(now, ranks, session, writes, &row),
        }
    }

    /// The close of a session is told what its step came to.
    fn told_commit(
        &mut self,
        request: RequestNo,
        asking: &Asking,
        session: u64,
        row: &VersionRow,
        reply: &Reply,
    ) -> Result<Sequence<Output>, Memory>
        requires asking { FitsAsking asking.now }
        requires commit { asking.now ≡ Asking.Commit session row.now }
        ensures gives { (r : OrRefusal (Session_outcome Row))
            → IsSessionReply self.old.header.lease request (Commit session (row_of row.now)) r reply.entry.now
            → FitsSessions (Commit session (row_of row.now)) r → IfOk result (λ given. given ≡ outputs_of self.old
            (told_commit (setup self.old) rows self.old.no self.old.agent self.old.agent.closed r)) }
        ensures after { (r : OrRefusal (Session_outcome Row))
            → IsSessionReply self.old.header.lease request (Commit session (row_of row.now)) r reply.entry.now
            → FitsSessions (Commit session (row_of row.now)) r → OnOk result (self.new ≡ record self.old {
              agent = (told_commit (setup self.old) rows self.old.no self.old.agent self.old.agent.closed r).agent;
            }) }
        ensures keeps { OnOk result (Keeps self.old self.new) }
        ensures asks { IfOk result (λ given. All (FitsOutput self.old.header.f) given) }
    {
        match mem::replace(&mut self.work, Work::Idle) {
            Work::Upload(upload) => {
                let given = self.completed(request, asking, session, row, &upload, reply)?;
                self.leases.given_back(upload.session);
                Ok(given)
            }
            other => {
                self.work = other;
                Ok(Sequence::new(self.alloc))
            }
        }
    }

    /// The answer to the close of an uploaded session.
    fn completed(
        &self,
        request: RequestNo,
        asking: &Asking,
        session: u64,
        row: &VersionRow,
        upload: &Upload,
        reply: &Reply,
    ) -> Result<Sequence<Output>, Memory>
        requires asking { FitsAsking asking.now }
        requires commit { asking.now ≡ Asking.Commit session row.now }
        ensures gives { (r : OrRefusal (Session_outcome Row))
            → IsSessionReply self.now.header.lease request (Commit session (row_of row.now)) r reply.entry.now
            → FitsSessions (Commit session (row_of row.now)) r → IfOk result (λ given. given ≡ outputs_of self.now
            (told_closed (setup self.now) rows self.now.no (record self.now.agent { waiting = Some For_close }) (closed_of upload.now) r)) }
        ensures asks { IfOk result (λ given. All (FitsOutput self.now.header.f) given) }
    {
        match &reply.result {
            StepResult::Refused { index: _, tuple: _ } => self.say_refused(request, asking, reply),
            StepResult::Did {
                bound: _,
                taken: _,
                rows: _,
            } => {
                let line = Line::Closed(self.no, upload.session, u64::from(row.number));
                alone(self.alloc, Output::Line(line))
            }
        }
    }
}
