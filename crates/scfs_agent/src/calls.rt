ghost use Rattle.std.specs.Prelude.{◌≡◌, ◌≢◌, ◌<◌, ◌+◌, ◌*◌, ◌≤◌, ◌^◌, ℕ, [], ◌∷◌, length, Err, Ok, None, true, false, is_some, IfOk, OnOk, IfSome};
ghost use Rattle.std.specs.List.{All};
ghost use Rattle.std.specs.Str.{is_utf8};
ghost use Rattle.scfs_session.specs.Open.{session_of, read_answer, after_write, after_truncate};
ghost use Rattle.scfs_schedule.specs.declared.types.Call.TheVariants as calls;
ghost use Rattle.scfs_model.specs.Lists.{if_some};
ghost use Rattle.scfs_model.specs.Lives.{is_ready};
ghost use Rattle.scfs_model.specs.Names.{file_id};
ghost use Rattle.scfs_model.specs.Paths.{names_of};
ghost use Rattle.scfs_model.specs.Steps.{On_sessions};
ghost use Rattle.scfs_model.specs.Sayings as says;
ghost use Rattle.scfs_model.specs.Agents.{saying};
ghost use Rattle.scfs_model.specs.Calls.{call_of, called, makes, looks, opens, refuse, unless_refused, any_names, some_names, path_names, with_session, close};
ghost use Rattle.scfs_agent.specs.State.{setup};
ghost use Rattle.scfs_agent.specs.Views.{step_of};
ghost use Rattle.scfs_agent.specs.Outputs.{outputs_of};
ghost use Rattle.scfs_agent.specs.Settled.{settled};
ghost use Rattle.scfs_agent.specs.Telling.{open_step};
ghost use Rattle.scfs_agent.specs.Keeping.{FitsOutput, FitsAsking, HasRoom, IsIdle};

use crate::outputs::alone;
use crate::work::{Asking, Work};
use crate::{Agent, Output};
use scfs_anchor::Path;
use scfs_base::{FileId, Memory, Sequence};
use scfs_schedule::{Call, Line, Refusal};
use scfs_session::Sessions;
use std::alloc::Global;
use std::mem;

/// The most open sessions of an agent.
const SESSIONS_LIMIT: u64 = 64;

impl Agent {
    /// A user's call: Busy while another is unanswered, and Starting before the agent is ready.
    pub(crate) fn call(&mut self, call: &Call) -> Result<Sequence<Output>, Memory>
        requires { HasRoom self.old }
        ensures gives { IfOk result (λ given. given ≡ outputs_of self.old
            (settled (setup self.old) self.old.no (call_of self.old.no (setup self.old) self.old.agent call.now self.old.agent.waiting))) }
        ensures after { OnOk result (self.new ≡ record self.old {
          agent = (settled (setup self.old) self.old.no (call_of self.old.no (setup self.old) self.old.agent call.now self.old.agent.waiting)).agent;
        }) }
        ensures asks { IfOk result (λ given. All (FitsOutput self.old.header.f) given) }
    {
        if self.waits() {
            return self.refuse(Refusal::Busy);
        }
        if !self.is_idle() {
            return self.refuse(Refusal::Starting(0));
        }
        match call {
            Call::Close(session) => self.close(*session),
            _ => self.called(call),
        }
    }

    /// Whether it is ready, and no call is unanswered: then nothing is uploaded, and no call waits for a step.
    fn is_idle(&self) -> bool
        ensures idle { result ≡ true → IsIdle self.now }
        ensures other { result ≡ false → is_some self.now.agent.waiting ≡ false → is_ready self.now.agent.life ≡ false }
    {
        matches!(self.work, Work::Idle)
    }

    /// A call other than a close that comes while none is unanswered.
    fn called(&mut self, call: &Call) -> Result<Sequence<Output>, Memory>
        requires room { HasRoom self.old }
        requires idle { IsIdle self.old }
        requires other { (h : ℕ) → call.now ≢ calls.Close h }
        ensures gives { IfOk result (λ given. given ≡ outputs_of self.old (called self.old.no (setup self.old) self.old.agent call.now)) }
        ensures after { OnOk result (self.new ≡ record self.old { agent = (called self.old.no (setup self.old) self.old.agent call.now).agent }) }
        ensures asks { IfOk result (λ given. All (FitsOutput self.old.header.f) given) }
    {
        match call {
            Call::Create(path) => self.create(path.as_slice()),
            Call::Stat(path) => self.stat(path.as_slice()),
            Call::OpenR(path) => self.open(path.as_slice(), false),
            Call::OpenW(path) => self.open(path.as_slice(), true),
            Call::Read(session, offset, count) => self.read(*session, *offset, *count),
            Call::Write(session, offset, bytes) => {
                self.write(*session, *offset, bytes.as_slice())
            }
            Call::Truncate(session, size) => self.truncate(*session, *size),
            _ => Ok(Sequence::new(self.alloc)),
        }
    }

    /// It refuses.
    pub(crate) fn refuse(&self, why: Refusal) -> Result<Sequence<Output>, Memory>
        ensures gives { IfOk result (λ given. given ≡ outputs_of self.now (refuse self.now.agent why)) }
        ensures asks { IfOk result (λ given. All (FitsOutput self.now.header.f) given) }
    {
        alone(self.alloc, Output::Line(Line::No(self.no, why)))
    }

    /// A new file.
    fn create(&mut self, path: &[u8]) -> Result<Sequence<Output>, Memory>
        requires room { HasRoom self.old }
        requires idle { IsIdle self.old }
        ensures gives { IfOk result (λ given. given ≡ outputs_of self.old
            (unless_refused self.old.agent (path_names (setup self.old) path.now) (makes self.old.no self.old.agent))) }
        ensures after { OnOk result (self.new ≡ record self.old {
          agent = (unless_refused self.old.agent (path_names (setup self.old) path.now) (makes self.old.no self.old.agent)).agent;
        }) }
        ensures asks { IfOk result (λ given. All (FitsOutput self.old.header.f) given) }
    {
        match path_below(self.alloc, path)? {
            None => self.refuse(Refusal::BadName),
            Some(path) => self.create_at(path),
        }
    }

    /// A new file at a path below the root.
    fn create_at(&mut self, path: Path) -> Result<Sequence<Output>, Memory>
        requires room { HasRoom self.old }
        requires idle { IsIdle self.old }
        requires below { path ≢ [] }
        ensures gives { IfOk result (λ given. given ≡ outputs_of self.old (makes self.old.no self.old.agent path)) }
        ensures after { OnOk result (self.new ≡ record self.old { agent = (makes self.old.no self.old.agent path).agent }) }
        ensures asks { IfOk result (λ given. All (FitsOutput self.old.header.f) given) }
    {
        let count = self.files + 1;
        let id = file_id(self.no, self.incarnation, count);
        self.files = count;
        self.work = Work::Step;
        self.ask(Asking::Make(path, id))
    }

    /// What is known of a node.
    fn stat(&mut self, path: &[u8]) -> Result<Sequence<Output>, Memory>
        requires room { HasRoom self.old }
        requires idle { IsIdle self.old }
        ensures gives { IfOk result (λ given. given ≡ outputs_of self.old
            (unless_refused self.old.agent (any_names (setup self.old) path.now) (looks self.old.no self.old.agent))) }
        ensures after { OnOk result (self.new ≡ record self.old {
          agent = (unless_refused self.old.agent (any_names (setup self.old) path.now) (looks self.old.no self.old.agent)).agent;
        }) }
        ensures asks { IfOk result (λ given. All (FitsOutput self.old.header.f) given) }
    {
        match any_path(self.alloc, path)? {
            None => self.refuse(Refusal::BadName),
            Some(path) => self.stat_at(path),
        }
    }

    /// What is known of the node of a path.
    fn stat_at(&mut self, path: Path) -> Result<Sequence<Output>, Memory>
        requires room { HasRoom self.old }
        requires idle { IsIdle self.old }
        ensures gives { IfOk result (λ given. given ≡ outputs_of self.old (looks self.old.no self.old.agent path)) }
        ensures after { OnOk result (self.new ≡ record self.old { agent = (looks self.old.no self.old.agent path).agent }) }
        ensures asks { IfOk result (λ given. All (FitsOutput self.old.header.f) given) }
    {
        self.work = Work::Step;
        self.ask(Asking::Look(path))
    }

    /// An open of a file.
    fn open(&mut self, path: &[u8], writes: bool) -> Result<Sequence<Output>, Memory>
        requires room { HasRoom self.old }
        requires idle { IsIdle self.old }
        ensures gives { IfOk result (λ given. given ≡ outputs_of self.old (unless_refused self.old.agent (path_names (setup self.old) path.now)
            (λ names. opens self.old.no self.old.agent (open_step writes names)))) }
        ensures after { OnOk result (self.new ≡ record self.old {
          agent = (unless_refused self.old.agent (path_names (setup self.old) path.now)
              (λ names. opens self.old.no self.old.agent (open_step writes names))).agent;
        }) }
        ensures asks { IfOk result (λ given. All (FitsOutput self.old.header.f) given) }
    {
        match path_below(self.alloc, path)? {
            None => self.refuse(Refusal::BadName),
            Some(path) => self.open_at(path, writes),
        }
    }

    /// An open of a file at a path below the root.
    fn open_at(&mut self, path: Path, writes: bool) -> Result<Sequence<Output>, Memory>
        requires room { HasRoom self.old }
        requires idle { IsIdle self.old }
        requires below { path ≢ [] }
        ensures gives { IfOk result (λ given. given ≡ outputs_of self.old (opens self.old.no self.old.agent (open_step writes path))) }
        ensures after { OnOk result (self.new ≡ record self.old { agent = (opens self.old.no self.old.agent (open_step writes path)).agent }) }
        ensures asks { IfOk result (λ given. All (FitsOutput self.old.header.f) given) }
    {
        if self.sessions.len() >= SESSIONS_LIMIT {
            return self.refuse(Refusal::TooManyHandles);
        }
        let session = self.opens + 1;
        self.opens = session;
        self.work = Work::Step;
        self.ask(opening(path, session, writes))
    }

    /// Bytes of a session.
    fn read(&self, session: u64, offset: u64, count: u64) -> Result<Sequence<Output>, Memory>
        ensures gives { IfOk result (λ given. given ≡ outputs_of self.now
            (unless_refused self.now.agent (read_answer (session_of self.now.agent.sessions session) offset count)
            (λ bytes. saying self.now.agent (says.Reads_out session bytes)))) }
        ensures after { OnOk result (self.now.agent ≡ (unless_refused self.now.agent
            (read_answer (session_of self.now.agent.sessions session) offset count)
            (λ bytes. saying self.now.agent (says.Reads_out session bytes))).agent) }
        ensures asks { IfOk result (λ given. All (FitsOutput self.now.header.f) given) }
    {
        match self.sessions.read(session, offset, count)? {
            Err(why) => self.refuse(why),
            Ok(bytes) => alone(
                self.alloc,
                Output::Line(Line::Data(self.no, session, bytes)),
            ),
        }
    }

    /// A write to a session.
    fn write(&mut self, session: u64, offset: u64, bytes: &[u8]) -> Result<Sequence<Output>, Memory>
        ensures gives { IfOk result (λ given. given ≡ outputs_of self.old
            (unless_refused self.old.agent (after_write (session_of self.old.agent.sessions session) offset bytes.now)
            (λ y. saying (with_session self.old.agent session y) (says.Wrote session (length y.contents))))) }
        ensures after { OnOk result (self.new ≡ record self.old {
          agent = (unless_refused self.old.agent (after_write (session_of self.old.agent.sessions session) offset bytes.now)
              (λ y. saying (with_session self.old.agent session y) (says.Wrote session (length y.contents)))).agent;
        }) }
        ensures asks { IfOk result (λ given. All (FitsOutput self.old.header.f) given) }
    {
        let mut sessions = mem::replace(&mut self.sessions, Sessions::new(self.alloc)?);
        let answer = sessions.write(session, offset, bytes)?;
        self.sessions = sessions;
        match answer {
            Err(why) => self.refuse(why),
            Ok(length) => {
                let line = Line::OkWrite(self.no, session, u64::from(length));
                alone(self.alloc, Output::Line(line))
            }
        }
    }

    /// A truncate of a session.
    fn truncate(&mut self, session: u64, size: u64) -> Result<Sequence<Output>, Memory>
        ensures gives { IfOk result (λ given. given ≡ outputs_of self.old
            (unless_refused self.old.agent (after_truncate (session_of self.old.agent.sessions session) size)
            (λ y. saying (with_session self.old.agent session y) (says.Truncated session (length y.contents))))) }
        ensures after { OnOk result (self.new ≡ record self.old {
          agent = (unless_refused self.old.agent (after_truncate (session_of self.old.agent.sessions session) size)
              (λ y. saying (with_session self.old.agent session y) (says.Truncated session (length y.contents)))).agent;
        }) }
        ensures asks { IfOk result (λ given. All (FitsOutput self.old.header.f) given) }
    {
        let mut sessions = mem::replace(&mut self.sessions, Sessions::new(self.alloc)?);
        let answer = sessions.truncate(session, size)?;
        self.sessions = sessions;
        match answer {
            Err(why) => self.refuse(why),
            Ok(length) => {
                let line = Line::OkTruncate(self.no, session, u64::from(length));
                alone(self.alloc, Output::Line(line))
            }
        }
    }

    /// A close of a session: what a writing one leaves is uploaded.
    fn close(&mut self, session: u64) -> Result<Sequence<Output>, Memory>
        requires room { HasRoom self.old }
        requires idle { IsIdle self.old }
        ensures gives { IfOk result (λ given. given ≡ outputs_of self.old
            (settled (setup self.old) self.old.no (close self.old.agent session (session_of self.old.agent.sessions session)))) }
        ensures after { OnOk result (self.new ≡ record self.old {
          agent = (settled (setup self.old) self.old.no (close self.old.agent session (session_of self.old.agent.sessions session))).agent;
        }) }
        ensures asks { IfOk result (λ given. All (FitsOutput self.old.header.f) given) }
    {
        match self.sessions.take(session) {
            Err(why) => self.refuse(why),
            Ok(left) => {
                if left.writes {
                    self.begin(session, left)
                } else {
                    let line = Line::OkClose(self.no, session);
                    alone(self.alloc, Output::Line(line))
                }
            }
        }
    }
}

/// The path that bytes spell; none where they spell none.
fn any_path(alloc: Global, bytes: &[u8]) -> Result<Option<Path>, Memory>
    ensures { IfOk result (λ path. path ≡ names_of is_utf8 bytes.now) }
{
    Path::read(alloc, bytes)
}

/// The path below the root that bytes spell; none where they spell none.
fn path_below(alloc: Global, bytes: &[u8]) -> Result<Option<Path>, Memory>
    ensures names { IfOk result (λ path. if_some path (Err Refusal.BadName) Ok
        ≡ some_names (if_some (names_of is_utf8 bytes.now) (Err Refusal.BadName) Ok)) }
    ensures below { IfOk result (λ path. IfSome path (λ names. names ≢ [])) }
{
    match any_path(alloc, bytes)? {
        None => Ok(None),
        Some(path) => {
            if path.is_root() {
                return Ok(None);
            }
            Ok(Some(path))
        }
    }
}

/// What an open asks.
fn opening(path: Path, session: u64, writes: bool) -> Asking
    requires path { path ≢ [] }
    requires session { 1 ≤ session }
    ensures step { step_of result ≡ On_sessions (open_step writes path session) }
    ensures fits { FitsAsking result }
{
    if writes {
        Asking::OpenWrite(path, session)
    } else {
        Asking::OpenRead(path, session)
    }
}

/// The file id that an agent draws with this count in an incarnation.
fn file_id(agent: u8, incarnation: u32, count: u32) -> FileId
    requires { incarnation < 2 ^ 24 }
    ensures { result ≡ file_id agent incarnation count }
{
    FileId(u64::from(agent) * (1 << 56) + u64::from(incarnation) * (1 << 32) + u64::from(count))
}
