ghost use Rattle.std.specs.Prelude.{◌≡◌, ◌+◌, ◌*◌, ◌^◌, ◌<◌, ◌≤◌, false, IfOk, OnOk};
ghost use Rattle.std.specs.List.{All};
ghost use Rattle.scfs_anchor.specs.StepReplies.{IsLockReply, FitsLocks};
ghost use Rattle.scfs_model.specs.Lives.{Ready, is_up};
ghost use Rattle.scfs_model.specs.Walks.{OrRefusal};
ghost use Rattle.scfs_model.specs.LockSteps.{Lock_outcome, Unlock_all};
ghost use Rattle.scfs_model.specs.Layers.{rows};
ghost use Rattle.scfs_model.specs.Reactions.{crashes, starts};
ghost use Rattle.scfs_model.specs.Told.{told_start};
ghost use Rattle.scfs_agent.specs.State.{setup};
ghost use Rattle.scfs_agent.specs.Outputs.{outputs_of};
ghost use Rattle.scfs_agent.specs.Keeping.{FitsOutput, HasRoom, Keeps};

use crate::agent::no_tallies;
use crate::outputs::alone;
use crate::work::{Asking, Work};
use crate::{Agent, Output};
use scfs_base::{Memory, RequestNo, Sequence};
use scfs_lease::Leases;
use scfs_schedule::Line;
use scfs_session::Sessions;
use scfs_tuples::{Reply, StepResult};

impl Agent {
    /// It goes down, and loses all but the numbers that it drew.
    pub(crate) fn crash(&mut self) -> Result<Sequence<Output>, Memory>
        ensures gives { IfOk result (λ given. given ≡ outputs_of self.old (crashes (setup self.old) rows self.old.no self.old.agent)) }
        ensures after { OnOk result (self.new ≡ record self.old { agent = (crashes (setup self.old) rows self.old.no self.old.agent).agent }) }
        ensures asks { IfOk result (λ given. All (FitsOutput self.old.header.f) given) }
    {
        self.sessions = Sessions::new(self.alloc)?;
        self.leases = Leases::new(self.alloc)?;
        self.tallies = no_tallies(self.alloc, &self.header)?;
        self.pending = Sequence::new(self.alloc);
        self.work = Work::Down;
        alone(self.alloc, Output::Line(Line::Crashed(self.no)))
    }

    /// It comes up in its next incarnation, and asks that all its locks are given back.
    pub(crate) fn start(&mut self) -> Result<Sequence<Output>, Memory>
        requires room { HasRoom self.old }
        requires down { is_up self.old.agent.life ≡ false }
        ensures gives { IfOk result (λ given. given ≡ outputs_of self.old (starts (setup self.old) rows self.old.no self.old.agent)) }
        ensures after { OnOk result (self.new ≡ record self.old { agent = (starts (setup self.old) rows self.old.no self.old.agent).agent }) }
        ensures asks { IfOk result (λ given. All (FitsOutput self.old.header.f) given) }
    {
        self.work = Work::Starting;
        self.incarnation += 1;
        self.requests = 0;
        self.opens = 0;
        self.files = 0;
        self.uploads = 0;
        let mut given = self.ask(Asking::UnlockAll)?;
        given.push(Output::Line(Line::Started(self.no, self.incarnation)))?;
        Ok(given)
    }

    /// It is ready.
    fn get_ready(&mut self)
        ensures { self.new ≡ record self.old { agent = record self.old.agent { life = Ready } } }
    {
        if matches!(self.work, Work::Down | Work::Starting) {
            self.work = Work::Idle;
        }
    }

    /// An agent that starts is told that the locks that it took before are given back.
    pub(crate) fn told_start(
        &mut self,
        request: RequestNo,
        reply: &Reply,
    ) -> Result<Sequence<Output>, Memory>
        ensures gives { (r : OrRefusal Lock_outcome) → IsLockReply self.old.header.lease request Unlock_all r reply.entry.now
            → FitsLocks Unlock_all r → IfOk result (λ given. given ≡ outputs_of self.old (told_start self.old.agent r)) }
        ensures after { (r : OrRefusal Lock_outcome) → IsLockReply self.old.header.lease request Unlock_all r reply.entry.now
            → FitsLocks Unlock_all r → OnOk result (self.new ≡ record self.old { agent = (told_start self.old.agent r).agent }) }
        ensures keeps { OnOk result (Keeps self.old self.new) }
        ensures asks { IfOk result (λ given. All (FitsOutput self.old.header.f) given) }
    {
        match &reply.result {
            StepResult::Refused { index: _, tuple: _ } => Ok(Sequence::new(self.alloc)),
            StepResult::Did {
                bound: _,
                taken: _,
                rows: _,
            } => {
                self.get_ready();
                alone(self.alloc, Output::Line(Line::Ready(self.no)))
            }
        }
    }
}
