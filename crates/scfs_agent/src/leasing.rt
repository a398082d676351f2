ghost use Rattle.std.specs.Prelude.{◌≡◌, ◌+◌, ◌*◌, ◌^◌, ◌<◌, ◌≤◌, length, IfOk, OnOk};
ghost use Rattle.std.specs.List.{All};
ghost use Rattle.scfs_lease.specs.Leases.{IsRising, first_due};
ghost use Rattle.scfs_anchor.specs.StepReplies.{IsLockReply, FitsLocks};
ghost use Rattle.scfs_model.specs.Lists.{if_some};
ghost use Rattle.scfs_model.specs.Walks.{OrRefusal};
ghost use Rattle.scfs_model.specs.Layers.{rows};
ghost use Rattle.scfs_model.specs.LockSteps.{Lock_outcome, Renew};
ghost use Rattle.scfs_model.specs.Agents.{silent};
ghost use Rattle.scfs_model.specs.Leases.{leased, file_of, renews, renews_due};
ghost use Rattle.scfs_model.specs.Told.{told_renewal};
ghost use Rattle.scfs_agent.specs.Outputs.{outputs_of};
ghost use Rattle.scfs_agent.specs.Keeping.{FitsOutput, Keeps, MayDraw};

use crate::outputs::{alone, extend};
use crate::work::{Asking, Work};
use crate::{Agent, Output};
use scfs_base::{FileId, Memory, RequestNo, Sequence};
use scfs_lease::Leases;
use scfs_schedule::Line;
use scfs_tuples::{Reply, StepResult};
use std::mem;

impl Agent {
    /// A session took a lock that ends then.
    pub(crate) fn lease(&mut self, session: u64, until: u64) -> Result<(), Memory>
        requires session { 1 ≤ session }
        requires room { length self.old.agent.leases + 1 ≤ self.old.inputs }
        ensures { OnOk result (self.new ≡ record self.old { agent = leased self.old.agent session until }) }
    {
        let mut leases = mem::replace(&mut self.leases, Leases::new(self.alloc)?);
        leases.taken(session, until)?;
        self.leases = leases;
        Ok(())
    }

    /// The file of a session that is being read from the clouds, open, or closed and did not end.
    fn file_of(&self, session: u64) -> Option<FileId>
        ensures { result ≡ file_of rows self.now.agent session self.now.agent.waiting }
    {
        match &self.work {
            Work::Fetch(fetch) if fetch.session == session => Some(fetch.row.id),
            Work::Upload(upload) => match self.sessions.file(session) {
                None if upload.session == session => Some(upload.left.id),
                found => found,
            },
            _ => self.sessions.file(session),
        }
    }

    /// The first session above this one whose lock is to be renewed.
    fn next_due(&self, now: u64, after: u64) -> Option<u64>
        ensures due { result ≡ first_due now self.now.header.lease after self.now.agent.leases }
        ensures rising { IsRising self.now.agent.leases }
    {
        self.leases.due(now, self.header.lease, after)
    }

    /// The lock of a session is to live longer.
    fn renew(&mut self, session: u64) -> Result<Sequence<Output>, Memory>
        requires { self.old.agent.requests + 1 ≤ 2000000 * self.old.inputs }
        ensures gives { IfOk result (λ given. given ≡ outputs_of self.old
            (if_some (file_of rows self.old.agent session self.old.agent.waiting) (silent self.old.agent)
            (renews rows self.old.no self.old.agent session))) }
        ensures after { OnOk result (self.new ≡ record self.old {
          agent = (if_some (file_of rows self.old.agent session self.old.agent.waiting) (silent self.old.agent)
              (renews rows self.old.no self.old.agent session)).agent;
        }) }
        ensures asks { IfOk result (λ given. All (FitsOutput self.old.header.f) given) }
    {
        let Some(file) = self.file_of(session) else {
            return Ok(Sequence::new(self.alloc));
        };
        self.leases.asked(session);
        self.ask(Asking::Renew(file, session))
    }

    /// The locks that are due are to live longer, in the order of their sessions.
    pub(crate) fn renew_due(&mut self, now: u64) -> Result<Sequence<Output>, Memory>
        requires { self.old.agent.requests + 2000000 ≤ 2000000 * self.old.inputs }
        ensures gives { IfOk result (λ given. given ≡ outputs_of self.old
            (renews_due rows self.old.no self.old.agent now self.old.header.lease)) }
        ensures after { OnOk result (self.new ≡ record self.old {
          agent = (renews_due rows self.old.no self.old.agent now self.old.header.lease).agent;
        }) }
        ensures room { OnOk result (MayDraw self.new) }
        ensures closed { OnOk result (self.new.agent.closed ≡ self.old.agent.closed) }
        ensures asks { IfOk result (λ given. All (FitsOutput self.old.header.f) given) }
    {
        let mut given = Sequence::new(self.alloc);
        let mut after = 0;
        'each: while let Some(session) = self.next_due(now, after) {
            let asked = self.renew(session)?;
            extend(&mut given, asked)?;
            after = session;
        }
        Ok(given)
    }

    /// A renewal is told what it came to: the new end of the lock, or that it is not to be renewed again.
    pub(crate) fn told_renewal(
        &mut self,
        request: RequestNo,
        id: FileId,
        session: u64,
        reply: &Reply,
    ) -> Result<Sequence<Output>, Memory>
        ensures gives { (r : OrRefusal Lock_outcome) → IsLockReply self.old.header.lease request (Renew id session) r reply.entry.now
            → FitsLocks (Renew id session) r → IfOk result (λ given. given ≡ outputs_of self.old (told_renewal self.old.agent session r)) }
        ensures after { (r : OrRefusal Lock_outcome) → IsLockReply self.old.header.lease request (Renew id session) r reply.entry.now
            → FitsLocks (Renew id session) r → OnOk result (self.new ≡ record self.old { agent = (told_renewal self.old.agent session r).agent }) }
        ensures keeps { OnOk result (Keeps self.old self.new) }
        ensures asks { IfOk result (λ given. All (FitsOutput self.old.header.f) given) }
    {
        match &reply.result {
            StepResult::Refused { index: _, tuple: _ } => {
                self.leases.lapsed(session);
                alone(self.alloc, Output::Line(Line::Lapsed(self.no, session)))
            }
            StepResult::Did {
                bound: _,
                taken: _,
                rows: _,
            } => {
                let until = reply.now.saturating_add(self.header.lease);
                self.leases.renewed(session, until);
                Ok(Sequence::new(self.alloc))
            }
        }
    }
}
