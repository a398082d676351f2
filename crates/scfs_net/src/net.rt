ghost use Rattle.std.specs.Prelude.{◌≡◌, ◌≢◌, ◌+◌, ◌<◌, ◌≤◌, ◌↔◌, [], length, slice_get, IfOk, IsTrue, MatchResult};
ghost use Rattle.std.specs.Option.{option_copied, option_map};
ghost use Rattle.scfs_base.specs.Limits.{carried_limit};
ghost use Rattle.scfs_net.specs.Queues.{new_net, cloud_at, at_cloud, net_asked, net_answered, net_repeated, net_doubled, LeadsTo, always, serving, hiding, net_did, lost, taken, deferred, swapped, moved};

use crate::cloud::Cloud;
use crate::weights::weight_of_request;
use crate::{CARRIED_LIMIT, Did, Given, Moved, NetFault};
use scfs_base::{CloudAnswer, CloudRequest, Memory, RequestNo};
use std::alloc::Global;
use std::marker::Model;

/// The n = 3f+1 storage clouds of a run: their queues, what they hold, and the bytes that their requests and replies
/// carried in all.
#[derive(Drop)]
pub struct Net {
    alloc: Global,
    clouds: Vec<Cloud>,
    carried: u64,
}

impl Model for Net {
    ghost use Rattle.scfs_net.specs.Queues.{NetState};

    ghost Value = { NetState };

    ghost use Rattle.std.specs.Prelude.{◌≤◌};
    ghost use Rattle.scfs_base.specs.Limits.{carried_limit};

    ghost view = { λ net. record { clouds = net.clouds.items; carried = net.carried } };

    ghost invariant = { λ net. net.carried ≤ carried_limit };
}

/// The carried bytes after so many more, unless they pass the limit.
fn carried_after(carried: u64, weight: u64) -> Result<u64, NetFault>
    ensures { MatchResult result
        (λ total. (total ≡ carried + weight) × (total ≤ carried_limit))
        (λ fault. (fault ≡ NetFault.TooLarge) × (carried_limit < carried + weight)) }
{
    let total = carried.saturating_add(weight);
    if total > CARRIED_LIMIT {
        Err(NetFault::TooLarge)
    } else {
        Ok(total)
    }
}

impl Net {
    /// Clouds 0 to 3f, which nobody asked yet.
    pub fn new(alloc: Global, f: u8) -> Result<Net, Memory>
        requires { f ≤ 3 }
        ensures { IfOk result (λ net. net ≡ new_net f) }
    {
        let mut clouds = Vec::new(alloc);
        'made: for _number in 0..3 * f + 1 {
            clouds.push(Cloud::new(alloc))?;
        }
        Ok(Net {
            alloc,
            clouds,
            carried: 0,
        })
    }

    fn cloud(&self, cloud: u8) -> &Cloud
        requires { cloud < length self.now.clouds }
        ensures { result.now ≡ cloud_at self.now cloud }
    {
        &self.clouds[cloud as usize]
    }

    /// Places a request at the back of the cloud's requests.
    pub fn ask(&mut self, cloud: u8, request: RequestNo, body: CloudRequest) -> Result<(), NetFault>
        requires { cloud < length self.old.clouds }
        ensures { LeadsTo self.old self.new (net_asked self.old cloud request body) tt result }
    {
        let carried = carried_after(self.carried, weight_of_request(&body))?;
        self.clouds[cloud as usize].ask(request, body)?;
        self.carried = carried;
        Ok(())
    }

    /// The cloud answers its oldest request as stated: `None` exactly where no request waits.
    pub fn say(&mut self, cloud: u8, answer: CloudAnswer) -> Result<Option<Did>, NetFault>
        requires { cloud < length self.old.clouds }
        ensures { LeadsTo self.old self.new (net_answered (always answer) self.old cloud) (net_did (always answer) self.old cloud) result }
    {
        let weight = self.cloud(cloud).said_weight(&answer);
        let carried = carried_after(self.carried, weight)?;
        let did = self.clouds[cloud as usize].answer(self.alloc, answer)?;
        self.carried = carried;
        Ok(did)
    }

    /// The cloud serves its oldest request: `None` exactly where no request waits.
    pub fn serve(&mut self, cloud: u8) -> Result<Option<Did>, NetFault>
        requires { cloud < length self.old.clouds }
        ensures { LeadsTo self.old self.new (net_answered serving self.old cloud) (net_did serving self.old cloud) result }
    {
        let answer = self.cloud(cloud).served(self.alloc)?;
        self.say(cloud, answer)
    }

    /// The cloud answers its oldest request as if it held nothing, but stores and deletes: `None` exactly where no request
    /// waits.
    pub fn hide(&mut self, cloud: u8) -> Result<Option<Did>, NetFault>
        requires { cloud < length self.old.clouds }
        ensures { LeadsTo self.old self.new (net_answered hiding self.old cloud) (net_did hiding self.old cloud) result }
    {
        let answer = self.cloud(cloud).hidden(self.alloc);
        self.say(cloud, answer)
    }

    /// The cloud fails at its oldest request: `None` exactly where no request waits.
    pub fn fail(&mut self, cloud: u8) -> Result<Option<Did>, NetFault>
        requires { cloud < length self.old.clouds }
        ensures { LeadsTo self.old self.new (net_answered (always CloudAnswer.Fail) self.old cloud)
            (net_did (always CloudAnswer.Fail) self.old cloud) result }
    {
        self.say(cloud, CloudAnswer::Fail)
    }

    /// Takes the cloud's oldest reply: `None` exactly where no reply waits.
    pub fn give(&mut self, cloud: u8) -> Option<Given>
        requires { cloud < length self.old.clouds }
        ensures answer { result ≡ slice_get (cloud_at self.old cloud).replies 0 }
        ensures after { self.new ≡ at_cloud self.old cloud taken }
    {
        self.clouds[cloud as usize].take()
    }

    /// The cloud's oldest request is lost.
    pub fn lose(&mut self, cloud: u8) -> Moved
        requires { cloud < length self.old.clouds }
        ensures answer { result ≡ moved (cloud_at self.old cloud).requests }
        ensures after { self.new ≡ at_cloud self.old cloud lost }
    {
        self.clouds[cloud as usize].lose()
    }

    /// The cloud's oldest reply is lost.
    pub fn drop_reply(&mut self, cloud: u8) -> Moved
        requires { cloud < length self.old.clouds }
        ensures answer { result ≡ moved (cloud_at self.old cloud).replies }
        ensures after { self.new ≡ at_cloud self.old cloud taken }
    {
        match self.give(cloud) {
            None => Moved::Skipped,
            Some(_) => Moved::Done,
        }
    }

    /// The cloud's oldest request goes to the back.
    pub fn defer(&mut self, cloud: u8) -> Moved
        requires { cloud < length self.old.clouds }
        ensures answer { result ≡ moved (cloud_at self.old cloud).requests }
        ensures after { self.new ≡ at_cloud self.old cloud deferred }
    {
        self.clouds[cloud as usize].defer()
    }

    /// The cloud's oldest reply goes to the back.
    pub fn swap(&mut self, cloud: u8) -> Moved
        requires { cloud < length self.old.clouds }
        ensures answer { result ≡ moved (cloud_at self.old cloud).replies }
        ensures after { self.new ≡ at_cloud self.old cloud swapped }
    {
        self.clouds[cloud as usize].swap()
    }

    /// A copy of the cloud's oldest request goes to the back.
    pub fn again(&mut self, cloud: u8) -> Result<Moved, NetFault>
        requires { cloud < length self.old.clouds }
        ensures { LeadsTo self.old self.new (net_repeated self.old cloud) (moved (cloud_at self.old cloud).requests) result }
    {
        let weight = self.cloud(cloud).oldest_request_weight();
        let carried = carried_after(self.carried, weight)?;
        let moved = self.clouds[cloud as usize].repeat(self.alloc)?;
        self.carried = carried;
        Ok(moved)
    }

    /// A copy of the cloud's oldest reply goes to the back.
    pub fn twice(&mut self, cloud: u8) -> Result<Moved, NetFault>
        requires { cloud < length self.old.clouds }
        ensures { LeadsTo self.old self.new (net_doubled self.old cloud) (moved (cloud_at self.old cloud).replies) result }
    {
        let weight = self.cloud(cloud).oldest_reply_weight();
        let carried = carried_after(self.carried, weight)?;
        let moved = self.clouds[cloud as usize].double(self.alloc)?;
        self.carried = carried;
        Ok(moved)
    }

    /// The cloud's oldest request: `None` exactly where no request waits.
    pub fn oldest(&self, cloud: u8) -> Option<&CloudRequest>
        requires { cloud < length self.now.clouds }
        ensures { option_copied result ≡ option_map (λ asked. asked.body) (slice_get (cloud_at self.now cloud).requests 0) }
    {
        self.cloud(cloud).oldest()
    }

    /// Whether a reply of the cloud waits.
    pub fn replies(&self, cloud: u8) -> bool
        requires { cloud < length self.now.clouds }
        ensures { IsTrue result ↔ ((cloud_at self.now cloud).replies ≢ []) }
    {
        self.cloud(cloud).replies()
    }
}
