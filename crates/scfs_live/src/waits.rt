//! What waits in a world, by agent and by cloud. Nothing waits at one that is not there.

ghost use Rattle.std.specs.Prelude.{◌≡◌, ◌<◌, ◌↔◌, IsTrue, length};
ghost use Rattle.scfs_live.specs.Waits.{answer_waits, call_waits, reply_waits, request_waits, step_waits, waits_in};
ghost use Rattle.scfs_world.specs.Stepping.{IsWorld};

use scfs_world::World;

/// How many clouds there are.
fn clouds_of(world: &World) -> u8
    requires { IsWorld world.now }
    ensures { result ≡ length world.now.net.clouds }
{
    3 * world.header().f + 1
}

/// Whether there is an agent of that number.
fn has_agent(world: &World, agent: u8) -> bool
    requires { IsWorld world.now }
    ensures { IsTrue result ↔ (agent < length world.now.seats) }
{
    usize::from(agent) < world.header().agents.len()
}

/// Whether a step of the agent waits for the space.
pub fn step_waits(world: &World, agent: u8) -> bool
    requires { IsWorld world.now }
    ensures { result ≡ step_waits (waits_in world.now) agent }
{
    has_agent(world, agent) && world.space_request(agent)
}

/// Whether a reply of the space waits for the agent.
pub fn reply_waits(world: &World, agent: u8) -> bool
    requires { IsWorld world.now }
    ensures { result ≡ reply_waits (waits_in world.now) agent }
{
    has_agent(world, agent) && world.space_reply(agent)
}

/// Whether the call of the agent is unanswered.
pub fn call_waits(world: &World, agent: u8) -> bool
    requires { IsWorld world.now }
    ensures { result ≡ call_waits (waits_in world.now) agent }
{
    has_agent(world, agent) && world.waits(agent)
}

/// Whether a request waits for the cloud.
pub fn request_waits(world: &World, cloud: u8) -> bool
    requires { IsWorld world.now }
    ensures { result ≡ request_waits (waits_in world.now) cloud }
{
    cloud < clouds_of(world) && world.request(cloud).is_some()
}

/// Whether an answer of the cloud waits to be given.
pub fn answer_waits(world: &World, cloud: u8) -> bool
    requires { IsWorld world.now }
    ensures { result ≡ answer_waits (waits_in world.now) cloud }
{
    cloud < clouds_of(world) && world.replied(cloud)
}
