//! A real cloud is asked for the answer that an event says.

ghost use Rattle.std.specs.Prelude.{◌≡◌, ◌≤◌, ◌<◌, ◌+◌, ◌*◌, IfOk, length, map};
ghost use Rattle.scfs_cloud.specs.Cutting.{IsKept};
ghost use Rattle.scfs_world.specs.Stepping.{IsWorld};
ghost use Rattle.scfs_live.specs.Asked.{told};
ghost use Rattle.scfs_live.specs.Driven.{answer_in};
ghost use Rattle.scfs_live.specs.Driving.{event_of};
ghost use Rattle.scfs_live.specs.Able.{CanBeDone, CanBeNext};
ghost use Rattle.scfs_live.specs.Hearing.{answer_made, AsksAs, AtOne, Heard};
ghost use Rattle.scfs_live.specs.Waits.{waits_in};

use crate::driver::Next;
use scfs_base::{CloudAnswer, CloudRequest, Memory};
use scfs_cloud::{Cloud, ask_cloud};
use scfs_schedule::Event;
use scfs_world::World;
use std::alloc::Global;

/// Asks one of the clouds; the others stay.
fn ask_one<C: Cloud>(
    alloc: Global,
    clouds: &mut [C],
    cloud: u8,
    request: &CloudRequest,
) -> Result<CloudAnswer, Memory>
    requires { cloud < length clouds.old }
    ensures asked { AtOne cloud (AsksAs request.now result) (map (λ c. told (C.faults c) (C.log c) (C.store c)) clouds.old)
        (map (λ c. told (C.faults c) (C.log c) (C.store c)) clouds.new) }
    ensures kept { IfOk result (IsKept request.now) }
    ensures clouds { length clouds.new ≡ length clouds.old }
{
    ask_cloud(alloc, &mut clouds[usize::from(cloud)], request)
}

/// The event that comes next: a real cloud is asked for its answer first.
pub fn heard<C: Cloud>(
    alloc: Global,
    next: Next,
    world: &World,
    clouds: &mut [C],
) -> Result<Event, Memory>
    requires world { IsWorld world.now }
    requires next { CanBeNext world.now.header (waits_in world.now) next }
    requires clouds { 3 * world.now.header.f + 1 ≤ length clouds.old }
    ensures event { IfOk result (λ event. event ≡ event_of next (answer_in event)) }
    ensures done { IfOk result (CanBeDone world.now.header) }
    ensures heard { Heard next world.now.net (answer_made result) (map (λ c. told (C.faults c) (C.log c) (C.store c)) clouds.old)
        (map (λ c. told (C.faults c) (C.log c) (C.store c)) clouds.new) }
    ensures clouds { length clouds.new ≡ length clouds.old }
{
    match next {
        Next::Does(event) => Ok(event),
        Next::Hears(cloud) => {
            let Some(request) = world.request(cloud) else {
                unreachable!();
            };
            match ask_one(alloc, clouds, cloud, request) {
                Ok(answer) => Ok(Event::Say(cloud, answer)),
                Err(Memory) => Err(Memory),
            }
        }
    }
}
