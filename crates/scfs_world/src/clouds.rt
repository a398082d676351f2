ghost use Rattle.std.specs.Prelude.{◌≡◌, ◌≤◌, length};
ghost use Rattle.scfs_base.specs.Limits.{carried_limit};
ghost use Rattle.scfs_model.specs.Clouds.{moved_by};
ghost use Rattle.scfs_net.specs.Queues.{LeadsTo};
ghost use Rattle.scfs_world.specs.Clouds.{cloud_of, did_of, moved_of, Answers, Moves};

use scfs_net::{Did, Moved, Net, NetFault};
use scfs_schedule::Event;
use std::alloc::Global;

/// The cloud that answers at an event.
pub fn cloud_of(event: &Event) -> u8
    ensures { result ≡ cloud_of event.now }
{
    match event {
        Event::Serve(c) => *c,
        Event::Hide(c) => *c,
        Event::Fail(c) => *c,
        Event::Say(c, _) => *c,
        _ => 0,
    }
}

/// A cloud answers its oldest request as an event says: `None` exactly where no request waits.
pub fn answer(alloc: Global, net: &mut Net, event: &Event) -> Result<Option<Did>, NetFault>
    requires { Answers (length net.old.clouds) event.now }
    ensures { LeadsTo net.old net.new (moved_by event.now net.old) (did_of event.now net.old) result }
{
    match event {
        Event::Serve(c) => net.serve(*c),
        Event::Hide(c) => net.hide(*c),
        Event::Fail(c) => net.fail(*c),
        Event::Say(c, answer) => net.say(*c, answer.copy(alloc)?),
        _ => unreachable!(),
    }
}

/// A message of a cloud is lost, moved to the back or repeated.
pub fn shift(net: &mut Net, event: &Event) -> Result<Moved, NetFault>
    requires event { Moves (length net.old.clouds) event.now }
    requires carried { net.old.carried ≤ carried_limit }
    ensures { LeadsTo net.old net.new (moved_by event.now net.old) (moved_of event.now net.old) result }
{
    match event {
        Event::Lose(c) => Ok(net.lose(*c)),
        Event::Drop(c) => Ok(net.drop_reply(*c)),
        Event::Defer(c) => Ok(net.defer(*c)),
        Event::Swap(c) => Ok(net.swap(*c)),
        Event::Again(c) => net.again(*c),
        Event::Twice(c) => net.twice(*c),
        _ => unreachable!(),
    }
}
