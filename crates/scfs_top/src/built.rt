//! What the program can do by now of what a schedule may ask.

ghost use Rattle.std.specs.Prelude.{◌≡◌, ◌≢◌, true};
ghost use Rattle.scfs_base.specs.Limits.{events_limit};
ghost use Rattle.scfs_world.specs.Built.{is_built};
ghost use Rattle.scfs_top.specs.Playing.{finish_at};

use crate::closing::Finish;
use crate::limits::EVENTS_LIMIT;
use scfs_schedule::Event;
use scfs_world::is_built;

/// Whether what is played ends before an event in the line of this number, behind so many events: where the program can't do
/// it yet, or the limit of events is reached.
pub fn finish_at(line: u64, count: u64, event: &Event) -> Option<Finish>
    ensures finish { result ≡ finish_at line count event.now }
    ensures built { result ≡ None → is_built event.now ≡ true }
    ensures room { result ≡ None → count ≢ events_limit }
{
    if !is_built(event) {
        Some(Finish::Unbuilt(line))
    } else if count == EVENTS_LIMIT {
        Some(Finish::Events)
    } else {
        None
    }
}
