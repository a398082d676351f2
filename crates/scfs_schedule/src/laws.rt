ghost use Rattle.std.specs.Prelude.{◌≡◌, ◌≤◌, Ok, Some, length};
ghost use Rattle.scfs_base.specs.Limits.{input_limit};
ghost use Rattle.scfs_schedule.specs.Grammar.{IsEvent, IsHeader, event_of, words_of};
ghost use Rattle.scfs_schedule.specs.Reading.{read};
ghost use Rattle.scfs_schedule.specs.Text.{event_text};
ghost use Rattle.scfs_schedule.specs.Written.{AllMayStand, AreAgents, IsInRange, schedule_text};
ghost use Rattle.scfs_schedule.specs.declared.types.Ending.TheVariants as endings;
ghost use Rattle.scfs_schedule.specs.declared.types.Event.{Event};

use crate::{Event, Header};

/// An event of a header's agents and clouds, whose numbers and bytes are those of its type, is read again from its line.
pub fn written_events_are_read(header: &Header, event: &Event)
    ensures { IsEvent header.now event.now → IsInRange event.now → event_of header.now (words_of (event_text event.now)) ≡ Ok event.now }
{}

/// A line that states an event is the one spelling of that event.
pub fn read_lines_are_spelled(header: &Header, line: &[u8])
    ensures { (event : Event) → event_of header.now (words_of line.now) ≡ Ok event → line.now ≡ event_text event }
{}

/// No two events of a header's agents and clouds have one spelling.
pub fn events_have_one_spelling(header: &Header, first: &Event, second: &Event)
    ensures { IsEvent header.now first.now → IsInRange first.now → IsEvent header.now second.now → IsInRange second.now →
        event_text first.now ≡ event_text second.now → first.now ≡ second.now }
{}

/// A text of a header and of events, each in form and within the limits, is read as that header and these events.
pub fn written_texts_are_read(script: bool, header: &Header, events: &[Event])
    ensures { IsHeader header.now → AreAgents header.now.agents → AllMayStand script header.now events.now →
        length (schedule_text header.now events.now) ≤ input_limit →
        read script (schedule_text header.now events.now) ≡ record { header = Some header.now; events = events.now; ending = endings.Ended } }
{}
