//! The text of schedules and transcripts: what the bytes of a schedule say, read as they come in, and the one spelling of
//! each line of a transcript.
#![tactic(auto)]

mod forms;
mod grammar;
mod heading;
mod held;
mod laws;
mod limits;
mod lines;
mod phrases;
mod progress;
mod reader;
mod spelling;
mod tables;
#[cfg(test)]
mod tests;
mod text;
mod types;
mod wording;

pub use grammar::read_event;
pub use heading::push_header;
pub use laws::{
    events_have_one_spelling, read_lines_are_spelled, written_events_are_read,
    written_texts_are_read,
};
pub use limits::{INPUT_LIMIT, LINE_LIMIT};
pub use lines::Lines;
pub use reader::Reader;
pub use text::{push_event, push_line};
pub use types::{
    Bad, BadKind, Call, Ending, Event, Header, How, Item, Kind, Line, Mode, Place, Refusal, Said,
    Src, Stop, Sum, Which,
};
