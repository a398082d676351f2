//! What is written of an event: its piece goes to the journal before its lines go to out.

ghost use Rattle.std.specs.Prelude.{◌≡◌, ◌++◌, ◌∷◌, IfOk};
ghost use Rattle.std.specs.List.{flat_map};
ghost use Rattle.scfs_live.specs.Journal.{kept_line};
ghost use Rattle.scfs_live.specs.Recording.{HasCauses, Writes};
ghost use Rattle.scfs_schedule.specs.Text.{event_text, numbered};

use crate::ending::LiveEnd;
use crate::writing::write_all;
use scfs_base::{Bytes, Memory, Sink};
use scfs_schedule::{Event, Line, Which, push_event, push_line};
use scfs_world::{Stepped, World};
use std::alloc::Global;

/// The lines of the event of this number, as they stand on out.
pub fn shown_text(alloc: Global, number: u64, lines: &[Line]) -> Result<Bytes, Memory>
    ensures { IfOk result (λ text. text ≡ flat_map (numbered number) lines.now) }
{
    let mut text = Bytes::new(alloc);
    'lines: for line in lines {
        push_line(alloc, number, line, &mut text)?;
    }
    Ok(text)
}

/// The piece of the event of this number, as it stands in the journal.
pub fn piece_text(
    alloc: Global,
    number: u64,
    event: &Event,
    lines: &[Line],
) -> Result<Bytes, Memory>
    ensures { IfOk result (λ text. text ≡ event_text event.now ++ 10 ∷ flat_map (kept_line number) lines.now) }
{
    let mut text = Bytes::new(alloc);
    push_event(alloc, event, &mut text)?;
    'lines: for line in lines {
        text.push(b' ')?;
        push_line(alloc, number, line, &mut text)?;
    }
    Ok(text)
}

/// Writes an event's piece to the journal, and then its lines to out.
pub fn write_texts<J: Sink, O: Sink>(
    journal: &mut J,
    out: &mut O,
    piece: &[u8],
    shown: &[u8],
) -> Result<(), LiveEnd>
    ensures writes { Writes (J.written journal.old) (J.written journal.new) (O.written out.old) (O.written out.new) piece.now shown.now result }
    ensures causes { HasCauses (J.faults journal.old) (J.faults journal.new) (O.faults out.old) (O.faults out.new) result }
{
    if write_all(journal, piece).is_err() {
        return Err(LiveEnd::WriteFault(Which::Journal));
    }
    if write_all(out, shown).is_err() {
        return Err(LiveEnd::WriteFault(Which::Out));
    }
    Ok(())
}

/// Writes the texts of the event that a world did last, both made before either is written, and gives the world.
pub fn write_event<J: Sink, O: Sink>(
    alloc: Global,
    stepped: Stepped,
    event: &Event,
    out: &mut O,
    journal: &mut J,
) -> Result<World, LiveEnd>
    ensures writes { Writes (J.written journal.old) (J.written journal.new) (O.written out.old) (O.written out.new)
        (event_text event.now ++ 10 ∷ flat_map (kept_line stepped.world.events) stepped.lines) (flat_map (numbered stepped.world.events) stepped.lines) result }
    ensures world { IfOk result (λ world. world ≡ stepped.world) }
    ensures causes { HasCauses (J.faults journal.old) (J.faults journal.new) (O.faults out.old) (O.faults out.new) result }
{
    let Stepped { world, lines } = stepped;
    let number = world.events();
    let piece = piece_text(alloc, number, event, lines.as_slice())?;
    let shown = shown_text(alloc, number, lines.as_slice())?;
    match write_texts(journal, out, piece.as_slice(), shown.as_slice()) {
        Ok(()) => Ok(world),
        Err(end) => Err(end),
    }
}
