ghost use Rattle.std.specs.Prelude.{◌≡◌, ◌++◌, [], map, slice_get, IfOk};
ghost use Rattle.std.specs.List.{flat_map};
ghost use Rattle.std.specs.Option.{option_copied};
ghost use Rattle.scfs_schedule.specs.Grammar.{IsHeader};
ghost use Rattle.scfs_live.specs.Finding.{IsUnder, body_found, found};
ghost use Rattle.scfs_live.specs.Keeping.{awaited_text, ended, ended_kept, made_line, unkept, without_header_line, without_line, whole_lines};

use crate::finding::{Found, compared, event_found, is_left_out, kept_found};
use scfs_base::{Bytes, Memory, Sequence, cut};
use scfs_schedule::{Header, Line, push_header, push_line};
use std::alloc::Global;

/// Lines that were made and are still to be kept: those of the header, and then those of the last event.
#[derive(Drop)]
pub struct Awaited {
    pub header: Sequence<Bytes>,
    pub lines: Sequence<Bytes>,
}

/// The lines of a text that a byte 0a ends.
fn whole_lines(alloc: Global, text: &[u8]) -> Result<Sequence<Bytes>, Memory>
    ensures { IfOk result (λ lines. lines ≡ whole_lines text.now) }
{
    let mut lines = Sequence::new(alloc);
    let mut rest = text;
    'lines: while let Some((line, after)) = cut(rest, b'\n') {
        lines.push(Bytes::from_slice(alloc, line)?)?;
        rest = after;
    }
    Ok(lines)
}

/// A line of the transcript, without its byte 0a.
fn made_line(alloc: Global, number: u64, line: &Line) -> Result<Bytes, Memory>
    ensures { IfOk result (λ made. made ≡ made_line number line.now) }
{
    let mut text = Bytes::new(alloc);
    push_line(alloc, number, line, &mut text)?;
    text.truncate(text.len() - 1);
    Ok(text)
}

/// Puts lines behind a text, each with its byte 0a.
fn push_ended(lines: &[Bytes], text: &mut Bytes) -> Result<(), Memory>
    ensures { IfOk result (λ _. text.new ≡ text.old ++ flat_map ended lines.now) }
{
    for line in lines {
        text.extend(line.as_slice())?;
        text.push(b'\n')?;
    }
    Ok(())
}

/// Puts lines behind a text, each with a space before it and its byte 0a.
fn push_kept(lines: &[Bytes], text: &mut Bytes) -> Result<(), Memory>
    ensures { IfOk result (λ _. text.new ≡ text.old ++ flat_map ended_kept lines.now) }
{
    for line in lines {
        text.push(b' ')?;
        text.extend(line.as_slice())?;
        text.push(b'\n')?;
    }
    Ok(())
}

/// The first line.
fn front(lines: &Sequence<Bytes>) -> Option<&[u8]>
    ensures { option_copied result ≡ slice_get lines.now 0 }
{
    lines.get(0).map(|line| line.as_slice())
}

impl Awaited {
    /// The lines of a header, of which none is kept yet.
    pub fn of_header(alloc: Global, header: &Header) -> Result<Awaited, Memory>
        ensures { IfOk result (λ awaited. awaited ≡ unkept header.now) }
    {
        let mut text = Bytes::new(alloc);
        push_header(alloc, header, &mut text)?;
        let header = whole_lines(alloc, text.as_slice())?;
        let lines = Sequence::new(alloc);
        Ok(Awaited { header, lines })
    }

    /// The lines of an event of this number, of which none is kept yet.
    pub fn of_event(alloc: Global, number: u64, lines: &[Line]) -> Result<Awaited, Memory>
        ensures { IfOk result (λ awaited. awaited ≡ record { header = []; lines = map (made_line number) lines.now }) }
    {
        let mut made = Sequence::new(alloc);
        for line in lines {
            made.push(made_line(alloc, number, line)?)?;
        }
        let header = Sequence::new(alloc);
        Ok(Awaited {
            header,
            lines: made,
        })
    }

    /// What a whole line of the old journal is.
    pub fn found(&self, alloc: Global, header: &Header, line: &[u8]) -> Result<Found, Memory>
        requires { IsHeader header.now }
        ensures value { IfOk result (λ is. is ≡ found header.now self.now line.now) }
        ensures under { IfOk result (λ is. IsUnder header.now is) }
    {
        if is_left_out(line) {
            return Ok(Found::LeftOut);
        }
        match front(&self.header) {
            Some(first) => compared(alloc, Found::KeepsHeader, line, first),
            None => self.body_found(alloc, header, line),
        }
    }

    /// What a line behind the header is.
    fn body_found(&self, alloc: Global, header: &Header, line: &[u8]) -> Result<Found, Memory>
        requires { IsHeader header.now }
        ensures value { IfOk result (λ is. is ≡ body_found header.now (slice_get self.now.lines 0) line.now) }
        ensures under { IfOk result (λ is. IsUnder header.now is) }
    {
        let made = front(&self.lines);
        match line {
            [] => event_found(alloc, header, made, line),
            [first, kept @ ..] => {
                if *first == b' ' {
                    kept_found(alloc, made, kept)
                } else {
                    event_found(alloc, header, made, line)
                }
            }
        }
    }

    /// Without the first line of the header.
    pub fn without_header_line(self) -> Awaited
        ensures { result ≡ without_header_line self }
    {
        let Awaited { mut header, lines } = self;
        let _kept = header.pop_front();
        Awaited { header, lines }
    }

    /// Without the first line of the event.
    pub fn without_line(self) -> Awaited
        ensures { result ≡ without_line self }
    {
        let Awaited { header, mut lines } = self;
        let _kept = lines.pop_front();
        Awaited { header, lines }
    }

    /// The lines as they are written to the journal.
    pub fn text(&self, alloc: Global) -> Result<Bytes, Memory>
        ensures { IfOk result (λ text. text ≡ awaited_text self.now) }
    {
        let mut text = Bytes::new(alloc);
        push_ended(self.header.as_slice(), &mut text)?;
        push_kept(self.lines.as_slice(), &mut text)?;
        Ok(text)
    }
}
