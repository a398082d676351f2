ghost use Rattle.std.specs.Prelude.{◌≡◌, ℕ, ◌+◌, ◌<◌, ◌≤◌, [], ◌++◌, length, take, drop, false, OnOk, OnErr, MatchOption};
ghost use Rattle.scfs_base.specs.Limits.{line_limit};
ghost use Rattle.scfs_base.specs.Pieces.{CutsAt};
ghost use Rattle.scfs_schedule.specs.Holding.{HoldsNoLine, HoldsLongLine, StandsFirst, is_unfinished, with_piece};

use crate::LINE_LIMIT;
use crate::progress::FirstLine;
use scfs_base::{Memory, cut};
use std::alloc::Global;
use std::marker::Model;

/// Bytes that come in pieces of any lengths and leave line by line; only the first so many of all are taken.
#[derive(Drop)]
pub struct Held {
    /// The bytes taken that were not dropped yet.
    text: Vec<u8>,
    /// How many of them have left.
    at: usize,
    /// How many of those behind them are known to hold no line.
    clear: usize,
    /// How many more are taken.
    room: usize,
    /// Whether more came than were taken.
    longer: bool,
}

impl Model for Held {
    ghost use Rattle.std.specs.Prelude.{◌≤◌, length, drop};
    ghost use Rattle.scfs_schedule.specs.Holding.{Holding, IsHeld};

    ghost Value = { Holding };

    ghost view = { λ h. record {
      rest = drop h.at h.text.items;
      room = h.room;
      longer = h.longer;
    } };

    ghost invariant = { λ h. (h.at ≤ length h.text.items) × IsHeld (drop h.at h.text.items) h.clear };
}

/// Drops the first bytes.
fn drop_front(text: &mut Vec<u8>, count: usize)
    requires { count ≤ length text.old.items }
    ensures { text.new.items ≡ drop count text.old.items }
{
    let left = text.len() - count;
    text.rotate_left(count);
    text.truncate(left);
}

/// Drops the first `at` bytes, which have left, once they are at least as many as the others, so that each byte is moved at
/// most once on average. Gives how many of what have left still stand before the others.
fn forget(text: &mut Vec<u8>, at: usize) -> usize
    requires { at ≤ length text.old.items }
    ensures same { drop result text.new.items ≡ drop at text.old.items }
    ensures few { result + result ≤ length text.new.items }
    ensures late { at + at < length text.old.items → text.new.items ≡ text.old.items }
{
    if at < text.len() - at {
        return at;
    }
    drop_front(text, at);
    0
}

/// The length of the first line, of which the first `clear` bytes are known to hold no line.
fn first_line(held: &[u8], clear: usize) -> Option<usize>
    requires within { clear ≤ length held.now }
    requires no_line { HoldsNoLine (take clear held.now) }
    ensures cut { MatchOption result (HoldsNoLine held.now) (λ n. CutsAt 10 held.now (take n held.now) (drop (n + 1) held.now)) }
    ensures within { MatchOption result (clear ≤ length held.now) (λ n. n < length held.now) }
    ensures none_long { MatchOption result (line_limit < length held.now → HoldsLongLine held.now) (λ n. line_limit < n → HoldsLongLine held.now) }
{
    match cut(&held[clear..], b'\n') {
        Some((front, _)) => Some(clear + front.len()),
        None => None,
    }
}

impl Held {
    /// No bytes, and room for so many.
    pub fn new(alloc: Global, room: usize) -> Held
        ensures { result ≡ record { rest = []; room = room; longer = false } }
    {
        Held {
            text: Vec::new(alloc),
            at: 0,
            clear: 0,
            room,
            longer: false,
        }
    }

    /// Takes a piece, or the front of it for which there is room. An error takes nothing.
    pub fn take(&mut self, piece: &[u8]) -> Result<(), Memory>
        ensures ok { OnOk result (self.new ≡ with_piece self.old piece.now) }
        ensures err { OnErr result (self.new ≡ self.old) }
    {
        self.at = forget(&mut self.text, self.at);
        self.push(piece)
    }

    fn push(&mut self, piece: &[u8]) -> Result<(), Memory>
        ensures ok { OnOk result (self.new ≡ with_piece self.old piece.now) }
        ensures err { OnErr result (self.new ≡ self.old) }
    {
        let taken = piece.len().min(self.room);
        self.text.extend_from_slice(&piece[..taken])?;
        self.room -= taken;
        self.longer = self.longer || taken < piece.len();
        Ok(())
    }

    /// The bytes held.
    fn bytes(&self) -> &[u8]
        ensures { result.now ≡ self.now.rest }
    {
        &self.text.as_slice()[self.at..]
    }

    /// What stands first. The bytes looked at are not looked at again.
    pub fn first(&mut self) -> FirstLine
        ensures same { self.new ≡ self.old }
        ensures first { StandsFirst result self.old.rest }
    {
        let count = self.len();
        match first_line(self.bytes(), self.clear) {
            Some(length) if length > LINE_LIMIT => FirstLine::TooLong,
            Some(length) => FirstLine::Whole(length),
            None if count > LINE_LIMIT => FirstLine::TooLong,
            None => {
                self.clear = count;
                FirstLine::Unfinished
            }
        }
    }

    /// The first bytes.
    pub fn front(&self, count: usize) -> &[u8]
        requires { count ≤ length self.now.rest }
        ensures { result.now ≡ take count self.now.rest }
    {
        &self.bytes()[..count]
    }

    /// Lets a line of this length and the byte behind it leave.
    pub fn drop_line(&mut self, count: usize)
        requires { count < length self.old.rest }
        ensures { self.new ≡ record self.old { rest = drop (count + 1) self.old.rest } }
    {
        let end = self.at + count;
        self.at = end + 1;
        self.clear = 0;
    }

    /// Whether the bytes held end within a line.
    pub fn ends_in_line(&self) -> bool
        ensures { result ≡ is_unfinished self.now.rest }
    {
        match self.bytes().last() {
            Some(byte) => *byte != b'\n',
            None => false,
        }
    }

    /// How many bytes are held.
    pub fn len(&self) -> usize
        ensures { result ≡ length self.now.rest }
    {
        self.text.len() - self.at
    }

    /// How many more bytes are taken.
    pub fn room(&self) -> usize
        ensures { result ≡ self.now.room }
    {
        self.room
    }

    /// Whether more bytes came than were taken.
    pub fn is_longer(&self) -> bool
        ensures { result ≡ self.now.longer }
    {
        self.longer
    }
}
