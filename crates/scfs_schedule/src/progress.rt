use crate::{Item, Said};

/// What stands first in the bytes that are held.
#[derive(Clone, Copy, Debug, PartialEq, Eq)]
pub enum FirstLine {
    /// No whole line, and not too much for one.
    Unfinished,
    /// A line that is too long, be it whole or not.
    TooLong,
    /// A whole line of this length.
    Whole(usize),
}

/// What was taken off the front of the bytes that a reader holds.
#[derive(Debug, Drop)]
pub enum Found {
    /// Nothing, since no whole line is held.
    NoLine,
    /// Nothing, since the first line is too long.
    LongLine,
    /// A whole line that says this.
    Line(Said),
}

/// What one line does to a reader.
#[derive(Debug, Drop)]
pub enum Progress {
    /// No whole line is held.
    Nothing,
    /// A line of the header was read.
    Moved,
    /// An item was read.
    Gave(Item),
}
