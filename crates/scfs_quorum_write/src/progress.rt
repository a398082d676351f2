/// What an acknowledgement brought.
#[derive(Clone, Copy, Debug, PartialEq, Eq)]
pub enum Progress {
    /// This cloud was counted for this part before.
    Already,
    /// The least count of different clouds over the parts, after this one.
    Counted(u8),
    /// This one was the first to bring every part to n-f different clouds.
    Done,
}
