use scfs_base::Bytes;

/// What an answer brings.
#[derive(Debug, Drop)]
pub enum ReadStep {
    /// This cloud is to be asked.
    Ask(u8),
    /// Nothing is to be done.
    Wait,
    /// The answer was the first good one of the (f+1)-th cloud: the contents.
    Whole(Bytes),
}

/// What a turn brings.
#[derive(Clone, Copy, Debug, PartialEq, Eq)]
pub enum TurnStep {
    /// Every cloud without a good answer is to be asked again.
    Again,
    /// This was the last turn: how many clouds gave a good answer.
    Spent(u8),
}
