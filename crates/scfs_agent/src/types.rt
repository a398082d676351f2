use scfs_base::{CloudAnswer, CloudRequest, RequestNo};
use scfs_schedule::{Call, Line};
use scfs_tuples::{Reply, Step};

/// What comes to an agent.
#[derive(Debug, Drop)]
pub enum Input {
    /// A user's call.
    Call(Call),
    /// The space's reply to a step.
    Space(RequestNo, Reply),
    /// A cloud's answer to a request.
    Cloud(u8, RequestNo, CloudAnswer),
    Turn,
    Crash,
    Start,
}

/// What an agent does.
#[derive(Debug, Drop)]
pub enum Output {
    /// It asks a step of the space.
    Space(RequestNo, Step),
    /// It asks a cloud.
    Cloud(u8, RequestNo, CloudRequest),
    /// It answers.
    Line(Line),
}
