ghost use Rattle.std.specs.Prelude.{◌≡◌, ◌++◌, IfOk, OnOk, OnErr, Some};
ghost use Rattle.scfs_schedule.specs.Text.{mode_text, agent_text, agents_text, header_text};

use crate::spelling::HexWord;
use crate::{Header, Mode};
use scfs_base::{Bytes, Memory};
use std::alloc::Global;
use std::fmt;

impl fmt::Display for Mode {
    ghost output = { λ it. Some (mode_text it) };

    fn fmt<W: fmt::Write>(&self, f: &mut fmt::Formatter<W>) -> fmt::Result {
        match self {
            Mode::Blocking => write!(f, "blocking"),
            Mode::Nonblocking => write!(f, "nonblocking"),
            Mode::Private => write!(f, "private"),
        }
    }
}

/// The line of an agent: its number, its mode and its seed.
#[derive(Drop)]
struct AgentLine<'a>(usize, &'a (Mode, [u8; 32]));

impl fmt::Display for AgentLine<'_> {
    ghost output = { λ it. Some (agent_text it.0 it.1.now) };

    fn fmt<W: fmt::Write>(&self, f: &mut fmt::Formatter<W>) -> fmt::Result {
        let AgentLine(number, agent) = self;
        write!(f, "agent {number} {} {}\n", agent.0, HexWord(&agent.1))
    }
}

/// The lines of the agents.
fn agent_lines(alloc: Global, agents: &[(Mode, [u8; 32])]) -> Result<Bytes, Memory>
    ensures { IfOk result (λ lines. lines ≡ agents_text 0 agents.now) }
{
    let mut lines = Bytes::new(alloc);
    for (number, agent) in agents.iter().enumerate() {
        let line = format!(in alloc; "{}", AgentLine(number, agent))?;
        lines.extend(line.as_bytes())?;
    }
    Ok(lines)
}

/// The lines of a header, each with its byte 0a.
fn header_lines(alloc: Global, header: &Header) -> Result<Bytes, Memory>
    ensures { IfOk result (λ lines. lines ≡ header_text header.now) }
{
    let Header {
        f,
        lease,
        stale,
        agents,
    } = header;
    let numbers = format!(in alloc; "scfs 1\nf {f}\nlease {lease}\nstale {stale}\n")?;
    let mut lines = Bytes::from_slice(alloc, numbers.as_bytes())?;
    lines.extend(agent_lines(alloc, agents.as_slice())?.as_slice())?;
    lines.extend(b"begin\n")?;
    Ok(lines)
}

/// Adds the lines of a header, each with its byte 0a. An error leaves the text as it was.
pub fn push_header(alloc: Global, header: &Header, text: &mut Bytes) -> Result<(), Memory>
    ensures ok { OnOk result (text.new ≡ text.old ++ header_text header.now) }
    ensures err { OnErr result (text.new ≡ text.old) }
{
    let lines = header_lines(alloc, header)?;
    text.extend(lines.as_slice())
}
