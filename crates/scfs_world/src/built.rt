//! What the program can do by now of what a schedule may ask.

ghost use Rattle.std.specs.Prelude.{◌≡◌};
ghost use Rattle.std.specs.List.{list_all};
ghost use Rattle.scfs_world.specs.Built.{is_blocking, is_built, is_built_call, is_built_header};

use scfs_schedule::{Call, Event, Header, Mode};

/// Whether the program can do what a header asks: blocking agents that keep no answers.
pub fn is_built_header(header: &Header) -> bool
    ensures { result ≡ is_built_header header.now }
{
    header.stale == 0 && are_blocking(header.agents.as_slice())
}

fn are_blocking(agents: &[(Mode, [u8; 32])]) -> bool
    ensures { result ≡ list_all (λ member. is_blocking member.0) agents.now }
{
    agents.iter().all(|member| is_blocking(member.0))
}

fn is_blocking(mode: Mode) -> bool
    ensures { result ≡ is_blocking mode }
{
    match mode {
        Mode::Blocking => true,
        Mode::Nonblocking | Mode::Private => false,
    }
}

fn is_built_call(call: &Call) -> bool
    ensures { result ≡ is_built_call call.now }
{
    match call {
        Call::Create(_)
        | Call::Stat(_)
        | Call::OpenR(_)
        | Call::OpenW(_)
        | Call::Read(_, _, _)
        | Call::Write(_, _, _)
        | Call::Truncate(_, _)
        | Call::Close(_) => true,
        _ => false,
    }
}

/// Whether the program can do an event.
pub fn is_built(event: &Event) -> bool
    ensures { result ≡ is_built event.now }
{
    match event {
        Event::Call(_, call) => is_built_call(call),
        _ => true,
    }
}
