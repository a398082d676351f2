//! What the types of calls and events say of their numbers; the functions only carry these facts.

ghost use Rattle.scfs_gf256.specs.Polynomials.{AreBytes};
ghost use Rattle.scfs_laws.specs.Laws.{BringsBytes, WritesBytes};

use scfs_schedule::{Call, Event};

/// The numbers of a slice of bytes are bytes.
fn are_bytes(bytes: &[u8])
    ensures { AreBytes bytes.now }
{}

/// What a call writes are bytes.
fn writes_bytes(call: &Call)
    ensures { WritesBytes call.now }
{
    if let Call::Write(_, _, new) = call {
        are_bytes(new.as_slice());
    }
}

/// What the call writes that an event makes are bytes, as its type says.
pub fn brings_bytes(event: &Event)
    ensures { BringsBytes event.now }
{
    if let Event::Call(_, call) = event {
        writes_bytes(call);
    }
}
