ghost use Rattle.std.specs.Prelude.{◌≡◌, length, IfOk, OnOk};

use crate::{Did, Given, Moved, Net};
use scfs_base::{Bytes, CloudAnswer, CloudRequest, Memory, RequestNo};
use std::alloc::Global;
use std::test::Fail;

/// An event at cloud 1.
#[derive(Clone, Copy)]
enum Event {
    Serve,
    Hide,
    Fail,
    SayAck,
    SayLie,
    Give,
    Lose,
    DropReply,
    Defer,
    Swap,
    Again,
    Twice,
}

/// The bytes, allocated.
fn bytes(alloc: Global, text: &[u8]) -> Result<Bytes, Memory> {
    Bytes::from_slice(alloc, text)
}

/// The request of agent 0 with that number.
fn request(number: u64) -> RequestNo {
    RequestNo {
        agent: 0,
        incarnation: 0,
        number,
    }
}

/// Four clouds, of which cloud 1 was asked, by requests 1 to 3, a Put of `aa` under `n`, a Get of the first byte under `n`,
/// and a Delete of `n`.
fn asked(alloc: Global) -> Result<Net, Fail>
    ensures { IfOk result (λ net. length net.clouds ≡ 4) }
{
    let mut net = Net::new(alloc, 1)?;
    let name = bytes(alloc, b"n")?;
    let body = bytes(alloc, b"aa")?;
    net.ask(1, request(1), CloudRequest::Put { name, body })?;
    let name = bytes(alloc, b"n")?;
    net.ask(1, request(2), CloudRequest::Get { name, limit: 1 })?;
    let name = bytes(alloc, b"n")?;
    net.ask(1, request(3), CloudRequest::Delete { name })?;
    Ok(net)
}

/// A short text for an answer.
fn shown(alloc: Global, answer: &CloudAnswer) -> Result<Bytes, Memory> {
    match answer {
        CloudAnswer::Ack => bytes(alloc, b"ack"),
        CloudAnswer::Absent => bytes(alloc, b"absent"),
        CloudAnswer::Bytes(bytes) => bytes.copy(alloc),
        CloudAnswer::Names(names) => {
            let mut text = bytes(alloc, b"names")?;
            for name in names.as_slice() {
                text.push(b' ')?;
                text.extend(name.as_slice())?;
            }
            Ok(text)
        }
        CloudAnswer::Fail => bytes(alloc, b"fail"),
    }
}

/// The last digit of a request's number before a short text for its answer.
fn numbered(alloc: Global, request: RequestNo, answer: &CloudAnswer) -> Result<Bytes, Memory> {
    let mut text = Bytes::new(alloc);
    text.push(b'0' + (request.number % 10) as u8)?;
    text.push(b' ')?;
    text.extend(shown(alloc, answer)?.as_slice())?;
    Ok(text)
}

/// A short text for what a cloud did.
fn did_text(alloc: Global, did: Option<Did>) -> Result<Bytes, Memory> {
    match did {
        None => bytes(alloc, b"none"),
        Some(did) => numbered(alloc, did.request, &did.answer),
    }
}

/// A short text for what an agent was given.
fn given_text(alloc: Global, given: Option<Given>) -> Result<Bytes, Memory> {
    match given {
        None => bytes(alloc, b"none"),
        Some(given) => numbered(alloc, given.request, &given.answer),
    }
}

/// A short text for what moved.
fn moved_text(alloc: Global, moved: Moved) -> Result<Bytes, Memory> {
    match moved {
        Moved::Done => bytes(alloc, b"done"),
        Moved::Skipped => bytes(alloc, b"skipped"),
    }
}

/// Does the event at cloud 1, and gives a short text for its answer.
fn act(alloc: Global, net: &mut Net, event: Event) -> Result<Bytes, Fail>
    requires { length net.old.clouds ≡ 4 }
    ensures { OnOk result (length net.new.clouds ≡ 4) }
{
    let text = match event {
        Event::Serve => did_text(alloc, net.serve(1)?)?,
        Event::Hide => did_text(alloc, net.hide(1)?)?,
        Event::Fail => did_text(alloc, net.fail(1)?)?,
        Event::SayAck => did_text(alloc, net.say(1, CloudAnswer::Ack)?)?,
        Event::SayLie => did_text(
            alloc,
            net.say(1, CloudAnswer::Bytes(bytes(alloc, b"lie")?))?,
        )?,
        Event::Give => given_text(alloc, net.give(1))?,
        Event::Lose => moved_text(alloc, net.lose(1))?,
        Event::DropReply => moved_text(alloc, net.drop_reply(1))?,
        Event::Defer => moved_text(alloc, net.defer(1))?,
        Event::Swap => moved_text(alloc, net.swap(1))?,
        Event::Again => moved_text(alloc, net.again(1)?)?,
        Event::Twice => moved_text(alloc, net.twice(1)?)?,
    };
    Ok(text)
}

/// The place of the first event whose text is another than stated.
fn first_wrong(alloc: Global, net: &mut Net, steps: &[(Event, &str)]) -> Result<Option<usize>, Fail>
    requires { length net.old.clouds ≡ 4 }
    ensures { OnOk result (length net.new.clouds ≡ 4) }
{
    for (at, (event, text)) in steps.iter().enumerate() {
        if act(alloc, net, *event)?.as_slice() != text.as_bytes() {
            return Ok(Some(at));
        }
    }
    Ok(None)
}

#[test]
fn requests_are_served_oldest_first(rt: HostRuntime) -> Result<(), Fail> {
    let mut net = asked(rt.alloc())?;
    let steps = [
        (Event::Serve, "1 ack"),
        (Event::Serve, "2 a"),
        (Event::Give, "1 ack"),
        (Event::Serve, "3 ack"),
        (Event::Serve, "none"),
        (Event::Give, "2 a"),
        (Event::Give, "3 ack"),
        (Event::Give, "none"),
    ];
    assert_eq!(rt; first_wrong(rt.alloc(), &mut net, &steps)?, None);
    Ok(())
}

#[test]
fn a_hidden_object_is_absent_but_kept(rt: HostRuntime) -> Result<(), Fail> {
    let mut net = asked(rt.alloc())?;
    let steps = [
        (Event::Hide, "1 ack"),
        (Event::Again, "done"),
        (Event::Hide, "2 absent"),
        (Event::Defer, "done"),
        (Event::Serve, "2 a"),
        (Event::Hide, "3 ack"),
        (Event::Hide, "none"),
    ];
    assert_eq!(rt; first_wrong(rt.alloc(), &mut net, &steps)?, None);
    Ok(())
}

#[test]
fn a_said_ack_is_done_and_a_failure_is_not(rt: HostRuntime) -> Result<(), Fail> {
    let mut net = asked(rt.alloc())?;
    let steps = [
        (Event::Again, "done"),
        (Event::Fail, "1 fail"),
        (Event::Again, "done"),
        (Event::Serve, "2 absent"),
        (Event::Defer, "done"),
        (Event::SayAck, "1 ack"),
        (Event::Serve, "2 a"),
        (Event::SayLie, "3 lie"),
        (Event::SayLie, "none"),
        (Event::Fail, "none"),
    ];
    assert_eq!(rt; first_wrong(rt.alloc(), &mut net, &steps)?, None);
    Ok(())
}

#[test]
fn requests_are_lost_repeated_and_moved_back(rt: HostRuntime) -> Result<(), Fail> {
    let mut net = asked(rt.alloc())?;
    let steps = [
        (Event::Lose, "done"),
        (Event::Again, "done"),
        (Event::Defer, "done"),
        (Event::Fail, "3 fail"),
        (Event::Fail, "2 fail"),
        (Event::Fail, "2 fail"),
        (Event::Lose, "skipped"),
        (Event::Again, "skipped"),
        (Event::Defer, "skipped"),
    ];
    assert_eq!(rt; first_wrong(rt.alloc(), &mut net, &steps)?, None);
    Ok(())
}

#[test]
fn replies_are_lost_doubled_and_moved_back(rt: HostRuntime) -> Result<(), Fail> {
    let mut net = asked(rt.alloc())?;
    let steps = [
        (Event::Serve, "1 ack"),
        (Event::Serve, "2 a"),
        (Event::Serve, "3 ack"),
        (Event::DropReply, "done"),
        (Event::Twice, "done"),
        (Event::Swap, "done"),
        (Event::Give, "3 ack"),
        (Event::Give, "2 a"),
        (Event::Give, "2 a"),
        (Event::DropReply, "skipped"),
        (Event::Twice, "skipped"),
        (Event::Swap, "skipped"),
    ];
    assert_eq!(rt; first_wrong(rt.alloc(), &mut net, &steps)?, None);
    Ok(())
}

/// Stores an object under `p` and each letter from `a` to `q` at cloud 1, and then asks it for the names with `p`.
fn list_of_many(alloc: Global, net: &mut Net) -> Result<(), Fail>
    requires { length net.old.clouds ≡ 4 }
    ensures { OnOk result (length net.new.clouds ≡ 4) }
{
    'letters: for letter in b'a'..b'r' {
        let name = bytes(alloc, &[b'p', letter])?;
        let body = bytes(alloc, b"")?;
        net.ask(1, request(1), CloudRequest::Put { name, body })?;
        act(alloc, net, Event::Serve)?;
    }
    let prefix = bytes(alloc, b"p")?;
    net.ask(1, request(2), CloudRequest::List { prefix })?;
    Ok(())
}

#[test]
fn a_list_has_the_greatest_names(rt: HostRuntime) -> Result<(), Fail> {
    let mut net = Net::new(rt.alloc(), 1)?;
    list_of_many(rt.alloc(), &mut net)?;
    assert!(rt; matches!(net.oldest(1), Some(CloudRequest::List { prefix: _ })));
    let steps = [
        (Event::Again, "done"),
        (
            Event::Serve,
            "2 names pb pc pd pe pf pg ph pi pj pk pl pm pn po pp pq",
        ),
        (Event::Hide, "2 names"),
    ];
    assert_eq!(rt; first_wrong(rt.alloc(), &mut net, &steps)?, None);
    Ok(())
}
