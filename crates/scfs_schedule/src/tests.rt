use super::*;
use scfs_base::{Bytes, CloudAnswer, Digest, FileId, RequestNo, UploadNo};
use std::alloc::Global;
use std::test::Fail;

const CREATE_AND_STAT: &str = "scfs 1\nf 1\nlease 100\nstale 0\n\
    agent 0 blocking 0000000000000000000000000000000000000000000000000000000000000000\nbegin\n\
    call 0 create /a\nspace 0\ntold 0\ncall 0 stat /a\nspace 0\ntold 0\n";

const HEAD: &str = "scfs 1\nf 3\nlease 1000000000\nstale 0\n\
    agent 0 private 0123456789abcdef000000000000000000000000000000000000000000000000\nbegin\n";

/// The next item of a reader before its end as it is written, or how the text stops.
fn next_text(alloc: Global, reader: &mut Reader) -> Result<Result<Option<Bytes>, Stop>, Fail> {
    let mut text = Bytes::new(alloc);
    match reader.next() {
        Ok(Some(Item::Header(header))) => push_header(alloc, &header, &mut text)?,
        Ok(Some(Item::Event(event))) => push_event(alloc, &event, &mut text)?,
        Ok(Some(Item::End)) | Ok(None) => return Ok(Ok(None)),
        Err(stop) => return Ok(Err(stop)),
    }
    Ok(Ok(Some(text)))
}

/// The items that a text gives when it is fed in pieces of this length, as they are written, and the stop after them.
fn read_in_pieces(
    alloc: Global,
    script: bool,
    text: &[u8],
    length: usize,
) -> Result<(Bytes, Option<Stop>), Fail> {
    let mut reader = Reader::new(alloc, script);
    let mut items = Bytes::new(alloc);
    for piece in text.chunks(length.max(1)) {
        reader.feed(piece)?;
        for _ in 0..100 {
            match next_text(alloc, &mut reader)? {
                Ok(Some(item)) => items.extend(item.as_slice())?,
                Ok(None) => break,
                Err(stop) => return Ok((items, Some(stop))),
            }
        }
    }
    Ok((items, None))
}

/// The stop of a text that is fed in pieces, or else how it ends.
fn stop_of(alloc: Global, script: bool, text: &[u8]) -> Result<Option<Stop>, Fail> {
    let mut reader = Reader::new(alloc, script);
    for piece in text.chunks(16) {
        reader.feed(piece)?;
    }
    for _ in 0..100 {
        match reader.next() {
            Ok(Some(Item::End)) => return Ok(None),
            Ok(Some(_)) => {}
            Ok(None) => return Ok(reader.finish()),
            Err(stop) => return Ok(Some(stop)),
        }
    }
    Ok(None)
}

fn bad(line: u64, kind: BadKind) -> Option<Stop> {
    Some(Stop::Bad(Bad { line, kind }))
}

/// The first of these lines that is not bad in this way, as the seventh line of a text.
fn other_than<'a>(
    alloc: Global,
    script: bool,
    kind: BadKind,
    lines: &[&'a str],
) -> Result<Option<&'a str>, Fail> {
    for line in lines {
        let text = format!(in alloc; "{HEAD}{line}\nend\n")?;
        if stop_of(alloc, script, text.as_bytes())? != bad(7, kind) {
            return Ok(Some(line));
        }
    }
    Ok(None)
}

/// The first of these headers that does not stop at this line in this way.
fn other_header<'a>(
    alloc: Global,
    line: u64,
    kind: BadKind,
    headers: &[&'a str],
) -> Result<Option<&'a str>, Fail> {
    for header in headers {
        if stop_of(alloc, false, header.as_bytes())? != bad(line, kind) {
            return Ok(Some(header));
        }
    }
    Ok(None)
}

#[test]
fn the_same_items_in_any_pieces(rt: HostRuntime) -> Result<(), Fail> {
    let text = format!(in rt.alloc(); "{CREATE_AND_STAT}end\n")?;
    for length in [1, 64, 1000] {
        let (items, stop) = read_in_pieces(rt.alloc(), false, text.as_bytes(), length)?;
        assert_eq!(rt; items.as_slice(), CREATE_AND_STAT.as_bytes());
        assert_eq!(rt; stop, None);
    }
    Ok(())
}

#[test]
fn bad_words(rt: HostRuntime) -> Result<(), Fail> {
    let lines = [
        "call 0 crate /a",
        "call 9 crate /a",
        "say 9 nothing",
        "space",
        "space 0 ",
        " space 0",
        "space  0",
        "",
        "end ",
        "call 0 open /a x",
        "call 0 read 1 0",
        "say 0 names a b c d e f g h i j k l m n o p q",
        "begin",
    ];
    assert_eq!(rt; other_than(rt.alloc(), false, BadKind::Word, &lines)?, None);
    Ok(())
}

#[test]
fn bad_numbers(rt: HostRuntime) -> Result<(), Fail> {
    let lines = [
        "space ",
        "space 1",
        "told 00",
        "serve 10",
        "give 18446744073709551616",
        "call 1 create %41",
        "call 0 read 1 00 1",
        "tick 0",
        "tick 1000000001",
    ];
    assert_eq!(rt;
        other_than(rt.alloc(), false, BadKind::Number, &lines)?,
        None
    );
    Ok(())
}

#[test]
fn bad_paths_and_bytes(rt: HostRuntime) -> Result<(), Fail> {
    let paths = [
        "call 0 create ",
        "call 0 create %C3%A9",
        "call 0 create /%61",
        "call 0 create /~",
        "call 0 open /a% x",
        "call 0 openat %% 01",
    ];
    assert_eq!(rt; other_than(rt.alloc(), false, BadKind::Path, &paths)?, None);
    let bytes = [
        "call 0 write 1 0 0A",
        "call 0 write 1 0 0",
        "call 0 write 1 0 ",
        "say 0 bytes --",
    ];
    assert_eq!(rt; other_than(rt.alloc(), false, BadKind::Hex, &bytes)?, None);
    Ok(())
}

#[test]
fn lines_of_a_script(rt: HostRuntime) -> Result<(), Fail> {
    let lines = ["space 0", "serve 0", "say 0 ack", "start 9 9"];
    assert_eq!(rt; other_than(rt.alloc(), true, BadKind::Word, &lines)?, None);
    let text = format!(in rt.alloc();
        "{HEAD}call 0 sync\nturn 0\ntick 1\ncrash 0\nstart 0\nend\n"
    )?;
    assert_eq!(rt; stop_of(rt.alloc(), true, text.as_bytes())?, None);
    Ok(())
}

#[test]
fn bad_first_lines(rt: HostRuntime) -> Result<(), Fail> {
    let numbers = ["scfs 2\n", "scfs 01\n"];
    assert_eq!(rt;
        other_header(rt.alloc(), 1, BadKind::Number, &numbers)?,
        None
    );
    let words = ["scfs\n", "scfs 1 \n"];
    assert_eq!(rt; other_header(rt.alloc(), 1, BadKind::Word, &words)?, None);
    let orders = ["\n", "f 1\n"];
    assert_eq!(rt; other_header(rt.alloc(), 1, BadKind::Order, &orders)?, None);
    let ends = ["", "scfs 1"];
    assert_eq!(rt; other_header(rt.alloc(), 1, BadKind::End, &ends)?, None);
    Ok(())
}

#[test]
fn bad_agents(rt: HostRuntime) -> Result<(), Fail> {
    let orders = [
        "scfs 1\nf 1\nlease 1\nstale 0\nbegin\n",
        "scfs 1\nf 1\nlease 1\nstale 0\nagents\n",
    ];
    assert_eq!(rt; other_header(rt.alloc(), 5, BadKind::Order, &orders)?, None);
    let modes = ["scfs 1\nf 1\nlease 1\nstale 0\nagent 0 sync -\n"];
    assert_eq!(rt; other_header(rt.alloc(), 5, BadKind::Word, &modes)?, None);
    let numbers = ["scfs 1\nf 1\nlease 1\nstale 0\nagent 1 blocking -\n"];
    assert_eq!(rt;
        other_header(rt.alloc(), 5, BadKind::Number, &numbers)?,
        None
    );
    let seeds = ["scfs 1\nf 1\nlease 1\nstale 0\nagent 0 blocking -\n"];
    assert_eq!(rt; other_header(rt.alloc(), 5, BadKind::Hex, &seeds)?, None);
    Ok(())
}

#[test]
fn events_written_as_they_were_read(rt: HostRuntime) -> Result<(), Fail> {
    let events = "call 0 rename /a /b%20c\ncall 0 open /a r\ncall 0 open /a w\ncall 0 openat /a 7\n\
        call 0 read 1 2 3\ncall 0 write 1 0 00ff\ncall 0 write 1 0 -\ncall 0 purge\ncall 0 create %\n\
        say 9 bytes 0a\nsay 9 names\nsay 9 names a b\nlater 0\ndrop 3\ntick 1000000000\n";
    let text = format!(in rt.alloc(); "{HEAD}{events}end\n")?;
    let (items, stop) = read_in_pieces(rt.alloc(), false, text.as_bytes(), 64)?;
    let wanted = format!(in rt.alloc(); "{HEAD}{events}")?;
    assert_eq!(rt; items.as_slice(), wanted.as_bytes());
    assert_eq!(rt; stop, None);
    Ok(())
}

#[test]
fn a_line_too_long(rt: HostRuntime) -> Result<(), Fail> {
    let mut line = vec![in rt.alloc(); b'a'; LINE_LIMIT]?;
    assert_eq!(rt;
        stop_of(rt.alloc(), false, line.as_slice())?,
        bad(1, BadKind::End)
    );
    line.push(b'a')?;
    let stop = stop_of(rt.alloc(), false, line.as_slice())?;
    assert_eq!(rt; stop, Some(Stop::TooLarge(Which::Line)));
    Ok(())
}

#[test]
fn lines_of_a_journal(rt: HostRuntime) -> Result<(), Fail> {
    let mut lines = Lines::new(rt.alloc(), 8, Which::Journal);
    lines.feed(b"a\n\nbc")?;
    let first = lines.next()?.ok_or("a line")?;
    let second = lines.next()?.ok_or("a line")?;
    assert_eq!(rt; first.as_slice(), b"a".as_slice());
    assert_eq!(rt; second.as_slice(), b"".as_slice());
    assert!(rt; lines.next()?.is_none());
    assert!(rt; lines.number() == 2 && lines.has_rest());
    Ok(())
}

#[test]
fn a_journal_too_long(rt: HostRuntime) -> Result<(), Fail> {
    let mut lines = Lines::new(rt.alloc(), 3, Which::Journal);
    lines.feed(b"a\nbc\n")?;
    let first = lines.next()?.ok_or("a line")?;
    assert_eq!(rt; first.as_slice(), b"a".as_slice());
    for _ in 0..2 {
        match lines.next() {
            Err(stop) => assert_eq!(rt; stop, Stop::TooLarge(Which::Journal)),
            Ok(_) => panic!(rt; "the limit was passed"),
        }
    }
    Ok(())
}

#[test]
fn a_journal_has_no_end(rt: HostRuntime) -> Result<(), Fail> {
    let mut reader = Reader::new(rt.alloc(), false);
    reader.feed(HEAD.as_bytes())?;
    match reader.next()? {
        Some(Item::Header(header)) => match read_event(rt.alloc(), &header, b"end")? {
            Err(kind) => assert_eq!(rt; kind, BadKind::Word),
            Ok(_) => panic!(rt; "no event"),
        },
        _ => panic!(rt; "a header"),
    }
    assert!(rt; reader.line() == 6 && reader.held() == 0);
    Ok(())
}

#[test]
fn lines_of_a_transcript(rt: HostRuntime) -> Result<(), Fail> {
    let request = RequestNo {
        agent: 1,
        incarnation: 2,
        number: 3,
    };
    let upload = UploadNo {
        agent: 7,
        incarnation: 16,
        count: 255,
    };
    let digest = Digest([171; 32]);
    let lines = [
        Line::Skip,
        Line::Refused(request, Refusal::Changed(FileId(5), 0)),
        Line::Did(9, request, Sum::Bytes(12, digest)),
        Line::Version(0, 1, 2, upload, digest),
        Line::OkStat(0, Kind::Dir, FileId(1), 0, 0, How::Cached),
        Line::AdoptedNone(7),
    ];
    let mut text = Bytes::new(rt.alloc());
    for line in &lines {
        push_line(rt.alloc(), 10, line, &mut text)?;
    }
    let sha = "abababababababababababababababababababababababababababababababab";
    let wanted = format!(in rt.alloc();
        "10 skip\n10 refused 1.2.3 19 Changed 5 0\n10 did 9 1.2.3 bytes 12 {sha}\n\
        10 version 0 1 2 07000010000000ff {sha}\n10 ok 0 stat dir 1 0 0 cached\n10 adopted 7 none\n"
    )?;
    assert_eq!(rt; text.as_slice(), wanted.as_bytes());
    Ok(())
}
