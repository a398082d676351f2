//! The families of a transcript's lines: those of one family have a word and values of the same kinds.

ghost use Rattle.std.specs.Prelude.{◌≡◌, Some};
ghost use Rattle.scfs_schedule.specs.Text.{line_text};
ghost use Rattle.scfs_schedule.specs.Phrases.{of_request_text, of_cloud_text, of_agent_text, of_call_text, phrase_text};

use crate::spelling::{HexText, HexWord, PathWord, RequestWord, UploadWord};
use crate::{How, Kind, Line, Refusal, Src, Sum};
use scfs_base::{RequestNo, UploadNo};
use std::fmt;

/// What the space says of a request.
#[derive(Drop)]
pub enum OfRequest<'a> {
    Alone(&'a str, &'a RequestNo),
    Count(&'a str, &'a RequestNo, u64),
    File(&'a str, &'a RequestNo, u64, u64),
    Refused(&'a RequestNo, &'a Refusal),
}

impl fmt::Display for OfRequest<'_> {
    ghost output = { λ it. Some (of_request_text it) };

    fn fmt<W: fmt::Write>(&self, f: &mut fmt::Formatter<W>) -> fmt::Result {
        match self {
            OfRequest::Alone(word, request) => write!(f, "{word} {}", RequestWord(request)),
            OfRequest::Count(word, request, count) => write!(
                f,
                "{word} {} {count}",
                RequestWord(request)
            ),
            OfRequest::File(word, request, file, count) => write!(
                f,
                "{word} {} {file} {count}",
                RequestWord(request)
            ),
            OfRequest::Refused(request, why) => write!(f, "refused {} {why}", RequestWord(request)),
        }
    }
}

/// What is asked of a cloud, and what comes of it.
#[derive(Drop)]
pub enum OfCloud<'a> {
    Answer(&'a str, u8, &'a RequestNo, &'a Sum),
    Put(&'a RequestNo, u8, &'a [u8], u64, &'a [u8]),
    Name(&'a str, &'a RequestNo, u8, &'a [u8]),
}

impl fmt::Display for OfCloud<'_> {
    ghost output = { λ it. Some (of_cloud_text it) };

    fn fmt<W: fmt::Write>(&self, f: &mut fmt::Formatter<W>) -> fmt::Result {
        match self {
            OfCloud::Answer(word, cloud, request, sum) => write!(
                f,
                "{word} {cloud} {} {sum}",
                RequestWord(request)
            ),
            OfCloud::Put(request, cloud, name, length, digest) => write!(
                f,
                "put {} {cloud} {} {length} {}",
                RequestWord(request),
                PathWord(name),
                HexWord(digest)
            ),
            OfCloud::Name(word, request, cloud, name) => write!(
                f,
                "{word} {} {cloud} {}",
                RequestWord(request),
                PathWord(name)
            ),
        }
    }
}

/// What an agent says.
#[derive(Drop)]
pub enum OfAgent<'a> {
    Alone(&'a str, u8),
    One(&'a str, u8, u64),
    Two(&'a str, u8, u64, u64),
    Opened(u8, u64, u64, Src, u64),
    Name(u8, &'a [u8]),
    Data(u8, u64, &'a [u8]),
    Version(u8, u64, u64, &'a UploadNo, &'a [u8]),
    No(u8, &'a Refusal),
    AdoptedNone(u8),
}

impl fmt::Display for OfAgent<'_> {
    ghost output = { λ it. Some (of_agent_text it) };

    fn fmt<W: fmt::Write>(&self, f: &mut fmt::Formatter<W>) -> fmt::Result {
        match self {
            OfAgent::Alone(word, agent) => write!(f, "{word} {agent}"),
            OfAgent::One(word, agent, first) => write!(f, "{word} {agent} {first}"),
            OfAgent::Two(word, agent, first, second) => write!(
                f,
                "{word} {agent} {first} {second}"
            ),
            OfAgent::Opened(agent, session, version, source, length) => write!(
                f,
                "opened {agent} {session} {version} {source} {length}"
            ),
            OfAgent::Name(agent, name) => write!(f, "name {agent} {}", PathWord(name)),
            OfAgent::Data(agent, session, bytes) => write!(
                f,
                "data {agent} {session} {}",
                HexText(bytes)
            ),
            OfAgent::Version(agent, version, length, upload, digest) => write!(
                f,
                "version {agent} {version} {length} {} {}",
                UploadWord(upload),
                HexWord(digest)
            ),
            OfAgent::No(agent, why) => write!(f, "no {agent} {why}"),
            OfAgent::AdoptedNone(agent) => write!(f, "adopted {agent} none"),
        }
    }
}

/// What an agent says of a call that it did.
#[derive(Drop)]
pub enum OfCall<'a> {
    Alone(u8, &'a str),
    One(u8, &'a str, u64),
    Two(u8, &'a str, u64, u64),
    Stat(u8, Kind, u64, u64, u64, How),
    List(u8, u64, How),
}

impl fmt::Display for OfCall<'_> {
    ghost output = { λ it. Some (of_call_text it) };

    fn fmt<W: fmt::Write>(&self, f: &mut fmt::Formatter<W>) -> fmt::Result {
        match self {
            OfCall::Alone(agent, word) => write!(f, "ok {agent} {word}"),
            OfCall::One(agent, word, first) => write!(f, "ok {agent} {word} {first}"),
            OfCall::Two(agent, word, first, second) => write!(
                f,
                "ok {agent} {word} {first} {second}"
            ),
            OfCall::Stat(agent, kind, file, version, length, how) => write!(
                f,
                "ok {agent} stat {kind} {file} {version} {length} {how}"
            ),
            OfCall::List(agent, count, how) => write!(f, "ok {agent} list {count} {how}"),
        }
    }
}

/// A line by its family.
#[derive(Drop)]
pub enum Phrase<'a> {
    Skip,
    Request(OfRequest<'a>),
    Cloud(OfCloud<'a>),
    Agent(OfAgent<'a>),
    Call(OfCall<'a>),
}

impl fmt::Display for Phrase<'_> {
    ghost output = { λ it. Some (phrase_text it) };

    fn fmt<W: fmt::Write>(&self, f: &mut fmt::Formatter<W>) -> fmt::Result {
        match self {
            Phrase::Skip => write!(f, "skip"),
            Phrase::Request(phrase) => write!(f, "{phrase}"),
            Phrase::Cloud(phrase) => write!(f, "{phrase}"),
            Phrase::Agent(phrase) => write!(f, "{phrase}"),
            Phrase::Call(phrase) => write!(f, "{phrase}"),
        }
    }
}

/// The family of a line, and its word and values.
pub fn phrase_of(line: &Line) -> Phrase<'_>
    ensures { phrase_text result ≡ line_text line.now }
{
    match line {
        Line::Skip => Phrase::Skip,
        Line::Gone(request) => Phrase::Request(OfRequest::Alone("gone", request)),
        Line::Looked(request) => Phrase::Request(OfRequest::Alone("looked", request)),
        Line::Changed(request) => Phrase::Request(OfRequest::Alone("changed", request)),
        Line::Locked(request, file, until) => Phrase::Request(OfRequest::File(
            "locked", request, file.0, *until,
        )),
        Line::Committed(request, file, version) => Phrase::Request(OfRequest::File(
            "committed",
            request,
            file.0,
            *version,
        )),
        Line::Renewed(request, until) => Phrase::Request(OfRequest::Count(
            "renewed", request, *until,
        )),
        Line::Unlocked(request, locks) => Phrase::Request(OfRequest::Count(
            "unlocked", request, *locks,
        )),
        Line::Dropped(request, versions) => Phrase::Request(OfRequest::Count(
            "dropped", request, *versions,
        )),
        Line::Forgot(request, tuples) => Phrase::Request(OfRequest::Count(
            "forgot", request, *tuples,
        )),
        Line::Refused(request, why) => Phrase::Request(OfRequest::Refused(request, why)),
        Line::Did(cloud, request, sum) => Phrase::Cloud(OfCloud::Answer(
            "did", *cloud, request, sum,
        )),
        Line::Gave(cloud, request, sum) => Phrase::Cloud(OfCloud::Answer(
            "gave", *cloud, request, sum,
        )),
        Line::Put(request, cloud, name, length, digest) => Phrase::Cloud(OfCloud::Put(
            request,
            *cloud,
            name.as_slice(),
            *length,
            &digest.0,
        )),
        Line::Get(request, cloud, name) => Phrase::Cloud(OfCloud::Name(
            "get",
            request,
            *cloud,
            name.as_slice(),
        )),
        Line::Del(request, cloud, name) => Phrase::Cloud(OfCloud::Name(
            "del",
            request,
            *cloud,
            name.as_slice(),
        )),
        Line::Ls(request, cloud, prefix) => Phrase::Cloud(OfCloud::Name(
            "ls",
            request,
            *cloud,
            prefix.as_slice(),
        )),
        Line::Saw(request, file, version) => Phrase::Request(OfRequest::File(
            "saw", request, file.0, *version,
        )),
        Line::Opened(agent, session, version, source, length) => Phrase::Agent(OfAgent::Opened(
            *agent, *session, *version, *source, *length,
        )),
        Line::OkMkdir(agent, file) => Phrase::Call(OfCall::One(*agent, "mkdir", file.0)),
        Line::OkCreate(agent, file) => Phrase::Call(OfCall::One(*agent, "create", file.0)),
        Line::OkRmdir(agent) => Phrase::Call(OfCall::Alone(*agent, "rmdir")),
        Line::OkUnlink(agent) => Phrase::Call(OfCall::Alone(*agent, "unlink")),
        Line::OkRename(agent) => Phrase::Call(OfCall::Alone(*agent, "rename")),
        Line::OkSync(agent) => Phrase::Call(OfCall::Alone(*agent, "sync")),
        Line::OkStat(agent, kind, file, version, length, how) => Phrase::Call(OfCall::Stat(
            *agent, *kind, file.0, *version, *length, *how,
        )),
        Line::Name(agent, name) => Phrase::Agent(OfAgent::Name(*agent, name.as_slice())),
        Line::OkList(agent, count, how) => Phrase::Call(OfCall::List(*agent, *count, *how)),
        Line::Data(agent, session, bytes) => Phrase::Agent(OfAgent::Data(
            *agent,
            *session,
            bytes.as_slice(),
        )),
        Line::OkWrite(agent, session, length) => Phrase::Call(OfCall::Two(
            *agent, "write", *session, *length,
        )),
        Line::OkTruncate(agent, session, length) => Phrase::Call(OfCall::Two(
            *agent, "truncate", *session, *length,
        )),
        Line::OkClose(agent, session) => Phrase::Call(OfCall::One(*agent, "close", *session)),
        Line::Closed(agent, session, version) => Phrase::Agent(OfAgent::Two(
            "closed", *agent, *session, *version,
        )),
        Line::Queued(agent, session) => Phrase::Agent(OfAgent::One("queued", *agent, *session)),
        Line::Done(agent, session, version) => Phrase::Agent(OfAgent::Two(
            "done", *agent, *session, *version,
        )),
        Line::Lost(agent, session) => Phrase::Agent(OfAgent::One("lost", *agent, *session)),
        Line::Version(agent, version, length, upload, digest) => Phrase::Agent(OfAgent::Version(
            *agent, *version, *length, upload, &digest.0,
        )),
        Line::OkVersions(agent, count) => Phrase::Call(OfCall::One(*agent, "versions", *count)),
        Line::OkCollect(agent, count) => Phrase::Call(OfCall::One(*agent, "collect", *count)),
        Line::OkPurge(agent, versions, uploads) => Phrase::Call(OfCall::Two(
            *agent, "purge", *versions, *uploads,
        )),
        Line::No(agent, why) => Phrase::Agent(OfAgent::No(*agent, why)),
        Line::Lapsed(agent, session) => Phrase::Agent(OfAgent::One("lapsed", *agent, *session)),
        Line::Saved(agent, count) => Phrase::Agent(OfAgent::One("saved", *agent, *count)),
        Line::Crashed(agent) => Phrase::Agent(OfAgent::Alone("crashed", *agent)),
        Line::Started(agent, incarnation) => Phrase::Agent(OfAgent::One(
            "started",
            *agent,
            u64::from(*incarnation),
        )),
        Line::Ready(agent) => Phrase::Agent(OfAgent::Alone("ready", *agent)),
        Line::Adopted(agent, incarnation, count) => Phrase::Agent(OfAgent::Two(
            "adopted",
            *agent,
            u64::from(*incarnation),
            *count,
        )),
        Line::AdoptedNone(agent) => Phrase::Agent(OfAgent::AdoptedNone(*agent)),
    }
}
