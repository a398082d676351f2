ghost use Rattle.std.specs.Prelude.{◌≡◌};
ghost use Rattle.scfs_schedule.specs.Tables.{agent_word, cloud_word, path_call_words, other_call_words, meaning, call_word, words_of_call, answer_word, may_follow};

use crate::tables::{AgentWord, AnswerWord, CallWord, CloudWord};

/// The event that a first word names, if it names an agent alone.
pub fn agent_word(word: &[u8]) -> Option<AgentWord>
    ensures { result ≡ agent_word word.now }
{
    if word == b"space".as_slice() {
        Some(AgentWord::Space)
    } else if word == b"later".as_slice() {
        Some(AgentWord::Later)
    } else if word == b"told".as_slice() {
        Some(AgentWord::Told)
    } else if word == b"turn".as_slice() {
        Some(AgentWord::Turn)
    } else if word == b"crash".as_slice() {
        Some(AgentWord::Crash)
    } else if word == b"start".as_slice() {
        Some(AgentWord::Start)
    } else {
        None
    }
}

/// The event that a first word names, if it names a cloud alone.
pub fn cloud_word(word: &[u8]) -> Option<CloudWord>
    ensures { result ≡ cloud_word word.now }
{
    if word == b"serve".as_slice() {
        Some(CloudWord::Serve)
    } else if word == b"hide".as_slice() {
        Some(CloudWord::Hide)
    } else if word == b"fail".as_slice() {
        Some(CloudWord::Fail)
    } else if word == b"give".as_slice() {
        Some(CloudWord::Give)
    } else if word == b"lose".as_slice() {
        Some(CloudWord::Lose)
    } else if word == b"drop".as_slice() {
        Some(CloudWord::Drop)
    } else if word == b"defer".as_slice() {
        Some(CloudWord::Defer)
    } else if word == b"swap".as_slice() {
        Some(CloudWord::Swap)
    } else if word == b"again".as_slice() {
        Some(CloudWord::Again)
    } else if word == b"twice".as_slice() {
        Some(CloudWord::Twice)
    } else {
        None
    }
}

/// The call on one path that a word names.
fn path_call_word(word: &[u8]) -> Option<CallWord>
    ensures { result ≡ meaning path_call_words word.now }
{
    if word == b"mkdir".as_slice() {
        Some(CallWord::Mkdir)
    } else if word == b"rmdir".as_slice() {
        Some(CallWord::Rmdir)
    } else if word == b"create".as_slice() {
        Some(CallWord::Create)
    } else if word == b"unlink".as_slice() {
        Some(CallWord::Unlink)
    } else if word == b"stat".as_slice() {
        Some(CallWord::Stat)
    } else if word == b"list".as_slice() {
        Some(CallWord::List)
    } else if word == b"versions".as_slice() {
        Some(CallWord::Versions)
    } else if word == b"collect".as_slice() {
        Some(CallWord::Collect)
    } else {
        None
    }
}

/// Another call that a word names.
fn other_call_word(word: &[u8]) -> Option<CallWord>
    ensures { result ≡ meaning other_call_words word.now }
{
    if word == b"rename".as_slice() {
        Some(CallWord::Rename)
    } else if word == b"open".as_slice() {
        Some(CallWord::Open)
    } else if word == b"openat".as_slice() {
        Some(CallWord::Openat)
    } else if word == b"read".as_slice() {
        Some(CallWord::Read)
    } else if word == b"write".as_slice() {
        Some(CallWord::Write)
    } else if word == b"truncate".as_slice() {
        Some(CallWord::Truncate)
    } else if word == b"close".as_slice() {
        Some(CallWord::Close)
    } else if word == b"sync".as_slice() {
        Some(CallWord::Sync)
    } else if word == b"purge".as_slice() {
        Some(CallWord::Purge)
    } else {
        None
    }
}

/// The call that a word names.
pub fn call_word(word: &[u8]) -> Option<CallWord>
    ensures { result ≡ call_word word.now }
{
    match path_call_word(word) {
        Some(call) => Some(call),
        None => other_call_word(word),
    }
}

/// How many words follow the call's word.
pub fn words_of_call(call: CallWord) -> usize
    ensures { result ≡ words_of_call call }
{
    match call {
        CallWord::Sync | CallWord::Purge => 0,
        CallWord::Rename | CallWord::Open | CallWord::Openat | CallWord::Truncate => 2,
        CallWord::Read | CallWord::Write => 3,
        CallWord::Mkdir
        | CallWord::Rmdir
        | CallWord::Create
        | CallWord::Unlink
        | CallWord::Stat
        | CallWord::List
        | CallWord::Close
        | CallWord::Versions
        | CallWord::Collect => 1,
    }
}

/// The answer of a cloud that a word names.
pub fn answer_word(word: &[u8]) -> Option<AnswerWord>
    ensures { result ≡ answer_word word.now }
{
    if word == b"ack".as_slice() {
        Some(AnswerWord::Ack)
    } else if word == b"absent".as_slice() {
        Some(AnswerWord::Absent)
    } else if word == b"fail".as_slice() {
        Some(AnswerWord::Fail)
    } else if word == b"bytes".as_slice() {
        Some(AnswerWord::Bytes)
    } else if word == b"names".as_slice() {
        Some(AnswerWord::Names)
    } else {
        None
    }
}

/// Whether so many words may follow the answer's word.
pub fn may_follow(answer: AnswerWord, count: usize) -> bool
    ensures { result ≡ may_follow answer count }
{
    match answer {
        AnswerWord::Ack | AnswerWord::Absent | AnswerWord::Fail => count == 0,
        AnswerWord::Bytes => count == 1,
        AnswerWord::Names => count <= 16,
    }
}
