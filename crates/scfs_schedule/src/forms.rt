ghost use Rattle.std.specs.Prelude.{◌≡◌, ◌+◌, ◌*◌, ◌<◌, ◌≤◌, [], ◌∷◌, ◌++◌, map, length, IfOk};
ghost use Rattle.scfs_schedule.specs.Grammar.{both, all_three, number, number_within, path, hex, agent, cloud, names, opened, call_of, answer_of, mode, seed, HasNames};

use crate::tables::{AnswerWord, CallWord};
use crate::{BadKind, Call, Header, Mode};
use scfs_base::{
    Bytes, CloudAnswer, Memory, NameList, Sequence, read_digest_word, read_hex, read_number,
    read_path_word,
};
use std::alloc::Global;

/// What a word says, or why it is not in form.
pub type Form<T> = Result<T, BadKind>;

/// A number word: decimal digits in their one spelling, below 2^64.
pub fn number(word: &[u8]) -> Form<u64>
    ensures { result ≡ number word.now }
{
    read_number(word).ok_or(BadKind::Number)
}

/// A number of a range, both ends within.
pub fn number_within(low: u64, high: u64, word: &[u8]) -> Form<u64>
    ensures value { result ≡ number_within low high word.now }
    ensures low { IfOk result (λ n. low ≤ n) }
    ensures high { IfOk result (λ n. n ≤ high) }
{
    match read_number(word) {
        Some(number) if low <= number && number <= high => Ok(number),
        _ => Err(BadKind::Number),
    }
}

/// The number of an agent of the header.
pub fn agent(header: &Header, word: &[u8]) -> Form<u8>
    requires some { 1 ≤ length header.now.agents }
    requires few { length header.now.agents ≤ 8 }
    ensures value { result ≡ agent header.now word.now }
    ensures below { IfOk result (λ a. a < length header.now.agents) }
{
    let last = header.agents.len() - 1;
    match number_within(0, last as u64, word) {
        Ok(agent) => Ok(agent as u8),
        Err(kind) => Err(kind),
    }
}

/// The number of one of the 3f + 1 clouds.
pub fn cloud(header: &Header, word: &[u8]) -> Form<u8>
    requires { header.now.f ≤ 3 }
    ensures value { result ≡ cloud header.now word.now }
    ensures below { IfOk result (λ c. c < 3 * header.now.f + 1) }
{
    match number_within(0, 3 * u64::from(header.f), word) {
        Ok(cloud) => Ok(cloud as u8),
        Err(kind) => Err(kind),
    }
}

/// The bytes that a path word spells; any bytes have one such word.
pub fn path(alloc: Global, word: &[u8]) -> Result<Form<Bytes>, Memory>
    ensures { IfOk result (λ form. form ≡ path word.now) }
{
    Ok(read_path_word(alloc, word)?.ok_or(BadKind::Path))
}

/// The bytes that a hexadecimal word spells, in lower-case digits; `-` is no bytes.
pub fn hex(alloc: Global, word: &[u8]) -> Result<Form<Bytes>, Memory>
    ensures { IfOk result (λ form. form ≡ hex word.now) }
{
    Ok(read_hex(alloc, word)?.ok_or(BadKind::Hex))
}

/// The mode of an agent by its word.
pub fn mode(word: &[u8]) -> Form<Mode>
    ensures { result ≡ mode word.now }
{
    if word == b"blocking".as_slice() {
        Ok(Mode::Blocking)
    } else if word == b"nonblocking".as_slice() {
        Ok(Mode::Nonblocking)
    } else if word == b"private".as_slice() {
        Ok(Mode::Private)
    } else {
        Err(BadKind::Word)
    }
}

/// A seed of 32 bytes, as 64 lower-case hexadecimal digits.
pub fn seed(word: &[u8]) -> Form<[u8; 32]>
    ensures { result ≡ seed word.now }
{
    read_digest_word(word).ok_or(BadKind::Hex)
}

/// A call of one word behind its own.
fn one_word_call(alloc: Global, call: CallWord, word: &[u8]) -> Result<Form<Call>, Memory>
    ensures { IfOk result (λ form. form ≡ call_of call (word.now ∷ [])) }
{
    match call {
        CallWord::Mkdir => Ok(path(alloc, word)?.map(Call::Mkdir)),
        CallWord::Rmdir => Ok(path(alloc, word)?.map(Call::Rmdir)),
        CallWord::Create => Ok(path(alloc, word)?.map(Call::Create)),
        CallWord::Unlink => Ok(path(alloc, word)?.map(Call::Unlink)),
        CallWord::Stat => Ok(path(alloc, word)?.map(Call::Stat)),
        CallWord::List => Ok(path(alloc, word)?.map(Call::List)),
        CallWord::Versions => Ok(path(alloc, word)?.map(Call::Versions)),
        CallWord::Collect => Ok(path(alloc, word)?.map(Call::Collect)),
        CallWord::Close => Ok(number(word).map(Call::Close)),
        _ => Ok(Err(BadKind::Word)),
    }
}

fn open_call(path: Form<Bytes>, word: &[u8]) -> Form<Call>
    ensures { result ≡ opened path word.now }
{
    match path {
        Ok(path) if word == b"r".as_slice() => Ok(Call::OpenR(path)),
        Ok(path) if word == b"w".as_slice() => Ok(Call::OpenW(path)),
        Ok(_) => Err(BadKind::Word),
        Err(kind) => Err(kind),
    }
}

fn rename_call(from: Form<Bytes>, to: Form<Bytes>) -> Form<Call>
    ensures { result ≡ both Call.Rename from to }
{
    match (from, to) {
        (Ok(from), Ok(to)) => Ok(Call::Rename(from, to)),
        (Err(kind), _) => Err(kind),
        (Ok(_), Err(kind)) => Err(kind),
    }
}

fn openat_call(path: Form<Bytes>, version: Form<u64>) -> Form<Call>
    ensures { result ≡ both Call.Openat path version }
{
    match (path, version) {
        (Ok(path), Ok(version)) => Ok(Call::Openat(path, version)),
        (Err(kind), _) => Err(kind),
        (Ok(_), Err(kind)) => Err(kind),
    }
}

/// A call of two words behind its own.
fn two_word_call(
    alloc: Global,
    call: CallWord,
    first: &[u8],
    second: &[u8],
) -> Result<Form<Call>, Memory>
    ensures { IfOk result (λ form. form ≡ call_of call (first.now ∷ second.now ∷ [])) }
{
    match call {
        CallWord::Rename => Ok(rename_call(path(alloc, first)?, path(alloc, second)?)),
        CallWord::Open => Ok(open_call(path(alloc, first)?, second)),
        CallWord::Openat => Ok(openat_call(path(alloc, first)?, number(second))),
        CallWord::Truncate => Ok(truncate_call(number(first), number(second))),
        _ => Ok(Err(BadKind::Word)),
    }
}

fn truncate_call(session: Form<u64>, size: Form<u64>) -> Form<Call>
    ensures { result ≡ both Call.Truncate session size }
{
    match (session, size) {
        (Ok(session), Ok(size)) => Ok(Call::Truncate(session, size)),
        (Err(kind), _) => Err(kind),
        (Ok(_), Err(kind)) => Err(kind),
    }
}

fn read_call(session: Form<u64>, offset: Form<u64>, count: Form<u64>) -> Form<Call>
    ensures { result ≡ all_three Call.Read session offset count }
{
    match (session, offset, count) {
        (Ok(session), Ok(offset), Ok(count)) => Ok(Call::Read(session, offset, count)),
        (Err(kind), _, _) => Err(kind),
        (Ok(_), Err(kind), _) => Err(kind),
        (Ok(_), Ok(_), Err(kind)) => Err(kind),
    }
}

fn write_call(session: Form<u64>, offset: Form<u64>, bytes: Form<Bytes>) -> Form<Call>
    ensures { result ≡ all_three Call.Write session offset bytes }
{
    match (session, offset, bytes) {
        (Ok(session), Ok(offset), Ok(bytes)) => Ok(Call::Write(session, offset, bytes)),
        (Err(kind), _, _) => Err(kind),
        (Ok(_), Err(kind), _) => Err(kind),
        (Ok(_), Ok(_), Err(kind)) => Err(kind),
    }
}

/// A call of three words behind its own.
fn three_word_call(
    alloc: Global,
    call: CallWord,
    first: &[u8],
    second: &[u8],
    third: &[u8],
) -> Result<Form<Call>, Memory>
    ensures { IfOk result (λ form. form ≡ call_of call (first.now ∷ second.now ∷ third.now ∷ [])) }
{
    match call {
        CallWord::Read => Ok(read_call(number(first), number(second), number(third))),
        CallWord::Write => Ok(write_call(number(first), number(second), hex(alloc, third)?)),
        _ => Ok(Err(BadKind::Word)),
    }
}

/// The call of a word with the words that follow it.
pub fn call(alloc: Global, call: CallWord, words: &[&[u8]]) -> Result<Form<Call>, Memory>
    ensures { IfOk result (λ form. form ≡ call_of call (map (λ w. w.now) words.now)) }
{
    match words {
        [] => Ok(plain_call(call)),
        [word] => one_word_call(alloc, call, word),
        [first, second] => two_word_call(alloc, call, first, second),
        [first, second, third] => three_word_call(alloc, call, first, second, third),
        _ => Ok(Err(BadKind::Word)),
    }
}

fn plain_call(call: CallWord) -> Form<Call>
    ensures { result ≡ call_of call [] }
{
    match call {
        CallWord::Sync => Ok(Call::Sync),
        CallWord::Purge => Ok(Call::Purge),
        _ => Err(BadKind::Word),
    }
}

/// The path words of a list of names.
fn names(alloc: Global, words: &[&[u8]]) -> Result<Form<NameList>, Memory>
    ensures value { IfOk result (λ form. form ≡ names (map (λ w. w.now) words.now)) }
    ensures count { IfOk result (λ form. IfOk form (λ names. length names ≡ length words.now)) }
{
    let mut names = Sequence::new(alloc);
    for word in words {
        match path(alloc, word)? {
            Ok(name) => names.push(name)?,
            Err(kind) => return Ok(Err(kind)),
        }
    }
    Ok(Ok(names))
}

/// The answer of a word with the words that follow it.
pub fn answer(
    alloc: Global,
    answer: AnswerWord,
    words: &[&[u8]],
) -> Result<Form<CloudAnswer>, Memory>
    ensures value { IfOk result (λ form. form ≡ answer_of answer (map (λ w. w.now) words.now)) }
    ensures names { IfOk result (λ form. IfOk form (λ made. HasNames made (length words.now))) }
{
    match (answer, words) {
        (AnswerWord::Ack, []) => Ok(Ok(CloudAnswer::Ack)),
        (AnswerWord::Absent, []) => Ok(Ok(CloudAnswer::Absent)),
        (AnswerWord::Fail, []) => Ok(Ok(CloudAnswer::Fail)),
        (AnswerWord::Bytes, [bytes]) => Ok(hex(alloc, bytes)?.map(CloudAnswer::Bytes)),
        (AnswerWord::Names, words) => Ok(names(alloc, words)?.map(CloudAnswer::Names)),
        _ => Ok(Err(BadKind::Word)),
    }
}
