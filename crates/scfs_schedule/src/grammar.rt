ghost use Rattle.std.specs.Prelude.{◌≡◌, ◌≤◌, [], ◌∷◌, map, IfOk, false};
ghost use Rattle.scfs_schedule.specs.Grammar.{words_of, made, both, call_event, named_call, say_event, named_answer, tick_event, agent_event, cloud_event, actor_event, event_named, event_of, is_script_word, end_said, event_said, only_number, header_number, with_agent, agent_line, begin_said, agents_said, said_of, IsHeader, IsEvent};
ghost use Rattle.scfs_schedule.specs.Tables.{agent_word, cloud_word, call_word, answer_word};
ghost use Rattle.scfs_schedule.specs.Places.{IsPlace, IsSaidAt, IsWithOneMore};
ghost use Rattle.scfs_schedule.specs.declared.types.Header.{Header};

use crate::forms::{self, Form, agent, cloud, mode, number_within, seed};
use crate::tables::{AgentWord, CloudWord};
use crate::wording::{agent_word, answer_word, call_word, cloud_word, may_follow, words_of_call};
use crate::{BadKind, Event, Header, Mode, Place, Said};
use scfs_base::{Memory, Sequence, cut};
use std::alloc::Global;

/// The words of a line.
fn words(alloc: Global, line: &[u8]) -> Result<Vec<&[u8]>, Memory>
    ensures { IfOk result (λ words. map (λ w. w.now) words.items ≡ words_of line.now) }
{
    let mut words = Vec::new(alloc);
    let mut rest = line;
    while let Some((word, tail)) = cut(rest, b' ') {
        words.push(word)?;
        rest = tail;
    }
    words.push(rest)?;
    Ok(words)
}

/// What the words behind `call` state.
fn call_event(alloc: Global, header: &Header, words: &[&[u8]]) -> Result<Form<Event>, Memory>
    requires { IsHeader header.now }
    ensures value { IfOk result (λ form. form ≡ call_event header.now (map (λ w. w.now) words.now)) }
    ensures fits { IfOk result (λ form. IfOk form (λ event. IsEvent header.now event)) }
{
    match words {
        [number, word, words @ ..] => named_call(alloc, header, number, word, words),
        _ => Ok(Err(BadKind::Word)),
    }
}

fn named_call(
    alloc: Global,
    header: &Header,
    number: &[u8],
    word: &[u8],
    words: &[&[u8]],
) -> Result<Form<Event>, Memory>
    requires { IsHeader header.now }
    ensures value { IfOk result (λ form. form ≡ named_call header.now number.now (call_word word.now) (map (λ w. w.now) words.now)) }
    ensures fits { IfOk result (λ form. IfOk form (λ event. IsEvent header.now event)) }
{
    match call_word(word) {
        Some(call) if words.len() == words_of_call(call) => match agent(header, number) {
            Ok(agent) => match forms::call(alloc, call, words)? {
                Ok(call) => Ok(Ok(Event::Call(agent, call))),
                Err(kind) => Ok(Err(kind)),
            },
            Err(kind) => Ok(Err(kind)),
        },
        _ => Ok(Err(BadKind::Word)),
    }
}

/// What the words behind `say` state.
fn say_event(alloc: Global, header: &Header, words: &[&[u8]]) -> Result<Form<Event>, Memory>
    requires { IsHeader header.now }
    ensures value { IfOk result (λ form. form ≡ say_event header.now (map (λ w. w.now) words.now)) }
    ensures fits { IfOk result (λ form. IfOk form (λ event. IsEvent header.now event)) }
{
    match words {
        [number, word, words @ ..] => named_answer(alloc, header, number, word, words),
        _ => Ok(Err(BadKind::Word)),
    }
}

fn named_answer(
    alloc: Global,
    header: &Header,
    number: &[u8],
    word: &[u8],
    words: &[&[u8]],
) -> Result<Form<Event>, Memory>
    requires { IsHeader header.now }
    ensures value { IfOk result (λ form. form ≡ named_answer header.now number.now (answer_word word.now) (map (λ w. w.now) words.now)) }
    ensures fits { IfOk result (λ form. IfOk form (λ event. IsEvent header.now event)) }
{
    match answer_word(word) {
        Some(answer) if may_follow(answer, words.len()) => match cloud(header, number) {
            Ok(cloud) => match forms::answer(alloc, answer, words)? {
                Ok(answer) => Ok(Ok(Event::Say(cloud, answer))),
                Err(kind) => Ok(Err(kind)),
            },
            Err(kind) => Ok(Err(kind)),
        },
        _ => Ok(Err(BadKind::Word)),
    }
}

/// What the words behind `tick` state.
fn tick_event(words: &[&[u8]]) -> Form<Event>
    ensures value { result ≡ tick_event (map (λ w. w.now) words.now) }
    ensures ticks { IfOk result (λ event. (header : Header) → IsEvent header event) }
{
    match words {
        [ticks] => number_within(1, 1_000_000_000, ticks).map(Event::Tick),
        _ => Err(BadKind::Word),
    }
}

fn agent_event(word: AgentWord, agent: u8) -> Event
    ensures value { result ≡ agent_event word agent }
{
    match word {
        AgentWord::Space => Event::Space(agent),
        AgentWord::Later => Event::Later(agent),
        AgentWord::Told => Event::Told(agent),
        AgentWord::Turn => Event::Turn(agent),
        AgentWord::Crash => Event::Crash(agent),
        AgentWord::Start => Event::Start(agent),
    }
}

fn cloud_event(word: CloudWord, cloud: u8) -> Event
    ensures value { result ≡ cloud_event word cloud }
{
    match word {
        CloudWord::Serve => Event::Serve(cloud),
        CloudWord::Hide => Event::Hide(cloud),
        CloudWord::Fail => Event::Fail(cloud),
        CloudWord::Give => Event::Give(cloud),
        CloudWord::Lose => Event::Lose(cloud),
        CloudWord::Drop => Event::Drop(cloud),
        CloudWord::Defer => Event::Defer(cloud),
        CloudWord::Swap => Event::Swap(cloud),
        CloudWord::Again => Event::Again(cloud),
        CloudWord::Twice => Event::Twice(cloud),
    }
}

/// An event of one number.
fn actor_event(
    header: &Header,
    of_agent: Option<AgentWord>,
    of_cloud: Option<CloudWord>,
    words: &[&[u8]],
) -> Form<Event>
    requires { IsHeader header.now }
    ensures value { result ≡ actor_event header.now of_agent of_cloud (map (λ w. w.now) words.now) }
    ensures fits { IfOk result (λ event. IsEvent header.now event) }
{
    let [number] = words else {
        return Err(BadKind::Word);
    };
    match (of_agent, of_cloud) {
        (Some(word), _) => match agent(header, number) {
            Ok(agent) => Ok(agent_event(word, agent)),
            Err(kind) => Err(kind),
        },
        (None, Some(word)) => match cloud(header, number) {
            Ok(cloud) => Ok(cloud_event(word, cloud)),
            Err(kind) => Err(kind),
        },
        (None, None) => Err(BadKind::Word),
    }
}

/// What a first word and the words behind it state.
fn event_named(
    alloc: Global,
    header: &Header,
    word: &[u8],
    words: &[&[u8]],
) -> Result<Form<Event>, Memory>
    requires { IsHeader header.now }
    ensures value { IfOk result (λ form. form ≡ event_named header.now word.now (map (λ w. w.now) words.now)) }
    ensures fits { IfOk result (λ form. IfOk form (λ event. IsEvent header.now event)) }
{
    if word == b"call".as_slice() {
        call_event(alloc, header, words)
    } else if word == b"say".as_slice() {
        say_event(alloc, header, words)
    } else if word == b"tick".as_slice() {
        Ok(tick_event(words))
    } else {
        Ok(actor_event(header, agent_word(word), cloud_word(word), words))
    }
}

fn is_script_word(word: &[u8]) -> bool
    ensures { result ≡ is_script_word word.now }
{
    word == b"call".as_slice()
        || word == b"turn".as_slice()
        || word == b"tick".as_slice()
        || word == b"crash".as_slice()
        || word == b"start".as_slice()
}

/// What the words behind `end` say.
fn end_line(words: &[&[u8]]) -> Said
    ensures value { result ≡ end_said (map (λ w. w.now) words.now) }
    ensures fits { (header : Header) → IsSaidAt (Place.Events header) result }
{
    if words.is_empty() {
        Said::Ends
    } else {
        Said::Wrong(BadKind::Word)
    }
}

/// What the words of a line behind the header say, in a schedule or in a script.
fn event_line(alloc: Global, script: bool, header: &Header, words: &[&[u8]]) -> Result<Said, Memory>
    requires { IsHeader header.now }
    ensures value { IfOk result (λ said. said ≡ event_said script header.now (map (λ w. w.now) words.now)) }
    ensures fits { IfOk result (λ said. IsSaidAt (Place.Events header.now) said) }
{
    let [word, words @ ..] = words else {
        return Ok(Said::Wrong(BadKind::Word));
    };
    if *word == b"end".as_slice() {
        return Ok(end_line(words));
    }
    if script && !is_script_word(word) {
        return Ok(Said::Wrong(BadKind::Word));
    }
    match event_named(alloc, header, word, words)? {
        Ok(event) => Ok(Said::Says(event)),
        Err(kind) => Ok(Said::Wrong(kind)),
    }
}

/// The number of a header line that begins with this word.
fn header_number(
    alloc: Global,
    name: &[u8],
    low: u64,
    high: u64,
    line: &[u8],
) -> Result<Form<u64>, Memory>
    ensures value { IfOk result (λ form. form ≡ header_number name.now low high (words_of line.now)) }
    ensures low { IfOk result (λ form. IfOk form (λ n. low ≤ n)) }
    ensures high { IfOk result (λ form. IfOk form (λ n. n ≤ high)) }
{
    let words = words(alloc, line)?;
    match words.as_slice() {
        [word, number] if *word == name => Ok(number_within(low, high, number)),
        [word, ..] if *word == name => Ok(Err(BadKind::Word)),
        _ => Ok(Err(BadKind::Order)),
    }
}

/// The header with one more agent.
fn with_agent(alloc: Global, header: &Header, mode: Mode, seed: [u8; 32]) -> Result<Header, Memory>
    ensures value { IfOk result (λ longer. longer ≡ with_agent header.now 0 mode seed) }
    ensures longer { IfOk result (λ longer. IsWithOneMore header.now longer) }
{
    let mut longer = header.copy(alloc)?;
    longer.agents.push((mode, seed))?;
    Ok(longer)
}

/// What the words behind `agent` state.
fn agent_line(alloc: Global, header: &Header, words: &[&[u8]]) -> Result<Form<Header>, Memory>
    ensures value { IfOk result (λ form. form ≡ agent_line header.now (map (λ w. w.now) words.now)) }
    ensures longer { IfOk result (λ form. IfOk form (λ longer. IsWithOneMore header.now longer)) }
{
    match words {
        [number, mode, seed] => next_agent(alloc, header, number, mode, seed),
        _ => Ok(Err(BadKind::Word)),
    }
}

/// The header with the agent that three words state, if its number is the next one.
fn next_agent(
    alloc: Global,
    header: &Header,
    number: &[u8],
    mode_word: &[u8],
    seed_word: &[u8],
) -> Result<Form<Header>, Memory>
    ensures value { IfOk result (λ form. form ≡ agent_line header.now (number.now ∷ mode_word.now ∷ seed_word.now ∷ [])) }
    ensures longer { IfOk result (λ form. IfOk form (λ longer. IsWithOneMore header.now longer)) }
{
    let next = header.agents.len() as u64;
    if let Err(kind) = number_within(next, next, number) {
        return Ok(Err(kind));
    }
    match (mode(mode_word), seed(seed_word)) {
        (Ok(mode), Ok(seed)) => {
            let longer = with_agent(alloc, header, mode, seed)?;
            Ok(Ok(longer))
        }
        (Err(kind), _) => Ok(Err(kind)),
        (Ok(_), Err(kind)) => Ok(Err(kind)),
    }
}

/// What the words of a line in the agents' place say.
fn agents_line(alloc: Global, header: &Header, words: &[&[u8]]) -> Result<Said, Memory>
    requires { IsPlace (Place.Agents header.now) }
    ensures value { IfOk result (λ said. said ≡ agents_said header.now (map (λ w. w.now) words.now)) }
    ensures fits { IfOk result (λ said. IsSaidAt (Place.Agents header.now) said) }
{
    let [word, words @ ..] = words else {
        return Ok(Said::Wrong(BadKind::Order));
    };
    let count = header.agents.len();
    if *word == b"agent".as_slice() && count < 8 {
        return match agent_line(alloc, header, words)? {
            Ok(header) => Ok(Said::Moves(Place::Agents(header))),
            Err(kind) => Ok(Said::Wrong(kind)),
        };
    }
    if *word == b"begin".as_slice() && count >= 1 {
        return begin_line(alloc, header, words);
    }
    Ok(Said::Wrong(BadKind::Order))
}

fn begin_line(alloc: Global, header: &Header, words: &[&[u8]]) -> Result<Said, Memory>
    ensures { IfOk result (λ said. said ≡ begin_said header.now (map (λ w. w.now) words.now)) }
{
    if words.is_empty() {
        Ok(Said::Begins(header.copy(alloc)?))
    } else {
        Ok(Said::Wrong(BadKind::Word))
    }
}

fn version_line(alloc: Global, line: &[u8]) -> Result<Said, Memory>
    ensures value { IfOk result (λ said. said ≡ said_of false Place.Version line.now) }
    ensures fits { IfOk result (λ said. IsSaidAt Place.Version said) }
{
    match header_number(alloc, b"scfs", 1, 1, line)? {
        Ok(_) => Ok(Said::Moves(Place::Faults)),
        Err(kind) => Ok(Said::Wrong(kind)),
    }
}

fn faults_line(alloc: Global, line: &[u8]) -> Result<Said, Memory>
    ensures value { IfOk result (λ said. said ≡ said_of false Place.Faults line.now) }
    ensures fits { IfOk result (λ said. IsSaidAt Place.Faults said) }
{
    match header_number(alloc, b"f", 1, 3, line)? {
        Ok(f) => Ok(Said::Moves(Place::Lease(f as u8))),
        Err(kind) => Ok(Said::Wrong(kind)),
    }
}

fn lease_line(alloc: Global, f: u8, line: &[u8]) -> Result<Said, Memory>
    requires { IsPlace (Place.Lease f) }
    ensures value { IfOk result (λ said. said ≡ said_of false (Place.Lease f) line.now) }
    ensures fits { IfOk result (λ said. IsSaidAt (Place.Lease f) said) }
{
    match header_number(alloc, b"lease", 1, 1_000_000_000, line)? {
        Ok(lease) => Ok(Said::Moves(Place::Stale(f, lease))),
        Err(kind) => Ok(Said::Wrong(kind)),
    }
}

fn stale_line(alloc: Global, f: u8, lease: u64, line: &[u8]) -> Result<Said, Memory>
    requires { IsPlace (Place.Stale f lease) }
    ensures value { IfOk result (λ said. said ≡ said_of false (Place.Stale f lease) line.now) }
    ensures fits { IfOk result (λ said. IsSaidAt (Place.Stale f lease) said) }
{
    match header_number(alloc, b"stale", 0, 1_000_000_000, line)? {
        Ok(stale) => Ok(Said::Moves(Place::Agents(Header {
            f,
            lease,
            stale,
            agents: Sequence::new(alloc),
        }))),
        Err(kind) => Ok(Said::Wrong(kind)),
    }
}

/// What a line says at a place of a schedule or a script.
pub fn said(alloc: Global, script: bool, place: &Place, line: &[u8]) -> Result<Said, Memory>
    requires { IsPlace place.now }
    ensures value { IfOk result (λ said. said ≡ said_of script place.now line.now) }
    ensures fits { IfOk result (λ said. IsSaidAt place.now said) }
{
    match place {
        Place::Version => version_line(alloc, line),
        Place::Faults => faults_line(alloc, line),
        Place::Lease(f) => lease_line(alloc, *f, line),
        Place::Stale(f, lease) => stale_line(alloc, *f, *lease, line),
        Place::Agents(header) => agents_line(alloc, header, words(alloc, line)?.as_slice()),
        Place::Events(header) => event_line(alloc, script, header, words(alloc, line)?.as_slice()),
    }
}

/// The event that a line without its byte 0a states under a header, or why it states none.
pub fn read_event(
    alloc: Global,
    header: &Header,
    line: &[u8],
) -> Result<Result<Event, BadKind>, Memory>
    requires { IsHeader header.now }
    ensures value { IfOk result (λ form. form ≡ event_of header.now (words_of line.now)) }
    ensures fits { IfOk result (λ form. IfOk form (λ event. IsEvent header.now event)) }
{
    let words = words(alloc, line)?;
    match words.as_slice() {
        [word, words @ ..] => event_named(alloc, header, word, words),
        [] => Ok(Err(BadKind::Word)),
    }
}
