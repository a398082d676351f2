ghost use Rattle.std.specs.Prelude.{◌≡◌, ◌+◌, ◌<◌, length, IfOk, OnOk};
ghost use Rattle.scfs_anchor.specs.Fields.{small_at};
ghost use Rattle.scfs_anchor.specs.Replies.{sight_of};
ghost use Rattle.scfs_agent.specs.Telling.{FitsSeen};
ghost use Rattle.scfs_agent.specs.Reacting.{FitsInput};
ghost use Rattle.scfs_schedule.specs.Grammar.{IsHeader};

use scfs_agent::{Agent, Input, Output};
use scfs_base::{Bytes, CloudAnswer, Memory, RequestNo, Sequence, read_hex};
use scfs_policy::{RankFacts, RankRule};
use scfs_schedule::{Call, Header, Mode, push_line};
use scfs_tuples::{Field, Reply, StepResult, Tuple};
use std::alloc::Global;
use std::test::Fail;

// The reader of the run of one writer and one reader, by itself: it is given what came to it there, and nothing else.

/// The root of the sealed contents, as another implementation sealed them.
const ROOT: &str = "0f92cb4bb1c463003225171107d04b3b191ee6ad7e182319e5b8a89a5b8f82b9";

/// The digest of the contents.
const CONTENT: &str = "76a9b75cfbd6b4f10ea0a7cfd0f170c720f092cacd4e1ee75c137f03d088b5de";

/// The objects of two clouds.
const OBJECTS: [&str; 2] = [
    "5343463101000000026f7439d412abef1fe86f84b0e04872758216cba35039d56d32ad7b886433a27fa1ecc3c6bba32\
        d6635227c913f0096b4d5a51d9e045a3efddad58097920e7e82888f6641b5a426c57490cf472489406b8dde55cbd\
        3e547daeefe94a54ce0ed6a4b17fddc92a28de8f30def4a0b7ef6650d0afec8c6093a49c90f90f701c8a5ba88da6\
        55957fa6bb8bff4cddcba3218bdb8c141d5c9c0ea98b9b9346b8a9e65ae25",
    "5343463101000000026f7439d412abef1fe86f84b0e04872758216cba35039d56d32ad7b886433a27fa1ecc3c6bba32\
        d6635227c913f0096b4d5a51d9e045a3efddad58097920e7e82888f6641b5a426c57490cf472489406b8dde55cbd\
        3e547daeefe94a54ce0ed6a4b17fddc92a28de8f30def4a0b7ef6650d0afec8c6093a49c90f90f701c8a5ba32176\
        2d9c4dde3bc0b8f1596a03f6386a7f22a466cf6842c316260ad19d2e767b6",
];

fn bytes(alloc: Global, word: &str) -> Result<Bytes, Memory> {
    Ok(read_hex(alloc, word.as_bytes())?.unwrap_or(Bytes::new(alloc)))
}

/// Two agents over four clouds.
fn header(alloc: Global) -> Result<Header, Memory>
    ensures header { IfOk result (λ header. IsHeader header) }
    ensures f { IfOk result (λ header. header.f ≡ 1) }
    ensures agents { IfOk result (λ header. 1 < length header.agents) }
{
    let mut agents = Sequence::new(alloc);
    agents.push((Mode::Blocking, [0; 32]))?;
    agents.push((Mode::Blocking, [0; 32]))?;
    Ok(Header {
        f: 1,
        lease: 100,
        stale: 0,
        agents,
    })
}

fn request(number: u64) -> RequestNo {
    RequestNo {
        agent: 1,
        incarnation: 0,
        number,
    }
}

/// The tuple of version 1 of file 1, which has two bytes.
fn version(alloc: Global) -> Result<Tuple, Memory>
    ensures { IfOk result (λ version. (small_at version.fields 2 ≡ 1) × (small_at version.fields 5 ≡ 2)) }
{
    let mut fields = Sequence::new(alloc);
    fields.push(Field::Text(Bytes::from_slice(alloc, b"ver")?))?;
    fields.push(Field::Num(1))?;
    fields.push(Field::Num(1))?;
    fields.push(Field::Text(bytes(alloc, ROOT)?))?;
    fields.push(Field::Text(bytes(alloc, CONTENT)?))?;
    fields.push(Field::Num(2))?;
    fields.push(Field::Num(0))?;
    fields.push(Field::Num(0))?;
    fields.push(Field::Num(1))?;
    fields.push(Field::Num(0))?;
    Ok(Tuple {
        fields,
        until: None,
    })
}

/// The space's reply to the open: the file and its newest version, that version's tuple, and no lock.
fn sight(alloc: Global) -> Result<Reply, Memory>
    ensures { IfOk result (λ reply. FitsSeen (sight_of reply.result)) }
{
    let mut bound = Sequence::new(alloc);
    bound.push(Field::Num(1))?;
    bound.push(Field::Num(1))?;
    let mut versions = Sequence::new(alloc);
    versions.push(version(alloc)?)?;
    let mut rows = Sequence::new(alloc);
    rows.push(versions)?;
    rows.push(Sequence::new(alloc))?;
    let result = StepResult::Did {
        bound,
        taken: 0,
        rows,
    };
    Ok(Reply { now: 0, result })
}

/// Gives the agent an input, and adds its lines to the text.
fn give(
    alloc: Global,
    agent: &mut Agent,
    event: u64,
    input: Input,
    text: &mut Bytes,
) -> Result<(), Memory>
    requires room { agent.old.inputs < 1000000 }
    requires cloud { FitsInput agent.old.header agent.old.agent input }
    ensures header { OnOk result (agent.new.header ≡ agent.old.header) }
    ensures inputs { OnOk result (agent.new.inputs ≡ agent.old.inputs + 1) }
{
    let rank = RankRule::new(|facts: RankFacts| u64::from(facts.bad));
    let given = agent.on(0, input, &rank)?;
    for output in given.as_slice() {
        if let Output::Line(line) = output {
            push_line(alloc, event, line, text)?;
        }
    }
    Ok(())
}

/// It opens the file.
fn opens(alloc: Global, agent: &mut Agent, text: &mut Bytes) -> Result<(), Memory>
    requires room { agent.old.inputs < 1000000 }
    ensures header { OnOk result (agent.new.header ≡ agent.old.header) }
    ensures inputs { OnOk result (agent.new.inputs ≡ agent.old.inputs + 1) }
{
    let path = Bytes::from_slice(alloc, b"/a")?;
    give(alloc, agent, 19, Input::Call(Call::OpenR(path)), text)
}

/// It is told the sight.
fn sees(alloc: Global, agent: &mut Agent, text: &mut Bytes) -> Result<(), Memory>
    requires room { agent.old.inputs < 1000000 }
    ensures header { OnOk result (agent.new.header ≡ agent.old.header) }
    ensures inputs { OnOk result (agent.new.inputs ≡ agent.old.inputs + 1) }
{
    let reply = sight(alloc)?;
    give(alloc, agent, 21, Input::Space(request(1), reply), text)
}

/// A cloud gives it its object.
fn gets(
    alloc: Global,
    agent: &mut Agent,
    event: u64,
    cloud: u8,
    text: &mut Bytes,
) -> Result<(), Memory>
    requires room { agent.old.inputs < 1000000 }
    requires f { agent.old.header.f ≡ 1 }
    requires cloud { cloud < 2 }
    ensures header { OnOk result (agent.new.header ≡ agent.old.header) }
    ensures inputs { OnOk result (agent.new.inputs ≡ agent.old.inputs + 1) }
{
    let object = bytes(alloc, OBJECTS[usize::from(cloud)])?;
    let answer = CloudAnswer::Bytes(object);
    let input = Input::Cloud(cloud, request(u64::from(cloud) + 2), answer);
    give(alloc, agent, event, input, text)
}

/// All that comes to it, and its lines.
fn lines_of(alloc: Global, agent: &mut Agent) -> Result<Bytes, Memory>
    requires f { agent.old.header.f ≡ 1 }
    requires inputs { agent.old.inputs ≡ 0 }
{
    let mut text = Bytes::new(alloc);
    opens(alloc, agent, &mut text)?;
    sees(alloc, agent, &mut text)?;
    gets(alloc, agent, 23, 0, &mut text)?;
    gets(alloc, agent, 25, 1, &mut text)?;
    give(
        alloc,
        agent,
        26,
        Input::Call(Call::Read(1, 0, 10)),
        &mut text,
    )?;
    Ok(text)
}

#[test]
fn a_reader_by_itself(rt: HostRuntime) -> Result<(), Fail> {
    let header = header(rt.alloc())?;
    let mut agent = Agent::new(rt.alloc(), 1, &header)?;
    let text = lines_of(rt.alloc(), &mut agent)?;
    assert_eq!(rt;
        text.as_slice(),
        b"21 saw 1.0.1 1 1\n25 opened 1 1 1 clouds 2\n26 data 1 1 6869\n".as_slice()
    );
    Ok(())
}
