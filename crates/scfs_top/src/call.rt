ghost use Rattle.std.specs.Prelude.{◌≡◌, ◌≢◌, ◌≤◌, ◌⊎◌, length, map, string_bytes, false, None, Some};
ghost use Rattle.scfs_base.specs.Outside.{Rose};
ghost use Rattle.scfs_policy.specs.Rank.{IsRankRule};
ghost use Rattle.scfs_live.specs.Asked.{told};
ghost use Rattle.scfs_top.specs.Dumping.{DumpsInput};
ghost use Rattle.scfs_top.specs.Headline.{Closes, ClosesWith, ReplaysInput};
ghost use Rattle.scfs_top.specs.Outer.{sink, source};
ghost use Rattle.scfs_top.specs.Running.{ClosesRun, RunsScript, writing_failed};
ghost use Rattle.scfs_words.specs.Command.{command_of};
ghost use Rattle.scfs_words.specs.declared.Command.TheVariants as commands;

use crate::closing::{LastLine, Status, closing_line};
use crate::dump::output;
use crate::edges::write_all;
use crate::nowhere::Nowhere;
use crate::play::{Played, Playout, play};
use crate::run::run;
use crate::stopping::{RunEnd, run_line, writing_failed};
use scfs_base::{Failed, Memory, Sink, Source};
use scfs_cloud::Cloud;
use scfs_laws::{layers_agree, sound_without_clash};
use scfs_policy::{RankFacts, RankRule};
use scfs_words::{Command, command_of};
use std::alloc::Global;

/// Writes a text that ends with the last line, and gives that line's status.
fn close_with<O: Sink>(text: &[u8], last: LastLine, out: &mut O) -> Status
    ensures closes { ClosesWith text.now last (O.written out.old) (O.written out.new) result }
    ensures fault { result ≡ Status.WriteFault → Rose (O.faults out.old) (O.faults out.new) }
    ensures later { O.faults out.old ≤ O.faults out.new }
{
    match write_all(out, text) {
        Ok(()) => last.status(),
        Err(Failed) => Status::WriteFault,
    }
}

/// Writes the last line, and gives its status.
fn close<O: Sink>(alloc: Global, last: LastLine, out: &mut O) -> Status
    ensures closes { Closes last (O.written out.old) (O.written out.new) result }
    ensures fault { result ≡ Status.WriteFault → Rose (O.faults out.old) (O.faults out.new) }
    ensures later { O.faults out.old ≤ O.faults out.new }
{
    match last.text(alloc) {
        Ok(text) => close_with(text.as_slice(), last, out),
        Err(Memory) => Status::Memory,
    }
}

/// Replays the schedule on the input.
fn replay<I: Source, O: Sink, R: Fn(RankFacts) -> u64>(
    alloc: Global,
    input: &mut I,
    rank: &RankRule<R>,
    out: &mut O,
) -> Status
    requires { IsRankRule (R.pre rank.now) }
    ensures replays { ReplaysInput (R.post rank.now) (I.left input.old) (I.left input.new) (O.written out.old) (O.written out.new)
        (I.ends input.old) (I.ends input.new) (I.faults input.old) (I.faults input.new) result }
    ensures fault { result ≡ Status.WriteFault → Rose (O.faults out.old) (O.faults out.new) }
{
    match play(alloc, input, rank, out).played {
        Played::WriteFault => Status::WriteFault,
        Played::Memory => Status::Memory,
        Played::Ended(events, finish, filled) => match closing_line(events, finish, filled) {
            Some(last) => close(alloc, last, out),
            None => Status::Memory,
        },
    }
}

/// Dumps the tree that the schedule on the input leaves.
fn dump<I: Source, O: Sink, R: Fn(RankFacts) -> u64>(
    alloc: Global,
    input: &mut I,
    rank: &RankRule<R>,
    out: &mut O,
) -> Status
    requires { IsRankRule (R.pre rank.now) }
    ensures dumps { DumpsInput (R.post rank.now) (I.left input.old) (I.left input.new) (O.written out.old) (O.written out.new)
        (I.ends input.old) (I.ends input.new) (I.faults input.old) (I.faults input.new) result }
    ensures fault { result ≡ Status.WriteFault → Rose (O.faults out.old) (O.faults out.new) }
{
    layers_agree();
    sound_without_clash();
    let Playout { played, world } = play(alloc, input, rank, &mut Nowhere);
    match played {
        Played::WriteFault => unreachable!(),
        Played::Memory => Status::Memory,
        Played::Ended(events, finish, filled) => match closing_line(events, finish, filled) {
            Some(last) => match output(alloc, &last, world) {
                Ok(text) => close_with(text.as_slice(), last, out),
                Err(Memory) => Status::Memory,
            },
            None => Status::Memory,
        },
    }
}

/// Writes the last line of a run of a script, and gives its status.
fn close_run<O: Sink>(alloc: Global, end: RunEnd, out: &mut O) -> Status
    ensures closes { ClosesRun end (O.written out.old) (O.written out.new) result }
    ensures fault { result ≡ Status.WriteFault → writing_failed end ≡ false → Rose (O.faults out.old) (O.faults out.new) }
    ensures later { O.faults out.old ≤ O.faults out.new }
{
    if writing_failed(&end) {
        return Status::WriteFault;
    }
    match run_line(end) {
        Some(last) => close(alloc, last, out),
        None => Status::Memory,
    }
}

/// Runs the script on the input over real clouds.
fn run_script<I: Source, L: Source, O: Sink, J: Sink, C: Cloud, R: Fn(RankFacts) -> u64>(
    alloc: Global,
    input: &mut I,
    old: &mut L,
    out: &mut O,
    journal: &mut J,
    clouds: &mut [C],
    rank: &RankRule<R>,
) -> Status
    requires clouds { 10 ≤ length clouds.old }
    requires rank { IsRankRule (R.pre rank.now) }
    ensures runs { RunsScript (R.post rank.now) (source (I.left input.old) (I.ends input.old) (I.faults input.old))
        (source (I.left input.new) (I.ends input.new) (I.faults input.new)) (source (L.left old.old) (L.ends old.old) (L.faults old.old))
        (source (L.left old.new) (L.ends old.new) (L.faults old.new)) (sink (O.written out.old) (O.faults out.old)) (O.written out.new)
        (sink (J.written journal.old) (J.faults journal.old)) (sink (J.written journal.new) (J.faults journal.new))
        (map (λ c. told (C.faults c) (C.log c) (C.store c)) clouds.old) (map (λ c. told (C.faults c) (C.log c) (C.store c)) clouds.new) result }
    ensures fault { result ≡ Status.WriteFault → Rose (O.faults out.old) (O.faults out.new) ⊎ Rose (J.faults journal.old) (J.faults journal.new) }
{
    let end = run(alloc, input, old, out, journal, clouds, rank);
    close_run(alloc, end, out)
}

/// Does what one word asks. `replay` plays the schedule that it reads from `input` and writes its transcript to `out`, `dump` the tree that
/// it leaves. `run` runs a script over real clouds, and keeps what happens in a journal: `old` has the one that was kept before, and what
/// is new goes to `journal`. Then a last line says how it ended. Opens read the clouds in the order of the rule's answers, then of
/// their numbers.
pub fn scfs<I: Source, L: Source, O: Sink, J: Sink, C: Cloud, R: Fn(RankFacts) -> u64>(
    alloc: Global,
    words: &[String],
    input: &mut I,
    old: &mut L,
    out: &mut O,
    journal: &mut J,
    clouds: &mut [C],
    rank: &RankRule<R>,
) -> Status
    requires clouds { 10 ≤ length clouds.old }
    requires rank { IsRankRule (R.pre rank.now) }
    ensures usage { command_of (map string_bytes words.now) ≡ None →
        Closes LastLine.Usage (O.written out.old) (O.written out.new) result × (input.new ≡ input.old) }
    ensures usage_only { result ≡ Status.Usage → command_of (map string_bytes words.now) ≡ None }
    ensures replays { command_of (map string_bytes words.now) ≡ Some commands.Replay →
        ReplaysInput (R.post rank.now) (I.left input.old) (I.left input.new) (O.written out.old) (O.written out.new)
        (I.ends input.old) (I.ends input.new) (I.faults input.old) (I.faults input.new) result }
    ensures dumps { command_of (map string_bytes words.now) ≡ Some commands.Dump →
        DumpsInput (R.post rank.now) (I.left input.old) (I.left input.new) (O.written out.old) (O.written out.new)
        (I.ends input.old) (I.ends input.new) (I.faults input.old) (I.faults input.new) result }
    ensures runs { command_of (map string_bytes words.now) ≡ Some commands.Run →
        RunsScript (R.post rank.now) (source (I.left input.old) (I.ends input.old) (I.faults input.old))
        (source (I.left input.new) (I.ends input.new) (I.faults input.new)) (source (L.left old.old) (L.ends old.old) (L.faults old.old))
        (source (L.left old.new) (L.ends old.new) (L.faults old.new)) (sink (O.written out.old) (O.faults out.old)) (O.written out.new)
        (sink (J.written journal.old) (J.faults journal.old)) (sink (J.written journal.new) (J.faults journal.new))
        (map (λ c. told (C.faults c) (C.log c) (C.store c)) clouds.old) (map (λ c. told (C.faults c) (C.log c) (C.store c)) clouds.new) result }
    ensures runs_only { command_of (map string_bytes words.now) ≢ Some commands.Run →
        (old.new ≡ old.old) × (journal.new ≡ journal.old) × (clouds.new ≡ clouds.old) }
    ensures read_fault { result ≡ Status.ReadFault → Rose (I.faults input.old) (I.faults input.new)
        ⊎ ((command_of (map string_bytes words.now) ≡ Some commands.Run) × Rose (L.faults old.old) (L.faults old.new)) }
    ensures write_fault { result ≡ Status.WriteFault → Rose (O.faults out.old) (O.faults out.new)
        ⊎ ((command_of (map string_bytes words.now) ≡ Some commands.Run) × Rose (J.faults journal.old) (J.faults journal.new)) }
{
    match command_of(alloc, words) {
        Ok(Some(Command::Replay)) => replay(alloc, input, rank, out),
        Ok(Some(Command::Dump)) => dump(alloc, input, rank, out),
        Ok(Some(Command::Run)) => run_script(alloc, input, old, out, journal, clouds, rank),
        Ok(None) => close(alloc, LastLine::Usage, out),
        Err(Memory) => Status::Memory,
    }
}
