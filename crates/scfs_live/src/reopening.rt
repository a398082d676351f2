ghost use Rattle.std.specs.Prelude.{◌≡◌, ◌≤◌, [], List, ℕ, IfErr, IfOk, OnOk, None, true};
ghost use Rattle.scfs_base.specs.Limits.{events_limit};
ghost use Rattle.scfs_base.specs.Outside.{Puts, Rose};
ghost use Rattle.scfs_policy.specs.Rank.{IsRankRule};
ghost use Rattle.scfs_schedule.specs.Grammar.{IsHeader};
ghost use Rattle.scfs_schedule.specs.Splitting.{lines_of, no_lines};
ghost use Rattle.scfs_schedule.specs.declared.types.Header.{Header};
ghost use Rattle.scfs_world.specs.Built.{is_built_header};
ghost use Rattle.scfs_world.specs.Stepping.{IsWorld};
ghost use Rattle.scfs_live.specs.Keeping.{mark_if, missing};
ghost use Rattle.scfs_live.specs.Reopened.{EndsLines, EndsReopening, Reopens};
ghost use Rattle.scfs_live.specs.Rereading.{EndsWriting, GivesNext, IsSoFar, Rereads, StopsReading};

use crate::LiveEnd;
use crate::awaited::Awaited;
use crate::limits::JOURNAL_LIMIT;
use crate::pieces::{PieceRead, feed_piece};
use crate::running::Running;
use crate::writing::write_all;
use scfs_base::{Bytes, Failed, Memory, Sink, Source};
use scfs_policy::{RankFacts, RankRule};
use scfs_schedule::{Header, Lines, Stop, Which};
use scfs_world::{World, standing_worlds_are_shown};
use std::alloc::Global;

/// How many bytes are read at a time.
const PIECE: usize = 65_536;

/// An old journal that was run again to its end, and whether its last line is unfinished.
#[derive(Drop)]
pub struct Reread {
    pub running: Running,
    pub unfinished: bool,
}

/// The next whole line of the bytes fed.
fn next_line(lines: &mut Lines) -> Result<Option<Bytes>, LiveEnd>
    ensures { GivesNext result lines.old lines.new }
{
    match lines.next() {
        Ok(line) => Ok(line),
        Err(Stop::TooLarge(which)) => Err(LiveEnd::TooLarge(which)),
        Err(_) => Err(LiveEnd::Memory),
    }
}

/// Runs the whole lines again that the bytes fed hold.
fn run_lines<R: Fn(RankFacts) -> u64>(
    alloc: Global,
    running: Running,
    lines: &mut Lines,
    rank: &RankRule<R>,
) -> Result<Running, LiveEnd>
    requires so_far { (header : Header) × (taken : List ℕ) × IsSoFar (R.post rank.now) header taken lines.old running }
    requires rank { IsRankRule (R.pre rank.now) }
    ensures runs { IfOk result (λ next. (header : Header) (taken : List ℕ) → IsSoFar (R.post rank.now) header taken lines.old running →
        IsSoFar (R.post rank.now) header taken lines.new next) }
    ensures all { IfOk result (λ next. lines_of lines.new [] ≡ no_lines None) }
    ensures ends { IfErr result (λ end. (header : Header) (taken : List ℕ) → IsSoFar (R.post rank.now) header taken lines.old running →
        EndsLines (R.post rank.now) header taken end) }
{
    standing_worlds_are_shown();
    let mut running = running;
    'lines: loop {
        let line = match next_line(lines) {
            Ok(Some(line)) => line,
            Ok(None) => return Ok(running),
            Err(end) => return Err(end),
        };
        match running.on_line(alloc, lines.number(), line.as_slice(), rank) {
            Ok(next) => running = next,
            Err(end) => return Err(end),
        }
    }
}

/// Reads an old journal to its end and runs it again.
fn run_again<L: Source, R: Fn(RankFacts) -> u64>(
    alloc: Global,
    header: &Header,
    old: &mut L,
    rank: &RankRule<R>,
) -> Result<Reread, LiveEnd>
    requires header { IsHeader header.now }
    requires built { is_built_header header.now ≡ true }
    requires rank { IsRankRule (R.pre rank.now) }
    ensures rereads { IfOk result (λ reread.
        Rereads (R.post rank.now) header.now (L.left old.old) (L.left old.new) (L.ends old.old) (L.ends old.new) reread) }
    ensures ends { IfErr result (λ end. StopsReading (R.post rank.now) header.now (L.left old.old) (L.left old.new) end) }
    ensures fault { IfErr result (λ end. end ≡ LiveEnd.ReadFault Which.Journal → Rose (L.faults old.old) (L.faults old.new)) }
    ensures later_ends { L.ends old.old ≤ L.ends old.new }
    ensures later_faults { L.faults old.old ≤ L.faults old.new }
{
    let mut lines = Lines::new(alloc, JOURNAL_LIMIT, Which::Journal);
    let mut running = Running::new(alloc, header)?;
    let mut unfinished = false;
    let mut room = JOURNAL_LIMIT as usize + 1;
    let mut buffer = [0u8; PIECE];
    'pieces: while room > 0 {
        let wanted = room.min(PIECE);
        match feed_piece(old, &mut lines, &mut buffer[..wanted]) {
            PieceRead::Took(count, ends_in_line) => {
                room -= count;
                unfinished = ends_in_line;
            }
            PieceRead::End => {
                return Ok(Reread {
                    running,
                    unfinished,
                });
            }
            PieceRead::Fault => return Err(LiveEnd::ReadFault(Which::Journal)),
            PieceRead::Memory => return Err(LiveEnd::Memory),
        }
        match run_lines(alloc, running, &mut lines, rank) {
            Ok(next) => running = next,
            Err(end) => return Err(end),
        }
    }
    unreachable!()
}

/// What ends an unfinished line.
fn mark_if(unfinished: bool) -> &'static [u8]
    ensures { result.now ≡ mark_if unfinished }
{
    if unfinished { b"~\n" } else { b"" }
}

/// Writes the end of an unfinished line, and then the lines that are missing.
fn write_missing<J: Sink>(
    alloc: Global,
    awaited: &Awaited,
    unfinished: bool,
    journal: &mut J,
) -> Result<(), LiveEnd>
    ensures written { OnOk result (Puts (J.written journal.old) (J.written journal.new) (missing unfinished awaited.now)) }
    ensures ends { IfErr result (λ end. EndsWriting (J.written journal.old) (J.written journal.new) (missing unfinished awaited.now) end) }
    ensures fault { IfErr result (λ end. end ≡ LiveEnd.WriteFault Which.Journal → Rose (J.faults journal.old) (J.faults journal.new)) }
    ensures later { J.faults journal.old ≤ J.faults journal.new }
{
    let text = awaited.text(alloc)?;
    match write_all(journal, mark_if(unfinished)) {
        Err(Failed) => Err(LiveEnd::WriteFault(Which::Journal)),
        Ok(()) => match write_all(journal, text.as_slice()) {
            Err(Failed) => Err(LiveEnd::WriteFault(Which::Journal)),
            Ok(()) => Ok(()),
        },
    }
}

/// Writes what is missing, and gives the world.
fn finish<J: Sink>(alloc: Global, reread: Reread, journal: &mut J) -> Result<World, LiveEnd>
    ensures world { IfOk result (λ world. world ≡ reread.running.world) }
    ensures written { OnOk result (Puts (J.written journal.old) (J.written journal.new) (missing reread.unfinished reread.running.awaited)) }
    ensures ends { IfErr result (λ end.
        EndsWriting (J.written journal.old) (J.written journal.new) (missing reread.unfinished reread.running.awaited) end) }
    ensures fault { IfErr result (λ end. end ≡ LiveEnd.WriteFault Which.Journal → Rose (J.faults journal.old) (J.faults journal.new)) }
    ensures later { J.faults journal.old ≤ J.faults journal.new }
{
    let Reread {
        running,
        unfinished,
    } = reread;
    let Running { world, awaited } = running;
    match write_missing(alloc, &awaited, unfinished, journal) {
        Ok(()) => Ok(world),
        Err(end) => Err(end),
    }
}

/// Reads an old journal to its end and runs its events again on a new world. The lines that it keeps have to be those that are made
/// now. Then the lines that are missing of its header, or of its last event, are written behind it, and before them the end of a last
/// line that is unfinished. Nothing is written before all of it was run again.
pub fn reopen<L: Source, J: Sink, R: Fn(RankFacts) -> u64>(
    alloc: Global,
    header: &Header,
    old: &mut L,
    journal: &mut J,
    rank: &RankRule<R>,
) -> Result<World, LiveEnd>
    requires header { IsHeader header.now }
    requires built { is_built_header header.now ≡ true }
    requires rank { IsRankRule (R.pre rank.now) }
    ensures reopens { IfOk result (λ world. Reopens (R.post rank.now) header.now (L.left old.old) (L.left old.new) (L.ends old.old) (L.ends old.new)
        (J.written journal.old) (J.written journal.new) world) }
    ensures world { IfOk result (λ world. IsWorld world) }
    ensures room { IfOk result (λ world. world.events ≤ events_limit) }
    ensures ends { IfErr result (λ end. EndsReopening (R.post rank.now) header.now (L.left old.old) (L.left old.new) (L.ends old.old) (L.ends old.new)
        (J.written journal.old) (J.written journal.new) end) }
    ensures read_fault { IfErr result (λ end. end ≡ LiveEnd.ReadFault Which.Journal → Rose (L.faults old.old) (L.faults old.new)) }
    ensures write_fault { IfErr result (λ end. end ≡ LiveEnd.WriteFault Which.Journal → Rose (J.faults journal.old) (J.faults journal.new)) }
    ensures later_ends { L.ends old.old ≤ L.ends old.new }
    ensures later_reads { L.faults old.old ≤ L.faults old.new }
    ensures later_writes { J.faults journal.old ≤ J.faults journal.new }
{
    match run_again(alloc, header, old, rank) {
        Err(end) => Err(end),
        Ok(reread) => finish(alloc, reread, journal),
    }
}
