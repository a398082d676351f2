//! Does a measured thing a number of times over 1 MiB, or over a space of tuples, and prints the digest of the bytes that come out.
//! `scfs_bench MEASURE TIMES`, with the measures `digest`, `stream`, `row`, `encode1`, `encode3`, `decode1`,
//! `decode3`, `steps1000`, `steps100000`, `seal64`, `seal1024`, `open64`, `open1024`, `read64k`, `read1` and, for each of them in
//! turn, `all`.
#![tactic(auto)]

mod codes;
mod measures;
mod steps;
mod texts;
mod units;

ghost use Rattle.std.specs.Prelude.{◌≡◌, ◌≢◌, [], ◌∷◌, codes, IfOk, IfSome, string_bytes};
ghost use Rattle.sha2.specs.Sha256.{sha256};
ghost use Rattle.hex.specs.Hex.{encode_lower};
ghost use Rattle.scfs_bench.specs.Works.{bytes_after};

use codes::{Code, Faults};
use measures::{MEBIBYTE, Measure};
use std::alloc::{AllocError, Global};
use std::process::ExitCode;
use std::{env, io};
use steps::Crowd;
use texts::Text;
use units::{Size, Unit};

/// What a word names.
#[derive(Clone, Copy, Debug, PartialEq, Eq)]
enum Work {
    Rows(Measure),
    Contents(Code),
    Steps(Crowd),
    Sealed(Unit),
    Read(Text),
}

const ALL: [Work; 15] = [
    Work::Rows(Measure::Digest),
    Work::Rows(Measure::Stream),
    Work::Rows(Measure::Row),
    Work::Contents(Code::Encode(Faults::One)),
    Work::Contents(Code::Encode(Faults::Three)),
    Work::Contents(Code::Decode(Faults::One)),
    Work::Contents(Code::Decode(Faults::Three)),
    Work::Steps(Crowd::Thousand),
    Work::Steps(Crowd::HundredThousand),
    Work::Sealed(Unit::Seal(Size::Small)),
    Work::Sealed(Unit::Seal(Size::Large)),
    Work::Sealed(Unit::Open(Size::Small)),
    Work::Sealed(Unit::Open(Size::Large)),
    Work::Read(Text::Pieces),
    Work::Read(Text::Bytes),
];

/// The measures of a word; none where the word names none.
fn measures_of(word: &str) -> &'static [Work]
    ensures digest { word.now ≡ codes "digest" → result.now ≡ Work.Rows Measure.Digest ∷ [] }
    ensures stream { word.now ≡ codes "stream" → result.now ≡ Work.Rows Measure.Stream ∷ [] }
    ensures row { word.now ≡ codes "row" → result.now ≡ Work.Rows Measure.Row ∷ [] }
    ensures encode1 { word.now ≡ codes "encode1" → result.now ≡ Work.Contents (Code.Encode Faults.One) ∷ [] }
    ensures encode3 { word.now ≡ codes "encode3" → result.now ≡ Work.Contents (Code.Encode Faults.Three) ∷ [] }
    ensures decode1 { word.now ≡ codes "decode1" → result.now ≡ Work.Contents (Code.Decode Faults.One) ∷ [] }
    ensures decode3 { word.now ≡ codes "decode3" → result.now ≡ Work.Contents (Code.Decode Faults.Three) ∷ [] }
    ensures few { word.now ≡ codes "steps1000" → result.now ≡ Work.Steps Crowd.Thousand ∷ [] }
    ensures many { word.now ≡ codes "steps100000" → result.now ≡ Work.Steps Crowd.HundredThousand ∷ [] }
    ensures small_seal { word.now ≡ codes "seal64" → result.now ≡ Work.Sealed (Unit.Seal Size.Small) ∷ [] }
    ensures large_seal { word.now ≡ codes "seal1024" → result.now ≡ Work.Sealed (Unit.Seal Size.Large) ∷ [] }
    ensures small_open { word.now ≡ codes "open64" → result.now ≡ Work.Sealed (Unit.Open Size.Small) ∷ [] }
    ensures large_open { word.now ≡ codes "open1024" → result.now ≡ Work.Sealed (Unit.Open Size.Large) ∷ [] }
    ensures pieces { word.now ≡ codes "read64k" → result.now ≡ Work.Read Text.Pieces ∷ [] }
    ensures bytes { word.now ≡ codes "read1" → result.now ≡ Work.Read Text.Bytes ∷ [] }
    ensures all { word.now ≡ codes "all" → result.now
        ≡ Work.Rows Measure.Digest ∷ Work.Rows Measure.Stream ∷ Work.Rows Measure.Row
        ∷ Work.Contents (Code.Encode Faults.One) ∷ Work.Contents (Code.Encode Faults.Three)
        ∷ Work.Contents (Code.Decode Faults.One) ∷ Work.Contents (Code.Decode Faults.Three)
        ∷ Work.Steps Crowd.Thousand ∷ Work.Steps Crowd.HundredThousand
        ∷ Work.Sealed (Unit.Seal Size.Small) ∷ Work.Sealed (Unit.Seal Size.Large)
        ∷ Work.Sealed (Unit.Open Size.Small) ∷ Work.Sealed (Unit.Open Size.Large)
        ∷ Work.Read Text.Pieces ∷ Work.Read Text.Bytes ∷ [] }
    ensures none { word.now ≢ codes "digest" → word.now ≢ codes "stream" → word.now ≢ codes "row" → word.now ≢ codes "encode1"
        → word.now ≢ codes "encode3" → word.now ≢ codes "decode1" → word.now ≢ codes "decode3"
        → word.now ≢ codes "steps1000" → word.now ≢ codes "steps100000"
        → word.now ≢ codes "seal64" → word.now ≢ codes "seal1024" → word.now ≢ codes "open64" → word.now ≢ codes "open1024"
        → word.now ≢ codes "read64k" → word.now ≢ codes "read1"
        → word.now ≢ codes "all" → result.now ≡ [] }
{
    match word {
        "digest" => &[Work::Rows(Measure::Digest)],
        "stream" => &[Work::Rows(Measure::Stream)],
        "row" => &[Work::Rows(Measure::Row)],
        "encode1" => &[Work::Contents(Code::Encode(Faults::One))],
        "encode3" => &[Work::Contents(Code::Encode(Faults::Three))],
        "decode1" => &[Work::Contents(Code::Decode(Faults::One))],
        "decode3" => &[Work::Contents(Code::Decode(Faults::Three))],
        "steps1000" => &[Work::Steps(Crowd::Thousand)],
        "steps100000" => &[Work::Steps(Crowd::HundredThousand)],
        "seal64" => &[Work::Sealed(Unit::Seal(Size::Small))],
        "seal1024" => &[Work::Sealed(Unit::Seal(Size::Large))],
        "open64" => &[Work::Sealed(Unit::Open(Size::Small))],
        "open1024" => &[Work::Sealed(Unit::Open(Size::Large))],
        "read64k" => &[Work::Read(Text::Pieces)],
        "read1" => &[Work::Read(Text::Bytes)],
        "all" => &ALL,
        _ => &[],
    }
}

/// The digest that a measure leaves, in lower-case hexadecimal digits; the measures of units and of texts leave one that is only
/// tested.
fn line(alloc: Global, work: Work, times: u32) -> Result<String, AllocError>
    ensures { IfOk result (λ text.
        IfSome (bytes_after MEBIBYTE work times) (λ bytes. string_bytes text ≡ encode_lower (sha256 bytes))) }
{
    match work {
        Work::Rows(measure) => measures::line(alloc, measure, times),
        Work::Contents(code) => codes::line(alloc, code, times),
        Work::Steps(crowd) => steps::line(alloc, crowd, times),
        Work::Sealed(unit) => units::line(alloc, unit, times),
        Work::Read(text) => texts::line(alloc, text, times),
    }
}

fn main(rt: HostRuntime) -> io::Result<ExitCode> {
    let words: Vec<String> = env::args(&rt)?.collect(rt.alloc())?;
    if let [_, word, times] = words.as_slice() {
        let works = measures_of(word.as_str());
        if let (false, Ok(times)) = (works.is_empty(), times.parse::<u32>()) {
            for &work in works {
                rt.println(line(rt.alloc(), work, times)?)?;
            }
            return Ok(ExitCode::SUCCESS);
        }
    }
    eprintln!(rt;
        "usage: scfs_bench digest|stream|row|encode1|encode3|decode1|decode3|steps1000|steps100000|seal64|seal1024|open64|open1024|read64k|read1|all TIMES"
    )?;
    Ok(ExitCode::from(2))
}
