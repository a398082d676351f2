//! `scfs` plays a recorded schedule of a shared file system: it reads the schedule from standard input and writes its transcript, or the
//! tree that it leaves, to standard output. Or it runs a script over folders as clouds, and keeps what happens in the file `scfs.journal`.
#![tactic(auto)]

#[cfg(test)]
mod alone;
#[cfg(test)]
mod dumped;
mod journal;
#[cfg(test)]
mod journaled;
#[cfg(test)]
mod lives;
#[cfg(test)]
mod malformed;
#[cfg(test)]
mod old_journals;
#[cfg(test)]
mod rows;
#[cfg(test)]
mod scripted;
#[cfg(test)]
mod stopped;
mod streams;
#[cfg(test)]
mod tests;

use journal::{JournalIn, JournalOut};
use scfs_cloud::DirCloud;
use scfs_policy::{RankFacts, RankRule};
use scfs_top::{Status, scfs};
use std::process::ExitCode;
use std::{env, io};
use streams::{Incoming, Outgoing};

/// The journal's file, in the current folder.
const JOURNAL: &str = "scfs.journal";

/// The words behind the program's name; none where one of them is no text.
fn words(rt: &HostRuntime) -> io::Result<Vec<String>> {
    let mut words = Vec::new(rt.alloc());
    match env::args(rt) {
        Ok(args) => {
            for word in args.skip(1) {
                words.push(word)?;
            }
        }
        Err(error) if error.kind() == io::ErrorKind::InvalidData => {}
        Err(error) => return Err(error),
    }
    Ok(words)
}

/// A folder as a cloud.
fn cloud<'a>(rt: &'a HostRuntime, folder: &'a str) -> DirCloud<'a, HostRuntime> {
    DirCloud::new(rt.alloc(), rt, folder)
}

/// Does what the words ask, over the standard streams, the journal file and ten folders as clouds.
fn obey(rt: &HostRuntime, words: &[String]) -> Status {
    let mut input = Incoming::new(rt.reader());
    let mut old = JournalIn::new(rt, JOURNAL);
    let mut out = Outgoing::new(io::writer(rt));
    let mut journal = JournalOut::new(rt, JOURNAL);
    let mut clouds = [
        cloud(rt, "cloud0"),
        cloud(rt, "cloud1"),
        cloud(rt, "cloud2"),
        cloud(rt, "cloud3"),
        cloud(rt, "cloud4"),
        cloud(rt, "cloud5"),
        cloud(rt, "cloud6"),
        cloud(rt, "cloud7"),
        cloud(rt, "cloud8"),
        cloud(rt, "cloud9"),
    ];
    let rank = RankRule::new(|facts: RankFacts| u64::from(facts.bad));
    scfs(
        rt.alloc(),
        words,
        &mut input,
        &mut old,
        &mut out,
        &mut journal,
        &mut clouds,
        &rank,
    )
}

fn main(rt: HostRuntime) -> ExitCode {
    let status = match words(&rt) {
        Ok(words) => obey(&rt, words.as_slice()),
        Err(_) => Status::Memory,
    };
    ExitCode::from(status.number())
}
