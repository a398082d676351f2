ghost use Rattle.std.specs.Prelude.{◌≡◌, ◌≤◌, [], None, Some, length, IfOk, OnOk, MatchResult};
ghost use Rattle.scfs_base.specs.Limits.{contents_limit};
ghost use Rattle.scfs_session.specs.Open.{session_of, opened, ended, read_answer, after_write, after_truncate, change_answer, sessions_after, file_of};

use crate::CONTENTS_LIMIT;
use crate::contents::Contents;
use scfs_base::{Bytes, FileId, Memory};
use scfs_schedule::Refusal;
use std::alloc::Global;
use std::collections::BTreeMap;
use std::marker::Model;

/// An open session: its file, the version that it began from, whether it may write, and its working copy.
#[derive(Drop)]
pub struct Session {
    pub file: FileId,
    pub base: u32,
    pub writes: bool,
    pub contents: Contents,
}

impl Session {
    ghost use Rattle.scfs_session.specs.Open.{change_refusal};

    /// Why a change of the contents that has to reach so far is refused.
    fn refuses(&self, end: u64) -> Option<Refusal>
        ensures { result ≡ change_refusal self.now end }
    {
        if !self.writes {
            Some(Refusal::ReadOnly)
        } else if end > CONTENTS_LIMIT {
            Some(Refusal::TooLong)
        } else {
            None
        }
    }
}

/// What a session that ended leaves: its file, the version that it began from, whether it might write, and its contents.
#[derive(Drop)]
pub struct Ended {
    pub id: FileId,
    pub base: u32,
    pub writes: bool,
    pub contents: Bytes,
}

/// The open sessions of an agent, seen as the finite map from their numbers. Each has at most `CONTENTS_LIMIT` bytes.
#[derive(Drop)]
pub struct Sessions {
    alloc: Global,
    by_number: BTreeMap<u64, Session>,
}

impl Model for Sessions {
    ghost use Rattle.scfs_session.specs.Open.{OpenSessions};

    ghost Value = { OpenSessions };

    ghost view = { λ sessions. sessions.by_number.entries };
}

impl Sessions {
    /// No session.
    pub fn new(alloc: Global) -> Result<Sessions, Memory>
        ensures { IfOk result (λ sessions. sessions ≡ []) }
    {
        Ok(Sessions {
            alloc,
            by_number: BTreeMap::new(alloc),
        })
    }

    /// Opens a session of this number, in place of one that had it. The contents have at most `CONTENTS_LIMIT` bytes.
    pub fn add(
        &mut self,
        session: u64,
        id: FileId,
        base: u32,
        writes: bool,
        contents: Bytes,
    ) -> Result<(), Memory>
        requires short { length contents ≤ contents_limit }
        ensures { OnOk result (self.new ≡ opened self.old session (record { file = id; base = base; writes = writes; contents = contents })) }
    {
        let added = Session {
            file: id,
            base,
            writes,
            contents: Contents::new(contents),
        };
        let _ = self.by_number.insert(session, added)?;
        Ok(())
    }

    /// The bytes of a session from an offset on, or the first `count` of them where there are more. It is refused as BadHandle
    /// where no session has that number, then as TooLong where `count` is above `CONTENTS_LIMIT`.
    pub fn read(
        &self,
        session: u64,
        offset: u64,
        count: u64,
    ) -> Result<Result<Bytes, Refusal>, Memory>
        ensures { IfOk result (λ answer. answer ≡ read_answer (session_of self.now session) offset count) }
    {
        let Some(held) = self.by_number.get(&session) else {
            return Ok(Err(Refusal::BadHandle));
        };
        if count > CONTENTS_LIMIT {
            return Ok(Err(Refusal::TooLong));
        }
        Ok(Ok(held.contents.read(self.alloc, offset, count)?))
    }

    /// Writes bytes from an offset on and answers the length afterwards; an offset past the end is reached by zeros, and no
    /// bytes change nothing. It is refused as BadHandle where no session has that number, as ReadOnly where the session only
    /// reads, then as TooLong where the bytes would end above `CONTENTS_LIMIT`. A refused write changes nothing.
    #[tactic(auto, using(std::proofs::lemmas::Map::Steps::set_value_same))]
    pub fn write(
        &mut self,
        session: u64,
        offset: u64,
        bytes: &[u8],
    ) -> Result<Result<u32, Refusal>, Memory>
        ensures answer { IfOk result (λ answer. answer ≡ change_answer (after_write (session_of self.old session) offset bytes.now)) }
        ensures after { OnOk result (self.new ≡ sessions_after self.old session (after_write (session_of self.old session) offset bytes.now)) }
    {
        let Some(held) = self.by_number.get_mut(&session) else {
            return Ok(Err(Refusal::BadHandle));
        };
        if let Some(refusal) = held.refuses(offset.saturating_add(bytes.len() as u64)) {
            return Ok(Err(refusal));
        }
        held.contents.write(self.alloc, offset, bytes)?;
        Ok(Ok(held.contents.len()))
    }

    /// Cuts the contents to a length, or fills them with zeros up to it, and answers that length. It is refused as BadHandle
    /// where no session has that number, as ReadOnly where the session only reads, then as TooLong where the length is above
    /// `CONTENTS_LIMIT`. A refused truncate changes nothing.
    #[tactic(auto, using(std::proofs::lemmas::Map::Steps::set_value_same))]
    pub fn truncate(&mut self, session: u64, length: u64) -> Result<Result<u32, Refusal>, Memory>
        ensures answer { IfOk result (λ answer. answer ≡ change_answer (after_truncate (session_of self.old session) length)) }
        ensures after { OnOk result (self.new ≡ sessions_after self.old session (after_truncate (session_of self.old session) length)) }
    {
        let Some(held) = self.by_number.get_mut(&session) else {
            return Ok(Err(Refusal::BadHandle));
        };
        if let Some(refusal) = held.refuses(length) {
            return Ok(Err(refusal));
        }
        held.contents.truncate(length)?;
        Ok(Ok(held.contents.len()))
    }

    /// Ends a session and gives what it leaves. It is refused as BadHandle exactly where no session has that number.
    pub fn take(&mut self, session: u64) -> Result<Ended, Refusal>
        ensures answer { MatchResult result
            (λ left. session_of self.old session ≡ Some (record { file = left.id; base = left.base; writes = left.writes; contents = left.contents }))
            (λ refusal. (refusal ≡ Refusal.BadHandle) × (session_of self.old session ≡ None)) }
        ensures short { IfOk result (λ left. length left.contents ≤ contents_limit) }
        ensures after { self.new ≡ ended self.old session }
        ensures gone { session_of self.new session ≡ None }
    {
        let Some(held) = self.by_number.remove(&session) else {
            return Err(Refusal::BadHandle);
        };
        Ok(Ended {
            id: held.file,
            base: held.base,
            writes: held.writes,
            contents: held.contents.into_bytes(),
        })
    }

    /// The file of an open session, if one has that number.
    pub fn file(&self, session: u64) -> Option<FileId>
        ensures { result ≡ file_of (session_of self.now session) }
    {
        let held = self.by_number.get(&session)?;
        Some(held.file)
    }

    /// How many sessions are held.
    pub fn len(&self) -> u64
        ensures { result ≡ length self.now }
    {
        self.by_number.len() as u64
    }
}
