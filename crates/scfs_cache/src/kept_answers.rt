ghost use Rattle.std.specs.Prelude.{◌≡◌, [], IfOk, OnOk, OnErr, option_map};
ghost use Rattle.scfs_cache.specs.declared.paths.Kept.{Kept};
ghost use Rattle.scfs_cache.specs.Kept.{fresh, after_asking, after_keeping};

use crate::paths::{Kept, RecentPaths};
use scfs_base::{Bytes, FileId, Memory, NameList};
use std::alloc::Global;
use std::marker::Model;

/// What a stat answered: 0 a file or 1 a directory, its number, the number of its newest version, and that one's length.
#[derive(Clone, Copy, Debug, PartialEq, Eq)]
pub struct KeptStat {
    pub kind: u8,
    pub id: FileId,
    pub newest: u32,
    pub length: u32,
}

/// The answers to stat and to list that an agent keeps, each with the moment of its step, seen as two lists by path, at most
/// 64 of each kind, the most recently used first.
#[derive(Drop)]
pub struct KeptAnswers {
    alloc: Global,
    stats: RecentPaths<KeptStat>,
    lists: RecentPaths<NameList>,
}

impl Model for KeptAnswers {
    ghost use Rattle.scfs_cache.specs.Both.{BothKinds};

    ghost Value = { BothKinds };

    ghost view = { λ it. record { stats = it.stats; lists = it.lists } };
}

/// A copy of the names, in their order.
fn copy_names(alloc: Global, names: &[Bytes]) -> Result<NameList, Memory>
    ensures { IfOk result (λ copied. copied ≡ names.now) }
{
    let mut copied = NameList::new(alloc);
    for name in names {
        copied.push(name.copy(alloc)?)?;
    }
    Ok(copied)
}

impl KeptAnswers {
    /// No answer is kept.
    pub fn new(alloc: Global) -> Result<KeptAnswers, Memory>
        ensures { IfOk result (λ answers. answers ≡ record { stats = []; lists = [] }) }
    {
        Ok(KeptAnswers {
            alloc,
            stats: RecentPaths::new(alloc)?,
            lists: RecentPaths::new(alloc)?,
        })
    }

    /// The answer to a stat of this path, which is a use of it, exactly where one is kept and `now` minus its moment is below
    /// `stale`. None changes nothing.
    pub fn stat(&mut self, path: &[u8], now: u64, stale: u64) -> Option<KeptStat>
        ensures answer { result ≡ option_map (λ (answer : Kept _). answer.value) (fresh self.old.stats path.now now stale) }
        ensures after { self.new ≡ record self.old { stats = after_asking self.old.stats path.now now stale } }
    {
        let value = self.stats.fresh(path, now, stale)?.value;
        self.stats.touch(path);
        Some(value)
    }

    /// The answer to a list of this path, which is a use of it, exactly where one is kept and `now` minus its moment is below
    /// `stale`. None changes nothing, nor does an error.
    pub fn list(&mut self, path: &[u8], now: u64, stale: u64) -> Result<Option<NameList>, Memory>
        ensures answer { IfOk result (λ names.
            names ≡ option_map (λ (answer : Kept _). answer.value) (fresh self.old.lists path.now now stale)) }
        ensures after { OnOk result (self.new ≡ record self.old { lists = after_asking self.old.lists path.now now stale }) }
        ensures err { OnErr result (self.new ≡ self.old) }
    {
        let Some(answer) = self.lists.fresh(path, now, stale) else {
            return Ok(None);
        };
        let names = copy_names(self.alloc, answer.value.as_slice())?;
        self.lists.touch(path);
        Ok(Some(names))
    }

    /// Keeps the answer to a stat of this path that a step gave at this moment, which is a use of it. An error changes nothing.
    pub fn keep_stat(&mut self, path: &[u8], moment: u64, value: KeptStat) -> Result<(), Memory>
        ensures after { OnOk result (self.new ≡ record self.old {
          stats = after_keeping self.old.stats path.now (record { moment = moment; value = value });
        }) }
        ensures err { OnErr result (self.new ≡ self.old) }
    {
        self.stats.keep(path, Kept { moment, value })
    }

    /// Keeps the answer to a list of this path that a step gave at this moment, which is a use of it. An error changes nothing.
    pub fn keep_list(&mut self, path: &[u8], moment: u64, names: &NameList) -> Result<(), Memory>
        ensures after { OnOk result (self.new ≡ record self.old {
          lists = after_keeping self.old.lists path.now (record { moment = moment; value = names.now });
        }) }
        ensures err { OnErr result (self.new ≡ self.old) }
    {
        let value = copy_names(self.alloc, names.as_slice())?;
        self.lists.keep(path, Kept { moment, value })
    }

    /// Keeps no answer any more.
    pub fn clear(&mut self)
        ensures { self.new ≡ record { stats = []; lists = [] } }
    {
        self.stats.clear();
        self.lists.clear();
    }
}
