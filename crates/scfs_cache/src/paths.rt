ghost use Rattle.std.specs.Prelude.{◌≡◌, [], IfOk, OnOk, OnErr};
ghost use Rattle.std.specs.Option.{option_copied};
ghost use Rattle.scfs_cache.specs.Kept.{fresh, after_keeping};
ghost use Rattle.scfs_cache.specs.Paths.{used_again};

use lru::LruCache;
use scfs_base::Memory;
use std::alloc::Global;
use std::marker::Model;
use std::num::NonZeroUsize;

/// An answer that is kept, with the moment of the step that gave it.
#[derive(Drop)]
pub struct Kept<V> {
    pub moment: u64,
    pub value: V,
}

/// Answers of one kind by their paths, at most 64, seen as the list of them, the most recently used first.
#[derive(Drop)]
pub struct RecentPaths<V> {
    alloc: Global,
    lru: LruCache<Vec<u8>, Kept<V>>,
}

impl<V> Model for RecentPaths<V> {
    ghost use Rattle.std.specs.Prelude.{◌≡◌};
    ghost use Rattle.scfs_cache.specs.Kept.{Answers, answers_code, answers_limit};
    ghost use Rattle.scfs_cache.specs.Paths.{by_path};

    ghost Value = { Answers V };

    ghost coded = { answers_code V.code };

    ghost view = { λ it. by_path it.lru.entries };

    ghost invariant = { λ it. it.lru.cap ≡ answers_limit };
}

impl<V> RecentPaths<V> {
    /// No answer.
    pub(crate) fn new(alloc: Global) -> Result<RecentPaths<V>, Memory>
        ensures { IfOk result (λ it. it ≡ []) }
    {
        let lru = LruCache::new(alloc, NonZeroUsize::new(64).unwrap())?;
        Ok(RecentPaths { alloc, lru })
    }

    /// The answer that is kept for a path, where it is younger than `stale`. It is no use of it.
    pub(crate) fn fresh(&self, path: &[u8], now: u64, stale: u64) -> Option<&Kept<V>>
        ensures { option_copied result ≡ fresh self.now path.now now stale }
    {
        let answer = self.lru.peek(path)?;
        if now.saturating_sub(answer.moment) < stale {
            Some(answer)
        } else {
            None
        }
    }

    /// An answer that is kept for a path is used.
    pub(crate) fn touch(&mut self, path: &[u8])
        ensures { self.new ≡ used_again self.old path.now }
    {
        let _held = self.lru.len();
        self.lru.promote(path);
    }
}

impl<V: Drop> RecentPaths<V> {
    /// Keeps the answer of a path, in place of one that was kept for it.
    pub(crate) fn keep(&mut self, path: &[u8], answer: Kept<V>) -> Result<(), Memory>
        ensures after { OnOk result (self.new ≡ after_keeping self.old path.now answer) }
        ensures err { OnErr result (self.new ≡ self.old) }
    {
        let _held = self.lru.len();
        let path = Vec::from_slice(self.alloc, path)?;
        self.lru.put(path, answer)?;
        Ok(())
    }

    /// Keeps nothing.
    pub(crate) fn clear(&mut self)
        ensures { self.new ≡ [] }
    {
        self.lru.clear();
    }
}
