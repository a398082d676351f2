ghost use Rattle.std.specs.Prelude.{◌≡◌, [], OnOk, OnErr, IfOk};
ghost use Rattle.std.specs.NonZero.{non_zero_usize_get};
ghost use Rattle.scfs_base.specs.declared.naming.UploadNo.{UploadNo};
ghost use Rattle.scfs_cache.specs.Uses.{used};
ghost use Rattle.scfs_cache.specs.Cached.{contents_of, same_upload};
ghost use Rattle.scfs_cache.specs.Uploads.{upload_of, used_again};

use lru::LruCache;
use scfs_base::{Bytes, Memory, UploadNo};
use std::alloc::Global;
use std::marker::Model;
use std::num::NonZeroUsize;

/// The number of an upload, as a key.
#[derive(Clone, Copy, PartialEq, Eq, Hash)]
pub(crate) struct Key {
    agent: u8,
    incarnation: u32,
    count: u32,
}

impl Key {
    fn new(upload: &UploadNo) -> Key
        ensures { upload_of result ≡ upload.now }
    {
        Key {
            agent: upload.agent,
            incarnation: upload.incarnation,
            count: upload.count,
        }
    }
}

/// Contents by their uploads, seen as the list of them, the most recently used first, and how many there may be.
#[derive(Drop)]
pub(crate) struct RecentUploads {
    alloc: Global,
    lru: LruCache<Key, Bytes>,
}

impl Model for RecentUploads {
    ghost use Rattle.std.specs.Prelude.{List, ℕ};
    ghost use Rattle.scfs_base.specs.declared.naming.UploadNo.{UploadNo};
    ghost use Rattle.scfs_cache.specs.Uses.{Recent};
    ghost use Rattle.scfs_cache.specs.Uploads.{shown};

    ghost Value = { Recent UploadNo (List ℕ) };

    ghost view = { λ it. record { most = it.lru.cap; entries = shown it.lru.entries } };
}

impl RecentUploads {
    /// No contents; there may be so many.
    pub(crate) fn new(alloc: Global, most: NonZeroUsize) -> Result<RecentUploads, Memory>
        ensures { IfOk result (λ it. it ≡ record { most = non_zero_usize_get most; entries = [] }) }
    {
        let lru = LruCache::new(alloc, most)?;
        Ok(RecentUploads { alloc, lru })
    }

    /// A copy of the contents of an upload, if they are kept. It is no use of it.
    pub(crate) fn copy_of(&self, upload: &UploadNo) -> Result<Option<Bytes>, Memory>
        ensures { IfOk result (λ contents. contents ≡ contents_of self.now.entries upload.now) }
    {
        match self.lru.peek(&Key::new(upload)) {
            Some(contents) => Ok(Some(contents.copy(self.alloc)?)),
            None => Ok(None),
        }
    }

    /// Contents that are kept of an upload are used.
    pub(crate) fn touch(&mut self, upload: &UploadNo)
        ensures { self.new ≡ record self.old { entries = used_again self.old.most upload.now self.old.entries } }
    {
        let _held = self.lru.len();
        self.lru.promote(&Key::new(upload));
    }

    /// Keeps the contents of an upload, in place of those that were kept of it.
    pub(crate) fn keep(&mut self, upload: &UploadNo, contents: &[u8]) -> Result<(), Memory>
        ensures after { OnOk result (self.new ≡ record self.old {
          entries = used same_upload self.old.most upload.now contents.now self.old.entries;
        }) }
        ensures err { OnErr result (self.new ≡ self.old) }
    {
        let _held = self.lru.len();
        let copied = Bytes::from_slice(self.alloc, contents)?;
        self.lru.put(Key::new(upload), copied)?;
        Ok(())
    }

    /// Keeps nothing.
    pub(crate) fn clear(&mut self)
        ensures { self.new ≡ record self.old { entries = [] } }
    {
        self.lru.clear();
    }
}
