ghost use Rattle.std.specs.Prelude.{◌≡◌, [], IfOk, OnOk, OnErr};
ghost use Rattle.scfs_cache.specs.Cached.{found, after_find, used_in_both};

use crate::uploads::RecentUploads;
use scfs_base::{Bytes, Memory, UploadNo};
use std::alloc::Global;
use std::marker::Model;
use std::num::NonZeroUsize;

/// Contents that were found of an upload, on disk or in memory.
#[derive(Debug, Drop)]
pub struct Hit {
    pub from_disk: bool,
    pub contents: Bytes,
}

/// The contents that an agent keeps by their uploads, seen as two lists, the most recently used first: up to 16 in memory,
/// and up to 64 on disk.
#[derive(Drop)]
pub struct AgentCache {
    memory: RecentUploads,
    disk: RecentUploads,
}

impl Model for AgentCache {
    ghost use Rattle.std.specs.Prelude.{◌≡◌};
    ghost use Rattle.scfs_cache.specs.Cached.{Cached, memory_limit, disk_limit};

    ghost Value = { Cached };

    ghost view = { λ cache. record { memory = cache.memory.entries; disk = cache.disk.entries } };

    ghost invariant = { λ cache. (cache.memory.most ≡ memory_limit) × (cache.disk.most ≡ disk_limit) };
}

impl AgentCache {
    /// Nothing is kept.
    pub fn new(alloc: Global) -> Result<AgentCache, Memory>
        ensures { IfOk result (λ cache. cache ≡ record { memory = []; disk = [] }) }
    {
        Ok(AgentCache {
            memory: RecentUploads::new(alloc, NonZeroUsize::new(16).unwrap())?,
            disk: RecentUploads::new(alloc, NonZeroUsize::new(64).unwrap())?,
        })
    }

    /// The contents of an upload, from memory or else from disk, or none exactly where neither has it. What is found in
    /// memory is used there alone, and what is found on disk is used in both lists.
    pub fn find(&mut self, upload: &UploadNo) -> Result<Option<Hit>, Memory>
        ensures answer { IfOk result (λ hit. hit ≡ found self.old upload.now) }
        ensures after { OnOk result (self.new ≡ after_find self.old upload.now) }
        ensures err { OnErr result (self.new ≡ self.old) }
    {
        if let Some(contents) = self.memory.copy_of(upload)? {
            self.memory.touch(upload);
            return Ok(Some(Hit {
                from_disk: false,
                contents,
            }));
        }
        let Some(contents) = self.disk.copy_of(upload)? else {
            return Ok(None);
        };
        self.memory.keep(upload, contents.as_slice())?;
        self.disk.touch(upload);
        Ok(Some(Hit {
            from_disk: true,
            contents,
        }))
    }

    /// Keeps the contents of an upload in memory and on disk, which is a use of both.
    pub fn keep(&mut self, upload: &UploadNo, contents: &[u8]) -> Result<(), Memory>
        ensures after { OnOk result (self.new ≡ used_in_both self.old upload.now contents.now) }
        ensures err { OnErr result (self.new.disk ≡ self.old.disk) }
    {
        self.memory.keep(upload, contents)?;
        self.disk.keep(upload, contents)
    }

    /// A crash of the agent: the memory list is empty, and the disk list stays.
    pub fn crash(&mut self)
        ensures { self.new ≡ record self.old { memory = [] } }
    {
        self.memory.clear();
    }
}
