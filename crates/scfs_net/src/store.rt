ghost use Rattle.std.specs.Prelude.{◌≡◌, [], length, IfOk, OnErr, OnOk};
ghost use Rattle.scfs_base.specs.Limits.{names_limit};
ghost use Rattle.scfs_net.specs.Queues.{first_bytes, answer_of, objects_after};
ghost use Rattle.scfs_net.specs.Store.{stored, with_object, without_object, names_with, last_of};

use crate::NAMES_LIMIT;
use crate::name::Name;
use scfs_base::{Bytes, CloudAnswer, CloudRequest, Memory, NameList};
use std::alloc::Global;
use std::collections::BTreeMap;
use std::marker::Model;

/// The objects of one cloud, seen as the list of names and bytes in the byte order of the names.
#[derive(Drop)]
pub struct Store {
    objects: BTreeMap<Name, Bytes>,
}

impl Model for Store {
    ghost use Rattle.scfs_net.specs.Store.{Objects};
    ghost use Rattle.std.specs.Ordering.{nat_cmp};
    ghost use Rattle.std.specs.Cmp.Lexicographic.{slice_cmp};
    ghost use Rattle.std.specs.Map.{keys_of};
    ghost use Rattle.std.specs.List.Sorted.{IsStrictlySortedBy};

    ghost Value = { Objects };

    ghost view = { λ store. store.objects.entries };

    ghost invariant = { λ store. IsStrictlySortedBy (slice_cmp nat_cmp) (keys_of store.objects.entries) };
}

impl Store {
    /// A store that holds nothing. It takes no memory.
    pub fn new(alloc: Global) -> Store
        ensures { result ≡ [] }
    {
        Store {
            objects: BTreeMap::new(alloc),
        }
    }

    /// Stores the bytes under the name, in place of what was there.
    pub fn put(&mut self, name: Bytes, body: Bytes) -> Result<(), Memory>
        ensures ok { OnOk result (self.new ≡ with_object self.old name body) }
        ensures err { OnErr result (self.new ≡ self.old) }
    {
        let _ = self.objects.insert(Name::new(name), body)?;
        Ok(())
    }

    /// Removes the name and what is under it.
    pub fn delete(&mut self, name: Bytes)
        ensures { self.new ≡ without_object self.old name }
    {
        let _ = self.objects.remove(&Name::new(name));
    }

    /// Does what an acknowledged request asks; any other answer leaves the store.
    pub fn settle(&mut self, request: CloudRequest, answer: &CloudAnswer) -> Result<(), Memory>
        ensures ok { OnOk result (self.new ≡ objects_after self.old request answer.now) }
        ensures err { OnErr result (self.new ≡ self.old) }
    {
        match (answer, request) {
            (CloudAnswer::Ack, CloudRequest::Put { name, body }) => self.put(name, body),
            (CloudAnswer::Ack, CloudRequest::Delete { name }) => {
                self.delete(name);
                Ok(())
            }
            _ => Ok(()),
        }
    }

    /// The answer to a Get: the first bytes under the name.
    fn find(&self, alloc: Global, name: &Bytes, limit: u32) -> Result<CloudAnswer, Memory>
        ensures { IfOk result (λ answer. answer ≡ first_bytes limit (stored self.now name.now)) }
    {
        let name = Name::new(name.copy(alloc)?);
        match self.objects.get(&name) {
            None => Ok(CloudAnswer::Absent),
            Some(body) => {
                let end = body.len().min(limit as usize);
                let bytes = Bytes::from_slice(alloc, &body.as_slice()[..end])?;
                Ok(CloudAnswer::Bytes(bytes))
            }
        }
    }

    /// How many names begin with the prefix.
    fn count(&self, prefix: &[u8]) -> usize
        ensures { result ≡ length (names_with self.now prefix.now) }
    {
        self.objects
            .keys()
            .filter(|name| name.as_bytes().as_slice().starts_with(prefix))
            .count()
    }

    /// The answer to a List: the names that begin with the prefix, the greatest where there are too many.
    fn list(&self, alloc: Global, prefix: &[u8]) -> Result<NameList, Memory>
        ensures { IfOk result (λ names. names ≡ last_of names_limit (names_with self.now prefix.now)) }
    {
        let mut spare = self.count(prefix).saturating_sub(NAMES_LIMIT);
        let mut names = NameList::new(alloc);
        for name in self.objects.keys() {
            if name.as_bytes().as_slice().starts_with(prefix) {
                if spare == 0 {
                    names.push(name.as_bytes().copy(alloc)?)?;
                } else {
                    spare -= 1;
                }
            }
        }
        Ok(names)
    }

    /// What a cloud with this store answers to a request that it serves.
    pub fn answer(&self, alloc: Global, request: &CloudRequest) -> Result<CloudAnswer, Memory>
        ensures { IfOk result (λ answer. answer ≡ answer_of self.now request.now) }
    {
        match request {
            CloudRequest::Put { name: _, body: _ } | CloudRequest::Delete { name: _ } => {
                Ok(CloudAnswer::Ack)
            }
            CloudRequest::Get { name, limit } => self.find(alloc, name, *limit),
            CloudRequest::List { prefix } => {
                let names = self.list(alloc, prefix.as_slice())?;
                Ok(CloudAnswer::Names(names))
            }
        }
    }
}
