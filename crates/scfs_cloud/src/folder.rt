ghost use Rattle.std.specs.Prelude.{◌≡◌, ◌≤◌, ◌↔◌, ◌∷◌, ◌++◌, All, IfOk, IsTrue, None, OnOk, string_bytes};
ghost use Rattle.std.specs.IoError.{error_kind};
ghost use Rattle.std.specs.declared.io.ErrorKind.TheVariants as ErrorKind;
ghost use Rattle.scfs_base.specs.declared.cloud.CloudRequest.TheVariants as CloudRequest;
ghost use Rattle.scfs_base.specs.declared.cloud.CloudAnswer.TheVariants as CloudAnswer;
ghost use Rattle.scfs_cloud.specs.declared.cloud.CloudFault.TheVariants as CloudFault;
ghost use Rattle.scfs_cloud.specs.Asking.{IsCounted, IsLogged, IsStored, said, acked, found};
ghost use Rattle.scfs_cloud.specs.Folder.{file_name, is_object_name, IsListed};
ghost use Rattle.scfs_cloud.specs.InMemory.{CountsFault};
ghost use Rattle.scfs_base.specs.InMemory.{one_more};

use crate::file_names::{file_path, is_object_name, object_of};
use crate::{Cloud, CloudFault};
use scfs_base::{Bytes, Memory, NameList};
use std::alloc::Global;
use std::fs::{OpenFile, OpenOptions};
use std::io::{Read, Write};
use std::marker::Model;
use std::rt::Files;
use std::{fs, io};

/// A cloud that is a folder, seen as the folder's name and its count of faults: nothing is told of what it holds. An object is a file of the
/// folder, whose name has `_` in place of `/`; it is written to the file `part` first, and then renamed.
///
/// Names of objects are digits, small letters and `/`, with a `/` among them. So each object has a file of its own, none
/// is `part`, and none lies outside the folder. A call with another name fails, and files with other names are not listed.
#[derive(Drop)]
pub struct DirCloud<'a, R: Files> {
    alloc: Global,
    files: &'a R,
    folder: &'a str,
    faults: u64,
}

impl<'a, R: Files> Model for DirCloud<'a, R> {
    ghost use Rattle.scfs_cloud.specs.Folder.{FolderCloud};

    ghost Value = { FolderCloud };

    ghost view = { λ cloud. record { folder = cloud.folder.now; faults = cloud.faults } };
}

/// The path of an object's file in a folder.
fn path_of(alloc: Global, folder: &str, name: &[u8]) -> io::Result<String>
    ensures named { IfOk result (λ path. IsTrue (is_object_name name.now)) }
    ensures path { IfOk result (λ path. string_bytes path ≡ folder.now ++ 47 ∷ file_name name.now) }
{
    if !is_object_name(name) {
        return Err(io::Error::from(io::ErrorKind::InvalidInput));
    }
    let path = file_path(alloc, folder, name)?;
    match String::from_utf8(path) {
        Ok(path) => Ok(path),
        Err(_) => Err(io::Error::from(io::ErrorKind::InvalidInput)),
    }
}

/// Makes the folder where it is missing.
fn make_folder<R: Files>(files: &R, folder: &str) -> io::Result<()> {
    match fs::create_dir(files, folder) {
        Err(error) if error.kind() != io::ErrorKind::AlreadyExists => Err(error),
        _ => Ok(()),
    }
}

/// Writes a file whole, down to the disk.
fn write_file<R: Files>(files: &R, path: &str, body: &[u8]) -> io::Result<()> {
    let mut file = OpenOptions::new()
        .write(true)
        .create(true)
        .truncate(true)
        .open(files, path)?;
    file.write_all(body)?;
    file.sync_all()
}

/// Writes an object.
fn write_object<R: Files>(
    alloc: Global,
    files: &R,
    folder: &str,
    name: &[u8],
    body: &[u8],
) -> io::Result<()>
    ensures { OnOk result (IsTrue (is_object_name name.now)) }
{
    let path = path_of(alloc, folder, name)?;
    make_folder(files, folder)?;
    let mut part = String::from_str(alloc, folder)?;
    part.push_str("/part")?;
    write_file(files, part.as_str(), body)?;
    fs::rename(files, part.as_str(), path.as_str())
}

/// Removes an object, if it is there.
fn remove_object<R: Files>(alloc: Global, files: &R, folder: &str, name: &[u8]) -> io::Result<()>
    ensures { OnOk result (IsTrue (is_object_name name.now)) }
{
    let path = path_of(alloc, folder, name)?;
    match fs::remove_file(files, path.as_str()) {
        Err(error) if error.kind() != io::ErrorKind::NotFound => Err(error),
        _ => Ok(()),
    }
}

/// The first bytes of an object, if it is there.
fn read_object<R: Files>(
    alloc: Global,
    files: &R,
    folder: &str,
    name: &[u8],
    limit: u32,
) -> io::Result<Option<Bytes>>
    ensures { OnOk result (IsTrue (is_object_name name.now)) }
{
    let path = path_of(alloc, folder, name)?;
    let file = match OpenOptions::new().read(true).open(files, path.as_str()) {
        Ok(file) => file,
        Err(error) if error.kind() == io::ErrorKind::NotFound => return Ok(None),
        Err(error) => return Err(error),
    };
    let mut bytes = Vec::new(alloc);
    let _ = file.take(u64::from(limit)).read_to_end(&mut bytes)?;
    Ok(Some(Bytes::from_vec(bytes)))
}

/// Puts the object that a file is behind the names, if it begins with the prefix.
fn push_object(alloc: Global, file: &str, prefix: &[u8], names: &mut NameList) -> Result<(), Memory>
    ensures { OnOk result (All (IsListed prefix.now) names.old → All (IsListed prefix.now) names.new) }
{
    match object_of(alloc, file)? {
        Some(name) if name.as_slice().starts_with(prefix) => names.push(name),
        _ => Ok(()),
    }
}

/// The names of the objects that begin with a prefix; none where the folder is missing.
fn list_objects<R: Files + AllocGlobal + Clone + Drop>(
    alloc: Global,
    files: &R,
    folder: &str,
    prefix: &[u8],
) -> Result<NameList, CloudFault>
    ensures { IfOk result (λ names. All (IsListed prefix.now) names) }
{
    let mut names = NameList::new(alloc);
    let entries = match fs::read_dir(files, folder) {
        Ok(entries) => entries,
        Err(error) if error.kind() == io::ErrorKind::NotFound => return Ok(names),
        Err(error) => return Err(fault_of(&error)),
    };
    for entry in entries {
        match entry {
            Ok(entry) => push_object(alloc, entry.file_name(), prefix, &mut names)?,
            Err(error) => return Err(fault_of(&error)),
        }
    }
    Ok(names)
}

/// Which fault an error is: want of memory, or a failure.
fn fault_of(error: &io::Error) -> CloudFault
    ensures { (result ≡ CloudFault.Memory) ↔ (error_kind error.now ≡ ErrorKind.OutOfMemory) }
{
    if error.kind() == io::ErrorKind::OutOfMemory {
        CloudFault::Memory
    } else {
        CloudFault::Failed
    }
}

impl<'a, R: Files> DirCloud<'a, R> {
    /// The cloud of that folder, which is made at the first Put; while it is missing it holds no objects.
    pub fn new(alloc: Global, files: &'a R, folder: &'a str) -> DirCloud<'a, R>
        ensures { result ≡ record { folder = folder.now; faults = 0 } }
    {
        DirCloud {
            alloc,
            files,
            folder,
            faults: 0,
        }
    }

    /// Counts a fault that is a failure.
    fn count(&mut self, fault: CloudFault) -> CloudFault
        ensures same { result ≡ fault }
        ensures failed { result ≡ CloudFault.Failed → self.new ≡ record self.old { faults = one_more self.old.faults } }
        ensures wanted { result ≡ CloudFault.Memory → self.new ≡ self.old }
        ensures later { self.old.faults ≤ self.new.faults }
    {
        if fault == CloudFault::Failed {
            self.faults = self.faults.saturating_add(1);
        }
        fault
    }
}

impl<'a, R: Files + AllocGlobal + Clone + Drop> Cloud for DirCloud<'a, R> {
    ghost faults = { λ cloud. cloud.faults };

    ghost log = { λ _. None };

    ghost store = { λ _. None };

    fn put(&mut self, name: &[u8], body: &[u8]) -> Result<(), CloudFault>
        ensures named { OnOk result (IsTrue (is_object_name name.now)) }
        ensures folder { self.new.folder ≡ self.old.folder }
        ensures faults { CountsFault self.old.faults self.new.faults (said acked result) }
        ensures counted { IsCounted self.old.faults self.new.faults (said acked result) }
        ensures logged { IsLogged None None (CloudRequest.Put name.now body.now) (said acked result) }
        ensures stored { IsStored None None (CloudRequest.Put name.now body.now) (said acked result) }
    {
        match write_object(self.alloc, self.files, self.folder, name, body) {
            Ok(()) => Ok(()),
            Err(error) => Err(self.count(fault_of(&error))),
        }
    }

    fn get(&mut self, name: &[u8], limit: u32) -> Result<Option<Bytes>, CloudFault>
        ensures named { OnOk result (IsTrue (is_object_name name.now)) }
        ensures folder { self.new.folder ≡ self.old.folder }
        ensures faults { CountsFault self.old.faults self.new.faults (said found result) }
        ensures counted { IsCounted self.old.faults self.new.faults (said found result) }
        ensures logged { IsLogged None None (CloudRequest.Get name.now limit) (said found result) }
        ensures stored { IsStored None None (CloudRequest.Get name.now limit) (said found result) }
    {
        match read_object(self.alloc, self.files, self.folder, name, limit) {
            Ok(found) => Ok(found),
            Err(error) => Err(self.count(fault_of(&error))),
        }
    }

    fn delete(&mut self, name: &[u8]) -> Result<(), CloudFault>
        ensures named { OnOk result (IsTrue (is_object_name name.now)) }
        ensures folder { self.new.folder ≡ self.old.folder }
        ensures faults { CountsFault self.old.faults self.new.faults (said acked result) }
        ensures counted { IsCounted self.old.faults self.new.faults (said acked result) }
        ensures logged { IsLogged None None (CloudRequest.Delete name.now) (said acked result) }
        ensures stored { IsStored None None (CloudRequest.Delete name.now) (said acked result) }
    {
        match remove_object(self.alloc, self.files, self.folder, name) {
            Ok(()) => Ok(()),
            Err(error) => Err(self.count(fault_of(&error))),
        }
    }

    fn list(&mut self, prefix: &[u8]) -> Result<NameList, CloudFault>
        ensures named { IfOk result (λ names. All (IsListed prefix.now) names) }
        ensures folder { self.new.folder ≡ self.old.folder }
        ensures faults { CountsFault self.old.faults self.new.faults (said CloudAnswer.Names result) }
        ensures counted { IsCounted self.old.faults self.new.faults (said CloudAnswer.Names result) }
        ensures logged { IsLogged None None (CloudRequest.List prefix.now) (said CloudAnswer.Names result) }
        ensures stored { IsStored None None (CloudRequest.List prefix.now) (said CloudAnswer.Names result) }
    {
        match list_objects(self.alloc, self.files, self.folder, prefix) {
            Ok(names) => Ok(names),
            Err(fault) => Err(self.count(fault)),
        }
    }
}
