//! The journal file, which is read and then written at its end.

ghost use Rattle.std.specs.Prelude.{None, ◌≡◌, length};
ghost use Rattle.std.specs.Io.{ReadsAtMost, WritesAtMost};

use scfs_base::{Failed, Sink, Source};
use std::fs::{OpenFile, OpenOptions};
use std::io;
use std::io::{Read, Write};
use std::rt::Files;

/// The journal file as a source, which tells nothing of its bytes. It is opened at the first read; a missing file reads as
/// empty.
#[derive(Drop)]
pub struct JournalIn<'a, R: Files> {
    files: &'a R,
    path: &'a str,
    file: Option<R::File>,
    faults: u64,
    ends: u64,
}

/// Opens a file to be read; none where it is missing.
fn open_old<R: Files>(files: &R, path: &str) -> io::Result<Option<R::File>> {
    match OpenOptions::new().read(true).open(files, path) {
        Ok(file) => Ok(Some(file)),
        Err(error) if error.kind() == io::ErrorKind::NotFound => Ok(None),
        Err(error) => Err(error),
    }
}

impl<'a, R: Files> JournalIn<'a, R> {
    /// The file of that path.
    pub fn new(files: &'a R, path: &'a str) -> JournalIn<'a, R>
        ensures counts { (result.faults ≡ 0) × (result.ends ≡ 0) }
    {
        JournalIn {
            files,
            path,
            file: None,
            faults: 0,
            ends: 0,
        }
    }

    /// Reads; 0 where the file is missing.
    fn try_read(&mut self, buf: &mut [u8]) -> io::Result<usize>
        ensures bound { ReadsAtMost result buf.new }
        ensures room { length buf.new ≡ length buf.old }
        ensures faults { self.new.faults ≡ self.old.faults }
        ensures ends { self.new.ends ≡ self.old.ends }
    {
        if self.file.is_none() {
            self.file = open_old(self.files, self.path)?;
        }
        match &mut self.file {
            Some(file) => file.read(buf),
            None => Ok(0),
        }
    }
}

impl<'a, R: Files> Source for JournalIn<'a, R> {
    ghost left = { λ _. None };

    ghost faults = { λ source. source.faults };

    ghost ends = { λ source. source.ends };

    fn read(&mut self, buf: &mut [u8]) -> Result<usize, Failed> {
        match self.try_read(buf) {
            Ok(count) => {
                if count == 0 && !buf.is_empty() {
                    self.ends = self.ends.saturating_add(1);
                }
                Ok(count)
            }
            Err(_) => {
                self.faults = self.faults.saturating_add(1);
                Err(Failed)
            }
        }
    }
}

/// Writes to a file; what was written is on the disk then.
fn write_down<F: OpenFile + Write>(file: &mut F, piece: &[u8]) -> io::Result<usize>
    ensures bound { WritesAtMost result piece.now }
{
    let count = file.write(piece)?;
    file.sync_all()?;
    Ok(count)
}

/// The journal file as a sink, which tells nothing of its bytes. It is opened, and made where it is missing, at the first
/// write, and each write goes to its end.
#[derive(Drop)]
pub struct JournalOut<'a, R: Files> {
    files: &'a R,
    path: &'a str,
    file: Option<R::File>,
    faults: u64,
}

impl<'a, R: Files> JournalOut<'a, R> {
    /// The file of that path.
    pub fn new(files: &'a R, path: &'a str) -> JournalOut<'a, R>
        ensures count { result.faults ≡ 0 }
    {
        JournalOut {
            files,
            path,
            file: None,
            faults: 0,
        }
    }

    /// Writes at the end of the file, down to the disk.
    fn try_write(&mut self, piece: &[u8]) -> io::Result<usize>
        ensures bound { WritesAtMost result piece.now }
        ensures faults { self.new.faults ≡ self.old.faults }
    {
        if self.file.is_none() {
            let file = OpenOptions::new()
                .append(true)
                .create(true)
                .open(self.files, self.path)?;
            self.file = Some(file);
        }
        match &mut self.file {
            Some(file) => write_down(file, piece),
            None => Ok(0),
        }
    }
}

impl<'a, R: Files> Sink for JournalOut<'a, R> {
    ghost written = { λ _. None };

    ghost faults = { λ sink. sink.faults };

    fn write(&mut self, piece: &[u8]) -> Result<usize, Failed> {
        match self.try_write(piece) {
            Ok(count) if count > 0 || piece.is_empty() => Ok(count),
            _ => {
                self.faults = self.faults.saturating_add(1);
                Err(Failed)
            }
        }
    }
}
