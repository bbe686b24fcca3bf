//! What is cut off a journal's file, kept in a file beside it.

use cns_file::Scraps;
use cns_journal::DiskFault;
use jiff::Timestamp;
use std::fs::{File, OpenOptions};
use std::io;
use std::io::Write;
use std::path::Path;
use std::rt::Files;

/// The file `NAME.cut` of a folder, to which what is cut off the file NAME is added. It is made when it is first needed.
///
/// Of what a real file holds nothing is claimed.
#[derive(Drop)]
pub(crate) struct CutFile<'a> {
    rt: &'a HostRuntime,
    folder: &'a str,
    name: &'static str,
}

impl<'a> CutFile<'a> {
    pub(crate) fn new(rt: &'a HostRuntime, folder: &'a str, name: &'static str) -> CutFile<'a> {
        CutFile { rt, folder, name }
    }

    // Opens the file, at its end.
    fn open(&self) -> io::Result<File> {
        let path = Path::new(self.folder).join(self.rt.alloc(), self.name)?;
        let mut how = OpenOptions::new();
        how.append(true).create(true);
        how.open(self.rt, path)
    }

    // The line in front of a piece: when it was cut off, from which byte on, and how many bytes it has.
    fn line(&self, from: u64, count: usize) -> io::Result<String> {
        let Ok(now) = Timestamp::now(self.rt) else {
            return Ok(format!(in self.rt.alloc(); "cut byte {from} bytes {count}\n")?);
        };
        let seconds = now.as_second();
        let now = Timestamp::from_second(seconds).unwrap_or(now);
        Ok(format!(in self.rt.alloc(); "cut {now} byte {from} bytes {count}\n")?)
    }

    // Adds a piece behind its line, and waits until both are on the disk, and the file's name too.
    fn add(&self, from: u64, bytes: &[u8]) -> io::Result<()> {
        let line = self.line(from, bytes.len())?;
        let mut file = self.open()?;
        file.write_all(line.as_bytes())?;
        file.write_all(bytes)?;
        file.write_all(b"\n")?;
        file.sync_all()?;
        File::open(self.rt, self.folder)?.sync_all()
    }
}

impl Scraps for CutFile<'_> {
    ghost use Rattle.std.specs.Prelude.{[], false};

    ghost honest = { λ _. false };

    ghost pieces = { λ _. [] };

    fn keep(&mut self, from: u64, bytes: &[u8]) -> Result<(), DiskFault> {
        match self.add(from, bytes) {
            Ok(()) => Ok(()),
            Err(_) => Err(DiskFault),
        }
    }
}
