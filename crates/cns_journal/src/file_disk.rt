//! A disk whose file the system has.

ghost use Rattle.std.specs.Prelude.{◌≡◌};
ghost use Rattle.cns_journal.specs.Keeper.{HasRisen};

use crate::disk::{Disk, DiskFault, MAX_FILE_LEN};
use std::fs::File;
use std::marker::Model;
use std::os::unix::fs::FileExt;

/// A disk whose file the system has.
///
/// Nothing is said of its bytes and images: no contract can tell what a real device does, and nobody else
/// may write the file. Contracts see how often a call has failed.
#[derive(Drop)]
pub struct FileDisk {
    file: File,
    failures: u64,
}

impl Model for FileDisk {
    ghost use Rattle.std.specs.Prelude.{ℕ};

    ghost Value = { ℕ };

    ghost view = { λ d. d.failures };
}

impl FileDisk {
    /// A disk whose file this is, which was opened for reading and writing.
    pub fn new(file: File) -> FileDisk
        ensures { result ≡ 0 }
    {
        FileDisk { file, failures: 0 }
    }

    // Counts a failure.
    fn fault(&mut self) -> DiskFault
        ensures { HasRisen self.old self.new }
    {
        self.failures = self.failures.saturating_add(1);
        DiskFault
    }
}

impl Disk for FileDisk {
    ghost use Rattle.std.specs.Prelude.{[], false};

    ghost honest = { λ _. false };

    ghost seen = { λ _. [] };

    ghost images = { λ _ _. Unit {0} };

    ghost moment = { λ _. 0 };

    ghost left_since = { λ _ _ _. Unit {0} };

    ghost failures = { λ d. d };

    ghost counts_now = { λ _ _ _ _ _ _. tt };

    ghost only_now = { λ _ _ _ _. tt };

    ghost reads_an_image = { λ _ _. tt };

    fn len(&mut self) -> Result<u64, DiskFault> {
        match self.file.metadata() {
            Ok(metadata) if metadata.len() <= MAX_FILE_LEN => Ok(metadata.len()),
            _ => Err(self.fault()),
        }
    }

    fn read(&mut self, at: u64, into: &mut [u8]) -> Result<(), DiskFault> {
        match self.file.read_exact_at(into, at) {
            Ok(()) => Ok(()),
            Err(_) => Err(self.fault()),
        }
    }

    fn write_at(&mut self, at: u64, bytes: &[u8]) -> Result<(), DiskFault> {
        if at > MAX_FILE_LEN || bytes.len() as u64 > MAX_FILE_LEN - at {
            return Err(self.fault());
        }
        match self.file.write_all_at(bytes, at) {
            Ok(()) => Ok(()),
            Err(_) => Err(self.fault()),
        }
    }

    fn cut(&mut self, len: u64) -> Result<(), DiskFault> {
        match self.file.set_len(len) {
            Ok(()) => Ok(()),
            Err(_) => Err(self.fault()),
        }
    }

    fn sync(&mut self) -> Result<(), DiskFault> {
        match self.file.sync_data() {
            Ok(()) => Ok(()),
            Err(_) => Err(self.fault()),
        }
    }
}
