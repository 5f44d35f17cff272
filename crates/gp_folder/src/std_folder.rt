// A folder over the files of the system.
ghost use Rattle.std.specs.Prelude.{◌≡◌, None};
ghost use Rattle.gp_folder.specs.Std.{std_folder_at};

use crate::{Folder, PutRefusal, TakeRefusal};
use gp_host::{Bytes, Failed, ReadRefusal, StdSink, StdSource, read_all, write_all};
use std::alloc::Global;
use std::fs;
use std::io::ErrorKind;
use std::rt::Files;

/// A folder over the files of the current folder of the system. Each `Err` of std raises its count of faults, which stops
/// at `u64::MAX`; that a file isn't there to be taken is none.
#[derive(Drop)]
pub struct StdFolder<R> {
    rt: R,
    faults: u64,
}

impl<R: Files + Drop> StdFolder<R> {
    /// A folder over the files of this runtime, with no fault so far.
    pub fn new(rt: R) -> Self
        ensures { std_folder_at result ≡ record { files = None; faults = 0 } }
    {
        StdFolder { rt, faults: 0 }
    }
}

impl<R: Files + Drop> Folder for StdFolder<R> {
    ghost state = { std_folder_at };

    fn take(&mut self, alloc: Global, name: &str, limit: usize) -> Result<Bytes, TakeRefusal> {
        let read = match fs::open(&self.rt, name) {
            Ok(file) => read_all(alloc, &mut StdSource::new(file), limit),
            Err(error) if error.kind() == ErrorKind::NotFound => return Err(TakeRefusal::Missing),
            Err(_) => Err(ReadRefusal::Failed),
        };
        match read {
            Ok(bytes) => Ok(Bytes::from_vec(bytes)),
            Err(ReadRefusal::TooLarge) => Err(TakeRefusal::TooLarge),
            Err(ReadRefusal::Memory) => Err(TakeRefusal::Memory),
            Err(ReadRefusal::Failed) => {
                self.faults = self.faults.saturating_add(1);
                Err(TakeRefusal::Failed)
            }
        }
    }

    fn put(&mut self, _alloc: Global, name: &str, bytes: &[u8]) -> Result<(), PutRefusal> {
        let written = match fs::create(&self.rt, name) {
            Ok(file) => write_all(&mut StdSink::new(file), bytes),
            Err(_) => Err(Failed),
        };
        match written {
            Ok(()) => Ok(()),
            Err(Failed) => {
                self.faults = self.faults.saturating_add(1);
                Err(PutRefusal::Failed)
            }
        }
    }
}
