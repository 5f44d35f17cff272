// A folder in memory, for tests.
ghost use Rattle.std.specs.Prelude.{◌≡◌, ◌≢◌, ◌↔◌, ◌≤◌, ◌<◌, ◌^◌, length, Err, None, IfOk, OnOk, IfSome, IsSomeAnd, IsErrOf, IsTrue, Contains, if◌then◌else◌};
ghost use Rattle.gp_host.specs.Causes.{Rose};
ghost use Rattle.gp_host.specs.Memory.{next_number};
ghost use Rattle.gp_folder.specs.Files.{bytes_of, AreNamed};
ghost use Rattle.gp_folder.specs.Folder.{Gives, Lacks, Exceeds, after_put, PutsSome};
ghost use Rattle.gp_folder.specs.Memory.{MemoryFolderAt, folder_at, after_call, after_failed_call, after_done_put};

use crate::{FileList, Folder, PutRefusal, TakeRefusal};
use gp_host::{Bytes, NoMemory};
use std::alloc::{AllocError, Global};
use std::marker::Model;

/// The number past the last call that `failing` can name. A count of calls stays there.
const LAST_NUMBER: u64 = 1 << 32;

/// A folder of the files of a list. Takes and puts are numbered together, from 0, and those whose numbers stand in
/// `failing` fail.
#[derive(Drop)]
pub struct MemoryFolder {
    files: FileList,
    failing: Vec<u32>,
    number: u64,
    faults: u64,
}

impl Model for MemoryFolder {
    ghost Value = { MemoryFolderAt };

    ghost view = { λ f. record { files = f.files; failing = f.failing.items; number = f.number; faults = f.faults } };

    ghost invariant = { λ f. AreNamed f.files × (f.number ≤ 2 ^ 32) };
}

impl MemoryFolder {
    /// A folder of these files that was never called. It takes no memory.
    pub fn new(_alloc: Global, files: FileList, failing: Vec<u32>) -> MemoryFolder
        requires { AreNamed files }
        ensures { result ≡ record { files = files; failing = failing.items; number = 0; faults = 0 } }
    {
        MemoryFolder {
            files,
            failing,
            number: 0,
            faults: 0,
        }
    }

    /// The files that it holds.
    pub fn files(&self) -> &FileList
        ensures files { result.now ≡ self.now.files }
        ensures named { AreNamed result.now }
    {
        &self.files
    }

    /// Counts a call, and says whether it fails.
    fn call_fails(&mut self) -> bool
        ensures fails { IsTrue result ↔ Contains self.old.failing self.old.number }
        ensures after { self.new ≡ (if result then after_failed_call self.old else after_call self.old) }
        ensures later { self.old.faults ≤ self.new.faults }
        ensures named { AreNamed self.new.files }
    {
        let number = self.number;
        let fails = self.failing.iter().any(|at| u64::from(*at) == number);
        self.number = number_after(number);
        if fails {
            self.faults = self.faults.saturating_add(1);
        }
        fails
    }
}

/// The number of the call after the one of this number.
fn number_after(number: u64) -> u64
    requires { number ≤ 2 ^ 32 }
    ensures { result ≡ next_number number }
{
    if number < LAST_NUMBER {
        number + 1
    } else {
        LAST_NUMBER
    }
}

impl Folder for MemoryFolder {
    ghost state = { folder_at };

    fn take(&mut self, alloc: Global, name: &str, limit: usize) -> Result<Bytes, TakeRefusal>
        ensures given { IfOk result (λ bytes. Gives (folder_at self.old).files name.now bytes) }
        ensures fits { IfOk result (λ bytes. length bytes ≤ limit) }
        ensures missing { IsErrOf result TakeRefusal.Missing → Lacks (folder_at self.old).files name.now }
        ensures too_large { IsErrOf result TakeRefusal.TooLarge → Exceeds (folder_at self.old).files name.now limit }
        ensures files { (folder_at self.new).files ≡ (folder_at self.old).files }
        ensures later { (folder_at self.old).faults ≤ (folder_at self.new).faults }
        ensures failed { IsErrOf result TakeRefusal.Failed → Rose (folder_at self.old).faults (folder_at self.new).faults }
        ensures kept { result ≢ Err TakeRefusal.Failed → (folder_at self.new).faults ≡ (folder_at self.old).faults }
        ensures named { IfSome (folder_at self.new).files AreNamed }
        ensures fails { IsErrOf result TakeRefusal.Failed ↔ Contains self.old.failing self.old.number }
        ensures lacks { (result ≢ Err TakeRefusal.Failed) → bytes_of name.now self.old.files ≡ None → IsErrOf result TakeRefusal.Missing }
        ensures exceeds { (result ≢ Err TakeRefusal.Failed) → IsSomeAnd (bytes_of name.now self.old.files) (λ bytes. limit < length bytes)
            → IsErrOf result TakeRefusal.TooLarge }
        ensures after { result ≢ Err TakeRefusal.Failed → self.new ≡ after_call self.old }
        ensures after_failure { IsErrOf result TakeRefusal.Failed → self.new ≡ after_failed_call self.old }
    {
        if self.call_fails() {
            return Err(TakeRefusal::Failed);
        }
        match self.files.get(name) {
            None => Err(TakeRefusal::Missing),
            Some(bytes) if bytes.len() > limit => Err(TakeRefusal::TooLarge),
            Some(bytes) => match Vec::from_slice(alloc, bytes) {
                Ok(copy) => Ok(Bytes::from_vec(copy)),
                Err(AllocError) => Err(TakeRefusal::Memory),
            },
        }
    }

    fn put(&mut self, alloc: Global, name: &str, bytes: &[u8]) -> Result<(), PutRefusal>
        ensures done { OnOk result ((folder_at self.new).files ≡ after_put name.now bytes.now (folder_at self.old).files) }
        ensures some { IsErrOf result PutRefusal.Failed → PutsSome (folder_at self.old).files (folder_at self.new).files name.now bytes.now }
        ensures none { IsErrOf result PutRefusal.Memory → (folder_at self.new).files ≡ (folder_at self.old).files }
        ensures later { (folder_at self.old).faults ≤ (folder_at self.new).faults }
        ensures failed { IsErrOf result PutRefusal.Failed → Rose (folder_at self.old).faults (folder_at self.new).faults }
        ensures kept { result ≢ Err PutRefusal.Failed → (folder_at self.new).faults ≡ (folder_at self.old).faults }
        ensures named { IfSome (folder_at self.new).files AreNamed }
        ensures fails { IsErrOf result PutRefusal.Failed ↔ Contains self.old.failing self.old.number }
        ensures after { OnOk result (self.new ≡ after_done_put name.now bytes.now self.old) }
        ensures after_failure { IsErrOf result PutRefusal.Failed → self.new ≡ after_failed_call self.old }
        ensures after_want { IsErrOf result PutRefusal.Memory → self.new ≡ after_call self.old }
    {
        if self.call_fails() {
            return Err(PutRefusal::Failed);
        }
        match self.files.set(alloc, name, bytes) {
            Ok(()) => Ok(()),
            Err(NoMemory) => Err(PutRefusal::Memory),
        }
    }
}
