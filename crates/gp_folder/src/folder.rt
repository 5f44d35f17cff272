// Where files are.
ghost use Rattle.std.specs.Prelude.{◌≡◌, ◌≢◌, ◌≤◌, ◌^◌, length, Err, IfOk, OnOk, IfSome, IsErrOf};
ghost use Rattle.gp_host.specs.Causes.{Rose};
ghost use Rattle.gp_folder.specs.Files.{AreNamed};
ghost use Rattle.gp_folder.specs.Folder.{FolderAt, Gives, Lacks, Exceeds, after_put, PutsSome};

use crate::{PutRefusal, TakeRefusal};
use gp_host::Bytes;
use std::alloc::Global;

/// A folder of files, which are taken and put whole. It counts its faults.
pub trait Folder {
    /// The files and the faults so far.
    ghost state: { Self → FolderAt };

    /// Gives the bytes of the file with this name, where they are at most `limit`. It changes no file.
    fn take(&mut self, alloc: Global, name: &str, limit: usize) -> Result<Bytes, TakeRefusal>
        requires { limit ≤ 2 ^ 29 }
        ensures given { IfOk result (λ bytes. Gives (state self.old).files name.now bytes) }
        ensures fits { IfOk result (λ bytes. length bytes ≤ limit) }
        ensures missing { IsErrOf result TakeRefusal.Missing → Lacks (state self.old).files name.now }
        ensures too_large { IsErrOf result TakeRefusal.TooLarge → Exceeds (state self.old).files name.now limit }
        ensures files { (state self.new).files ≡ (state self.old).files }
        ensures later { (state self.old).faults ≤ (state self.new).faults }
        ensures failed { IsErrOf result TakeRefusal.Failed → Rose (state self.old).faults (state self.new).faults }
        ensures kept { result ≢ Err TakeRefusal.Failed → (state self.new).faults ≡ (state self.old).faults }
        ensures named { IfSome (state self.new).files AreNamed };

    /// Gives this name these bytes: a file with that name keeps its place, and a new one goes last.
    fn put(&mut self, alloc: Global, name: &str, bytes: &[u8]) -> Result<(), PutRefusal>
        ensures done { OnOk result ((state self.new).files ≡ after_put name.now bytes.now (state self.old).files) }
        ensures some { IsErrOf result PutRefusal.Failed → PutsSome (state self.old).files (state self.new).files name.now bytes.now }
        ensures none { IsErrOf result PutRefusal.Memory → (state self.new).files ≡ (state self.old).files }
        ensures later { (state self.old).faults ≤ (state self.new).faults }
        ensures failed { IsErrOf result PutRefusal.Failed → Rose (state self.old).faults (state self.new).faults }
        ensures kept { result ≢ Err PutRefusal.Failed → (state self.new).faults ≡ (state self.old).faults }
        ensures named { IfSome (state self.new).files AreNamed };
}
