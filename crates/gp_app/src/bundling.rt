// A file of the folder, bundled with the files of its buffers and packed.
ghost use Rattle.std.specs.Prelude.{◌≡◌, ◌≢◌, ◌≤◌, Err, IsErrOf};
ghost use Rattle.gp_host.specs.Causes.{Rose};
ghost use Rattle.gp_app.specs.BundleAnswer.{Packs, PacksBundle, MustPack};

use gp_asset::Refusal;
use gp_document::Output;
use gp_folder::Folder;
use gp_pack::pack;
use gp_pair::{BundleRefusal, bundle};
use std::alloc::Global;

/// A bundle that was packed, and how many bytes were taken for it.
#[derive(Drop)]
pub(crate) struct PackedBundle {
    pub(crate) out: Output,
    pub(crate) taken: u64,
}

/// Takes a file of the folder with the files of its buffers, and packs what they are joined to.
pub(crate) fn packed_bundle<F: Folder>(
    alloc: Global,
    folder: &mut F,
    name: &str,
) -> Result<PackedBundle, BundleRefusal>
    ensures answers { PacksBundle (F.state folder.old).files name.now result }
    ensures complete { MustPack (F.state folder.old).files name.now result }
    ensures files { (F.state folder.new).files ≡ (F.state folder.old).files }
    ensures later { (F.state folder.old).faults ≤ (F.state folder.new).faults }
    ensures failed { IsErrOf result BundleRefusal.Failed → Rose (F.state folder.old).faults (F.state folder.new).faults }
    ensures kept { result ≢ Err BundleRefusal.Failed → (F.state folder.new).faults ≡ (F.state folder.old).faults }
{
    let bundled = bundle(alloc, folder, name)?;
    let out = pack_bytes(alloc, bundled.glb.as_slice())?;
    Ok(PackedBundle {
        out,
        taken: bundled.taken,
    })
}

/// Packs a bundle.
fn pack_bytes(alloc: Global, bytes: &[u8]) -> Result<Output, BundleRefusal>
    ensures { Packs bytes.now result }
{
    match pack(alloc, bytes) {
        Ok(out) => Ok(out),
        Err(Refusal::Memory) => Err(BundleRefusal::Memory),
        Err(refusal) => Err(BundleRefusal::Bad(refusal)),
    }
}
