// Why a file isn't bundled.
ghost use Rattle.std.specs.Prelude.{◌≡◌};
ghost use Rattle.gp_pair.specs.Answers.{refusal_of_take, refusal_of_text};

use gp_asset::Refusal;
use gp_folder::TakeRefusal;
use thiserror::Error;

/// Why a file isn't bundled with its buffers.
#[derive(Clone, Copy, Debug, PartialEq, Eq, Error)]
pub enum BundleRefusal {
    /// The folder failed. It has counted the fault.
    #[error("the folder failed")]
    Failed,
    /// The folder has no file of this buffer, or, where no buffer is told, not the file itself.
    #[error("missing")]
    Missing { buffer: Option<u32> },
    /// The file and those of its buffers have more than 2^29 bytes in all.
    #[error("too large")]
    TooLarge,
    /// The file is no GLB or glTF text, or the JSON with all buffers in it has more than 2^26 bytes.
    #[error("no container")]
    Bad(Refusal),
    /// Want of memory.
    #[error("want of memory")]
    Memory,
}

/// Why a file wasn't taken: that of this buffer, or the one that has the buffers.
pub(crate) fn refusal_of_take(buffer: Option<u32>, refusal: TakeRefusal) -> BundleRefusal
    ensures { result ≡ refusal_of_take buffer refusal }
{
    match refusal {
        TakeRefusal::Failed => BundleRefusal::Failed,
        TakeRefusal::Missing => BundleRefusal::Missing { buffer },
        TakeRefusal::TooLarge => BundleRefusal::TooLarge,
        TakeRefusal::Memory => BundleRefusal::Memory,
    }
}

/// Why a file holds no document.
pub(crate) fn refusal_of_text(refusal: Refusal) -> BundleRefusal
    ensures { result ≡ refusal_of_text refusal }
{
    match refusal {
        Refusal::Memory => BundleRefusal::Memory,
        _ => BundleRefusal::Bad(refusal),
    }
}
