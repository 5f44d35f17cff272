// Why a file is refused.
ghost use Rattle.std.specs.Prelude.{◌≡◌};

use gp_glb::GlbFault;
use gp_groups::StreamFault;
use gp_host::NoMemory;
use gp_json::{JsonFault, JsonRefusal};
use gp_rules::{AssetFault, AssetRefusal};
use thiserror::Error;

/// The first fault of a file, in the order in which faults are looked for, or want of memory.
#[derive(Clone, Copy, Debug, PartialEq, Eq, Error)]
pub enum Refusal {
    /// The container has a fault.
    #[error("no container")]
    Glb(GlbFault),
    /// The JSON has a fault.
    #[error("no JSON")]
    Json(JsonFault),
    /// The asset has a fault.
    #[error("no asset")]
    Asset(AssetFault),
    /// The stream of buffer view `view` has a fault; the views before it have none.
    #[error("no stream")]
    Stream { view: usize, fault: StreamFault },
    /// The output would have 2^32 bytes or more.
    #[error("the output is too large")]
    OutputTooLarge,
    #[error("want of memory")]
    Memory,
}

impl From<GlbFault> for Refusal {
    ghost use Rattle.gp_asset.specs.declared.refusal.Refusal.TheVariants.{Glb};

    ghost from_gives = { λ fault refusal. refusal ≡ Glb fault };

    fn from(fault: GlbFault) -> Self {
        Refusal::Glb(fault)
    }
}

impl From<JsonRefusal> for Refusal {
    ghost use Rattle.gp_asset.specs.Refusals.{json_refusal};

    ghost from_gives = { λ json refusal. refusal ≡ json_refusal json };

    fn from(json: JsonRefusal) -> Self {
        match json {
            JsonRefusal::Fault(fault) => Refusal::Json(fault),
            JsonRefusal::Memory => Refusal::Memory,
        }
    }
}

impl From<AssetRefusal> for Refusal {
    ghost use Rattle.gp_asset.specs.Refusals.{asset_refusal};

    ghost from_gives = { λ asset refusal. refusal ≡ asset_refusal asset };

    fn from(asset: AssetRefusal) -> Self {
        match asset {
            AssetRefusal::Fault(fault) => Refusal::Asset(fault),
            AssetRefusal::Memory => Refusal::Memory,
        }
    }
}

impl From<NoMemory> for Refusal {
    ghost use Rattle.gp_asset.specs.declared.refusal.Refusal.TheVariants.{Memory};

    ghost from_gives = { λ _ refusal. refusal ≡ Memory };

    fn from(_: NoMemory) -> Self {
        Refusal::Memory
    }
}
