// The views that an asset has itself.
ghost use Rattle.std.specs.Prelude.{◌≡◌};

use gp_asset::{Asset, ViewBytes};

// Those of an asset none of which is compressed: all of them.
#[derive(Drop)]
pub(crate) struct OwnViews<'a, 'b> {
    pub(crate) asset: &'a Asset<'b>,
}

impl<'a, 'b> ViewBytes for OwnViews<'a, 'b> {
    ghost use Rattle.gp_asset.specs.Contents.{plain_views};

    ghost views = { λ v. plain_views v.asset.now };

    fn has(&self, at: usize) -> bool {
        self.asset.has(at)
    }

    fn view(&self, at: usize) -> &[u8] {
        self.asset.view(at)
    }
}
