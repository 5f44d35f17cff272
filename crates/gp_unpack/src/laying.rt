// Where the contents of views stand in one buffer.
ghost use Rattle.std.specs.Prelude.{◌≡◌, ◌+◌, ◌++◌, ◌∷◌, [], IfOk, OnOk, Some, slice_get};
ghost use Rattle.gp_rules.specs.Sizes.{padded};
ghost use Rattle.gp_unpack.specs.Laid.{ArePlaced, content_length, content_lengths, place};

use gp_asset::{Asset, ViewBytes};
use gp_host::NoMemory;
use gp_rules::View;
use std::alloc::Global;

// The part of a buffer that has the contents of a view.
#[derive(Clone, Copy)]
pub(crate) struct Place {
    pub(crate) start: usize,
    pub(crate) length: usize,
}

// The parts of all views in order, each at the next multiple of 4, and where the last one ends.
#[derive(Drop)]
pub(crate) struct Places {
    pub(crate) parts: Vec<Place>,
    pub(crate) end: usize,
}

// The parts of the views of an asset.
pub(crate) fn place_views(alloc: Global, asset: &Asset<'_>) -> Result<Places, NoMemory>
    ensures { IfOk result (λ places. ArePlaced (content_lengths asset.now) places.parts.items places.end) }
{
    let views = asset.views();
    let mut places = Places {
        parts: Vec::with_capacity(alloc, views.len())?,
        end: 0,
    };
    'views: for at in 0..views.len() {
        places.append(content_length(asset, &views[at], at))?;
    }
    Ok(places)
}

// How many bytes the contents of view `at` have.
fn content_length(asset: &Asset<'_>, view: &View, at: usize) -> usize
    requires { slice_get asset.now.views at ≡ Some view.now }
    ensures { result ≡ content_length asset.now view.now }
{
    match view.packed {
        None => asset.view(at).len(),
        Some(packed) => packed.count as usize * packed.stride as usize,
    }
}

impl Places {
    // Puts a part of this length behind the others. No memory has room for parts whose end no number says.
    fn append(&mut self, length: usize) -> Result<(), NoMemory>
        ensures parts { OnOk result (self.new.parts.items ≡ self.old.parts.items ++ place (padded self.old.end) length ∷ []) }
        ensures end { OnOk result (self.new.end ≡ padded self.old.end + length) }
    {
        let Some(past) = self.end.checked_add(3) else {
            return Err(NoMemory);
        };
        let start = past / 4 * 4;
        let Some(end) = start.checked_add(length) else {
            return Err(NoMemory);
        };
        self.parts.push(Place { start, length })?;
        self.end = end;
        Ok(())
    }
}
