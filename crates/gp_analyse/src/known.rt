// What is known of accessors of indices: each is looked at once, and its lines are counted once for each stride.
ghost use Rattle.std.specs.Prelude.{◌≡◌, ◌<◌, ◌*◌, ◌^◌, None, Some, IfOk, All, replicate, slice_set};
ghost use Rattle.gp_elements.specs.Held.{HasEvery, contents_of, IsSound};
ghost use Rattle.gp_analyse.specs.Costs.{drawn_at, lines_at, entry_at, IsKnown, nothing_known, IsStride};

use crate::drawing::{Drawn, count_lines, draw};
use gp_asset::{Asset, ViewBytes};
use gp_host::NoMemory;
use std::alloc::Global;
use std::marker::Model;

// What drawing each accessor takes, where it was looked at.
#[derive(Drop)]
pub(crate) struct Lists {
    entries: Vec<Option<Option<Drawn>>>,
}

impl Model for Lists {
    ghost use Rattle.std.specs.Prelude.{List, Option};
    ghost use Rattle.gp_analyse.specs.declared.drawing.Drawn.{Drawn};

    ghost Value = { List (Option (Option Drawn)) };

    ghost view = { λ lists. lists.entries.items };
}

impl Lists {
    fn new(alloc: Global, count: usize) -> Result<Lists, NoMemory>
        ensures { IfOk result (λ lists. lists ≡ replicate count None) }
    {
        let entries = vec![in alloc; None; count]?;
        Ok(Lists { entries })
    }

    fn get(&self, at: usize) -> Option<Option<Drawn>>
        ensures { result ≡ entry_at self.now at }
    {
        match self.entries.get(at) {
            Some(entry) => *entry,
            None => None,
        }
    }

    fn put(&mut self, at: usize, drawn: Option<Drawn>)
        ensures { self.new ≡ slice_set self.old at (Some drawn) }
    {
        if at < self.entries.len() {
            self.entries[at] = Some(drawn);
        }
    }
}

// The lines of each accessor at each stride, where they were counted.
#[derive(Drop)]
pub(crate) struct Lines {
    entries: Vec<Option<u64>>,
}

impl Model for Lines {
    ghost use Rattle.std.specs.Prelude.{List, Option, ℕ};

    ghost Value = { List (Option ℕ) };

    ghost view = { λ lines. lines.entries.items };
}

impl Lines {
    fn new(alloc: Global, count: usize) -> Result<Lines, NoMemory>
        ensures { IfOk result (λ lines. lines ≡ replicate count None) }
    {
        let entries = vec![in alloc; None; count]?;
        Ok(Lines { entries })
    }

    fn get(&self, place: usize) -> Option<u64>
        ensures { result ≡ entry_at self.now place }
    {
        match self.entries.get(place) {
            Some(entry) => *entry,
            None => None,
        }
    }

    fn put(&mut self, place: usize, count: u64)
        ensures { self.new ≡ slice_set self.old place (Some count) }
    {
        if place < self.entries.len() {
            self.entries[place] = Some(count);
        }
    }
}

/// What is known of an asset's accessors.
#[derive(Drop)]
pub struct Known {
    pub(crate) lists: Lists,
    pub(crate) lines: Lines,
}

impl Known {
    /// Nothing yet, of so many accessors.
    pub fn new(alloc: Global, accessors: usize) -> Result<Known, NoMemory>
        ensures { IfOk result (λ known. known ≡ nothing_known accessors) }
    {
        let Some(places) = accessors.checked_mul(16) else {
            return Err(NoMemory);
        };
        let lists = Lists::new(alloc, accessors)?;
        let lines = Lines::new(alloc, places)?;
        Ok(Known { lists, lines })
    }

    /// What drawing accessor `at` takes; none where it is no list of whole triangles.
    pub fn drawn<V: ViewBytes>(
        &mut self,
        alloc: Global,
        asset: &Asset<'_>,
        views: &V,
        at: u32,
    ) -> Result<Option<Drawn>, NoMemory>
        requires views { HasEvery asset.now.views (V.views views.now) }
        requires sound { All (IsSound asset.now.views) asset.now.accessors }
        requires known { IsKnown asset.now (contents_of (V.views views.now)) self.old }
        ensures drawn { IfOk result (λ drawn. drawn ≡ drawn_at asset.now (contents_of (V.views views.now)) at) }
        ensures known { IsKnown asset.now (contents_of (V.views views.now)) self.new }
    {
        let place = at as usize;
        if let Some(drawn) = self.lists.get(place) {
            return Ok(drawn);
        }
        let drawn = draw(alloc, asset, views, place)?;
        self.lists.put(place, drawn);
        Ok(drawn)
    }

    /// How often drawing accessor `at` misses a cache of lines, where each vertex has `stride` bytes; 0 where it is no list of
    /// whole triangles.
    pub(crate) fn lines<V: ViewBytes>(
        &mut self,
        alloc: Global,
        asset: &Asset<'_>,
        views: &V,
        at: u32,
        stride: u32,
    ) -> Result<u64, NoMemory>
        requires views { HasEvery asset.now.views (V.views views.now) }
        requires sound { All (IsSound asset.now.views) asset.now.accessors }
        requires known { IsKnown asset.now (contents_of (V.views views.now)) self.old }
        requires stride { IsStride stride }
        ensures lines { IfOk result (λ count. count ≡ lines_at asset.now (contents_of (V.views views.now)) at stride) }
        ensures known { IsKnown asset.now (contents_of (V.views views.now)) self.new }
    {
        let place = at as usize * 16 + (stride / 4 - 1) as usize;
        if let Some(count) = self.lines.get(place) {
            return Ok(count);
        }
        let count = count_lines(alloc, asset, views, at as usize, stride)?;
        self.lines.put(place, count);
        Ok(count)
    }
}
