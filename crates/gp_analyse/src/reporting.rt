// The text of an analysis.
ghost use Rattle.std.specs.Prelude.{◌≡◌, ◌++◌, OnOk, IfOk, All, flat_map, count_by};
ghost use Rattle.gp_elements.specs.Held.{HasEvery, contents_of, IsSound};
ghost use Rattle.gp_unpack.specs.Unpacked.{former_streams};
ghost use Rattle.gp_alias.specs.declared.group.Group.{Group as AnyGroup};
ghost use Rattle.gp_alias.specs.Movable.{groups};
ghost use Rattle.gp_analyse.specs.Text.{line_if_triangles, totals, report};
ghost use Rattle.gp_analyse.specs.Costs.{IsKnown};

use crate::known::Known;
use crate::measuring::put_line;
use crate::writing::{put, put_number};
use gp_alias::{Group, groups};
use gp_asset::{Asset, Primitive, ViewBytes};
use gp_host::NoMemory;
use std::alloc::Global;

// The topology of separate triangles.
const TRIANGLES: u32 = 4;

/// The text of an asset that was read and whose views are all held.
#[tactic(auto, unfolding(crate::specs::Text::report))]
pub(crate) fn report<V: ViewBytes>(
    alloc: Global,
    asset: &Asset<'_>,
    views: &V,
) -> Result<Vec<u8>, NoMemory>
    requires views { HasEvery asset.now.views (V.views views.now) }
    requires sound { All (IsSound asset.now.views) asset.now.accessors }
    ensures { IfOk result (λ text. text.items ≡ report asset.now (contents_of (V.views views.now))) }
{
    let mut text = Vec::new(alloc);
    put_lines(&mut text, alloc, asset, views)?;
    let groups = groups(alloc, asset, views)?;
    put_totals(&mut text, groups.as_slice(), asset)?;
    Ok(text)
}

// Appends a line for each primitive of triangles.
fn put_lines<V: ViewBytes>(
    text: &mut Vec<u8>,
    alloc: Global,
    asset: &Asset<'_>,
    views: &V,
) -> Result<(), NoMemory>
    requires views { HasEvery asset.now.views (V.views views.now) }
    requires sound { All (IsSound asset.now.views) asset.now.accessors }
    ensures { OnOk result (text.new.items ≡ text.old.items ++ flat_map (line_if_triangles asset.now (contents_of (V.views views.now))) asset.now.primitives) }
{
    let mut known = Known::new(alloc, asset.accessors().len())?;
    let primitives = asset.primitives();
    'primitives: for at in 0..primitives.len() {
        put_line_if_triangles(text, &mut known, alloc, asset, views, &primitives[at])?;
    }
    Ok(())
}

// Appends the line of a primitive, if it is one of triangles.
fn put_line_if_triangles<V: ViewBytes>(
    text: &mut Vec<u8>,
    known: &mut Known,
    alloc: Global,
    asset: &Asset<'_>,
    views: &V,
    primitive: &Primitive,
) -> Result<(), NoMemory>
    requires views { HasEvery asset.now.views (V.views views.now) }
    requires sound { All (IsSound asset.now.views) asset.now.accessors }
    requires known { IsKnown asset.now (contents_of (V.views views.now)) known.old }
    ensures line { OnOk result (text.new.items ≡ text.old.items ++ line_if_triangles asset.now (contents_of (V.views views.now)) primitive.now) }
    ensures known { IsKnown asset.now (contents_of (V.views views.now)) known.new }
{
    if primitive.mode == TRIANGLES {
        put_line(text, known, alloc, asset, views, primitive)
    } else {
        Ok(())
    }
}

// Appends the totals of an asset with these groups.
fn put_totals(text: &mut Vec<u8>, groups: &[Group], asset: &Asset<'_>) -> Result<(), NoMemory>
    ensures { OnOk result (text.new.items ≡ text.old.items ++ totals groups.now asset.now) }
{
    put_number(text, b"groups ", groups.len() as u64)?;
    put_number(text, b" movable ", count_movable(groups) as u64)?;
    put_number(text, b" views ", asset.views().len() as u64)?;
    put_number(text, b" packed ", count_streams(asset) as u64)?;
    put(text, b"\n")
}

// How many of these groups may move.
fn count_movable(groups: &[Group]) -> usize
    ensures { result ≡ count_by (λ (g : AnyGroup). g.movable) groups.now }
{
    groups.iter().filter(|group| group.movable).count()
}

// How many views are stored as streams.
#[tactic(auto, unfolding(gp_unpack::specs::Unpacked::former_streams))]
fn count_streams(asset: &Asset<'_>) -> usize
    ensures { result ≡ former_streams asset.now }
{
    asset
        .views()
        .iter()
        .filter(|view| view.packed.is_some())
        .count()
}
