// The text of the meshlets of an asset.
ghost use Rattle.std.specs.Prelude.{◌≡◌, ◌%◌, ◌++◌, OnOk, IfOk, IfSome, All, flat_map, option_map, length};
ghost use Rattle.gp_elements.specs.Held.{HasEvery, contents_of, IsSound};
ghost use Rattle.gp_analyse.specs.Costs.{IsKnown};
ghost use Rattle.gp_meshlets.specs.Meshlets.{meshlets};
ghost use Rattle.gp_meshlets.specs.Building.{shown};
ghost use Rattle.gp_meshlets.specs.Corners.{corners_of, AreTriangles};
ghost use Rattle.gp_meshlets.specs.Text.{spaced, meshlet_lines, counted, findings, title, lines_of, lines_if_triangles, text};

use crate::building::{count_meshlets, take_run};
use crate::corners::Corners;
use crate::growth::Growing;
use crate::reading::plain_list;
use crate::writing::{put, put_number};
use gp_analyse::Known;
use gp_asset::{Asset, Primitive, ViewBytes};
use gp_host::NoMemory;
use std::alloc::Global;

// The topology of separate triangles.
const TRIANGLES: u32 = 4;

/// The text of an asset that was read and whose views are all held.
#[tactic(auto, unfolding(crate::specs::Text::text))]
pub(crate) fn text<V: ViewBytes>(
    alloc: Global,
    asset: &Asset<'_>,
    views: &V,
) -> Result<Vec<u8>, NoMemory>
    requires views { HasEvery asset.now.views (V.views views.now) }
    requires sound { All (IsSound asset.now.views) asset.now.accessors }
    ensures { IfOk result (λ told. told.items ≡ text asset.now (contents_of (V.views views.now))) }
{
    let mut told = Vec::new(alloc);
    put_lines(&mut told, alloc, asset, views)?;
    Ok(told)
}

// Appends the lines of each primitive of triangles.
fn put_lines<V: ViewBytes>(
    told: &mut Vec<u8>,
    alloc: Global,
    asset: &Asset<'_>,
    views: &V,
) -> Result<(), NoMemory>
    requires views { HasEvery asset.now.views (V.views views.now) }
    requires sound { All (IsSound asset.now.views) asset.now.accessors }
    ensures { OnOk result (told.new.items ≡ told.old.items ++ flat_map (lines_if_triangles asset.now (contents_of (V.views views.now))) asset.now.primitives) }
{
    let mut known = Known::new(alloc, asset.accessors().len())?;
    let primitives = asset.primitives();
    'primitives: for at in 0..primitives.len() {
        put_lines_if_triangles(told, &mut known, alloc, asset, views, &primitives[at])?;
    }
    Ok(())
}

// Appends the lines of a primitive, if it is one of triangles.
fn put_lines_if_triangles<V: ViewBytes>(
    told: &mut Vec<u8>,
    known: &mut Known,
    alloc: Global,
    asset: &Asset<'_>,
    views: &V,
    primitive: &Primitive,
) -> Result<(), NoMemory>
    requires views { HasEvery asset.now.views (V.views views.now) }
    requires sound { All (IsSound asset.now.views) asset.now.accessors }
    requires known { IsKnown asset.now (contents_of (V.views views.now)) known.old }
    ensures lines { OnOk result (told.new.items ≡ told.old.items ++ lines_if_triangles asset.now (contents_of (V.views views.now)) primitive.now) }
    ensures known { IsKnown asset.now (contents_of (V.views views.now)) known.new }
{
    if primitive.mode == TRIANGLES {
        put_lines_of(told, known, alloc, asset, views, primitive)
    } else {
        Ok(())
    }
}

// Appends the lines of a primitive.
fn put_lines_of<V: ViewBytes>(
    told: &mut Vec<u8>,
    known: &mut Known,
    alloc: Global,
    asset: &Asset<'_>,
    views: &V,
    primitive: &Primitive,
) -> Result<(), NoMemory>
    requires views { HasEvery asset.now.views (V.views views.now) }
    requires sound { All (IsSound asset.now.views) asset.now.accessors }
    requires known { IsKnown asset.now (contents_of (V.views views.now)) known.old }
    ensures lines { OnOk result (told.new.items ≡ told.old.items ++ lines_of asset.now (contents_of (V.views views.now)) primitive.now) }
    ensures known { IsKnown asset.now (contents_of (V.views views.now)) known.new }
{
    put_title(told, primitive)?;
    let list = plain_list(known, alloc, asset, views, primitive)?;
    put_findings(told, alloc, &list)?;
    Ok(())
}

// Appends the mesh of a primitive, and its place there.
fn put_title(told: &mut Vec<u8>, primitive: &Primitive) -> Result<(), NoMemory>
    ensures { OnOk result (told.new.items ≡ told.old.items ++ title primitive.now) }
{
    put_number(told, b"mesh ", primitive.mesh as u64)?;
    put_number(told, b" primitive ", primitive.at as u64)?;
    put(told, b" ")
}

// Appends the meshlets of a list of triangles, where there is one.
fn put_findings(
    told: &mut Vec<u8>,
    alloc: Global,
    list: &Option<Corners<'_>>,
) -> Result<(), NoMemory>
    requires { IfSome list.now AreTriangles }
    ensures { OnOk result (told.new.items ≡ told.old.items ++ findings (option_map corners_of list.now)) }
{
    match list {
        Some(corners) => put_meshlets(told, alloc, corners),
        None => put(told, b"not a plain list\n"),
    }
}

// Appends how many meshlets a list has, and their lines.
fn put_meshlets(told: &mut Vec<u8>, alloc: Global, corners: &Corners<'_>) -> Result<(), NoMemory>
    requires { AreTriangles corners.now }
    ensures { OnOk result (told.new.items ≡ told.old.items ++ counted (meshlets (corners_of corners.now))) }
{
    let mut growing = Growing::new(alloc);
    let count = count_meshlets(&mut growing, corners)?;
    put_number(told, b"meshlets ", count)?;
    put(told, b"\n")?;
    put_each(told, &mut growing, corners)
}

// Appends the lines of each meshlet of a list.
fn put_each(
    told: &mut Vec<u8>,
    growing: &mut Growing,
    corners: &Corners<'_>,
) -> Result<(), NoMemory>
    requires { AreTriangles corners.now }
    ensures { OnOk result (told.new.items ≡ told.old.items ++ flat_map meshlet_lines (meshlets (corners_of corners.now))) }
{
    let mut from = 0;
    'runs: while from < corners.triangles() {
        from = take_run(growing, corners, from)?;
        put_meshlet(told, growing)?;
    }
    Ok(())
}

// Appends a line of its vertices, and one of its corners.
fn put_meshlet(told: &mut Vec<u8>, meshlet: &Growing) -> Result<(), NoMemory>
    ensures { OnOk result (told.new.items ≡ told.old.items ++ meshlet_lines (shown meshlet.now)) }
{
    put_numbers(told, b"vertices", &meshlet.vertices)?;
    put_numbers(told, b"\ncorners", &meshlet.corners)?;
    put(told, b"\n")
}

// Appends words, and each number after a space.
fn put_numbers(told: &mut Vec<u8>, words: &[u8], numbers: &[u32]) -> Result<(), NoMemory>
    ensures { OnOk result (told.new.items ≡ told.old.items ++ words.now ++ spaced numbers.now) }
{
    put(told, words)?;
    put_spaced(told, numbers)
}

// Appends each number after a space.
fn put_spaced(told: &mut Vec<u8>, numbers: &[u32]) -> Result<(), NoMemory>
    ensures { OnOk result (told.new.items ≡ told.old.items ++ spaced numbers.now) }
{
    'numbers: for at in 0..numbers.len() {
        put_number(told, b" ", numbers[at] as u64)?;
    }
    Ok(())
}
