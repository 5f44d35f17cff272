// The line of a primitive.
ghost use Rattle.std.specs.Prelude.{◌≡◌, ◌++◌, OnOk, All};
ghost use Rattle.gp_elements.specs.Held.{HasEvery, contents_of, IsSound};
ghost use Rattle.gp_analyse.specs.Text.{title, line};
ghost use Rattle.gp_analyse.specs.Costs.{words_of, IsKnown};

use crate::costing::{Costs, costs_at};
use crate::known::Known;
use crate::writing::{put, put_number};
use gp_asset::{Asset, Primitive, ViewBytes};
use gp_host::NoMemory;
use std::alloc::Global;

/// Appends the line of a primitive.
pub(crate) fn put_line<V: ViewBytes>(
    text: &mut Vec<u8>,
    known: &mut Known,
    alloc: Global,
    asset: &Asset<'_>,
    views: &V,
    primitive: &Primitive,
) -> Result<(), NoMemory>
    requires views { HasEvery asset.now.views (V.views views.now) }
    requires sound { All (IsSound asset.now.views) asset.now.accessors }
    requires known { IsKnown asset.now (contents_of (V.views views.now)) known.old }
    ensures line { OnOk result (text.new.items ≡ text.old.items ++ line asset.now (contents_of (V.views views.now)) primitive.now) }
    ensures known { IsKnown asset.now (contents_of (V.views views.now)) known.new }
{
    put_title(text, primitive)?;
    let costs = costs_at(known, alloc, asset, views, primitive)?;
    put_costs(text, costs)?;
    put(text, b"\n")
}

// Appends the mesh of a primitive, and its place there.
fn put_title(text: &mut Vec<u8>, primitive: &Primitive) -> Result<(), NoMemory>
    ensures { OnOk result (text.new.items ≡ text.old.items ++ title primitive.now) }
{
    put_number(text, b"mesh ", primitive.mesh as u64)?;
    put_number(text, b" primitive ", primitive.at as u64)?;
    put(text, b" ")
}

// Appends the costs of a list of triangles, where there is one.
fn put_costs(text: &mut Vec<u8>, costs: Option<Costs>) -> Result<(), NoMemory>
    ensures { OnOk result (text.new.items ≡ text.old.items ++ words_of costs) }
{
    let Some(costs) = costs else {
        return put(text, b"not a plain list");
    };
    put_number(text, b"vertices ", costs.vertices)?;
    put_number(text, b" triangles ", costs.triangles)?;
    put_number(text, b" misses ", costs.misses)?;
    put_number(text, b" lines ", costs.lines)
}
