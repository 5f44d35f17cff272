// Reading an asset.
ghost use Rattle.std.specs.Prelude.{Ok, map, option_map};
ghost use Rattle.gp_tree.specs.Plain.{plain};
ghost use Rattle.gp_fields.specs.Record.{asset_fields};
ghost use Rattle.gp_rules.specs.Checks.{Answers};
ghost use Rattle.gp_asset.specs.Extensions.{extensions_in_use, supported};
ghost use Rattle.gp_asset.specs.Asset.{asset, by_rules, in_shape, parts};

use crate::asset::Asset;
use crate::buffers::{BufferBytes, read_buffers};
use crate::extensions::{are_closed, check_extensions, extensions_in_use};
use crate::primitives::read_primitives;
use crate::purpose::Form;
use crate::uses::read_uses;
use gp_fields::{AccessorFields, AssetFields, BufferFields, FieldRefusal, ViewFields, read_fields};
use gp_rules::{Accessor, AssetFault, AssetRefusal, View, is_too_much, read_accessors, read_views};
use gp_tree::{Lexeme, Tree};
use std::alloc::Global;
use std::marker::Model;

/// Reads the asset that a JSON tree and a BIN chunk stand for, or its first fault: fields of another shape first, then
/// the extensions in use, buffers, buffer views, accessors, and last what they ask for together.
pub fn read_asset<'a>(
    alloc: Global,
    tree: &Tree,
    bin: Option<&'a [u8]>,
    form: Form,
) -> Result<Asset<'a>, AssetRefusal>
    ensures { Answers (asset form (plain tree.now) (option_map (λ b. b.now) bin.entry)) (λ a. a) result }
{
    let fields = match fields_of(alloc, tree) {
        Ok(fields) => fields,
        Err(refusal) => return Err(refusal),
    };
    let names = match supported_extensions(alloc, tree, form) {
        Ok(names) => names,
        Err(refusal) => return Err(refusal),
    };
    let ruled = match fields_by_rules(alloc, &fields, bin) {
        Ok(ruled) => ruled,
        Err(refusal) => return Err(refusal),
    };
    gather(alloc, fields, &names, ruled)
}

// The fields, with their fault as one of an asset.
fn fields_of<'t>(alloc: Global, tree: &'t Tree) -> Result<AssetFields<'t>, AssetRefusal>
    ensures { Answers (in_shape (asset_fields (plain tree.now))) (λ a. a) result }
{
    match read_fields(alloc, tree) {
        Ok(fields) => Ok(fields),
        Err(FieldRefusal::Fault(fault)) => Err(AssetRefusal::Fault(AssetFault::Field {
            member: fault.member,
            at: fault.at,
        })),
        Err(FieldRefusal::Memory) => Err(AssetRefusal::Memory),
    }
}

// The extensions in use, where all of them may be.
fn supported_extensions<'t>(
    alloc: Global,
    tree: &'t Tree,
    form: Form,
) -> Result<Vec<&'t Lexeme>, AssetRefusal>
    ensures { Answers (supported form (extensions_in_use (plain tree.now))) (λ v. map (λ s. s.now) v.items) result }
{
    let Ok(names) = extensions_in_use(alloc, tree) else {
        return Err(AssetRefusal::Memory);
    };
    match check_extensions(form, &names) {
        Ok(()) => Ok(names),
        Err(fault) => Err(AssetRefusal::Fault(fault)),
    }
}

// The bytes of the buffers, the views and the accessors, which break no rule.
#[derive(Drop)]
struct Ruled<'a> {
    buffers: Vec<BufferBytes<'a>>,
    views: Vec<View>,
    accessors: Vec<Accessor>,
}

impl<'a> Model for Ruled<'a> {
    ghost use Rattle.std.specs.Prelude.{map};
    ghost use Rattle.gp_asset.specs.Stored.{bytes_in};
    ghost use Rattle.gp_asset.specs.Asset.{RuledParts};

    ghost Value = { RuledParts };

    ghost view = { λ r. record { buffers = map bytes_in r.buffers.items; views = r.views.items; accessors = r.accessors.items } };
}

fn fields_by_rules<'a>(
    alloc: Global,
    fields: &AssetFields<'_>,
    bin: Option<&'a [u8]>,
) -> Result<Ruled<'a>, AssetRefusal>
    ensures { Answers (by_rules fields.now.buffers fields.now.views fields.now.accessors (option_map (λ b. b.now) bin.entry)) (λ a. a) result }
{
    read_by_rules(
        alloc,
        &fields.buffers,
        &fields.views,
        &fields.accessors,
        bin,
    )
}

fn read_by_rules<'a>(
    alloc: Global,
    buffer_fields: &[BufferFields<'_>],
    view_fields: &[ViewFields<'_>],
    accessor_fields: &[AccessorFields<'_>],
    bin: Option<&'a [u8]>,
) -> Result<Ruled<'a>, AssetRefusal>
    ensures { Answers (by_rules buffer_fields.now view_fields.now accessor_fields.now (option_map (λ b. b.now) bin.entry)) (λ a. a) result }
{
    let buffers = match read_buffers(alloc, buffer_fields, view_fields, bin) {
        Ok(buffers) => buffers,
        Err(refusal) => return Err(refusal),
    };
    let views = match read_views(alloc, view_fields, buffer_fields) {
        Ok(views) => views,
        Err(refusal) => return Err(refusal),
    };
    let accessors = match read_accessors(alloc, accessor_fields, &views) {
        Ok(accessors) => accessors,
        Err(refusal) => return Err(refusal),
    };
    if is_too_much(&views, &accessors) {
        return Err(AssetRefusal::Fault(AssetFault::TooMuchData));
    }
    Ok(Ruled {
        buffers,
        views,
        accessors,
    })
}

// The asset, with its primitives and the uses of accessors.
fn gather<'a>(
    alloc: Global,
    fields: AssetFields<'_>,
    names: &[&Lexeme],
    ruled: Ruled<'a>,
) -> Result<Asset<'a>, AssetRefusal>
    ensures { Answers (Ok (parts fields.entry (map (λ s. s.now) names.now) ruled.entry)) (λ a. a) result }
{
    let AssetFields {
        meshes,
        skins,
        animations,
        images,
        ..
    } = fields;
    let Ok(primitives) = read_primitives(alloc, meshes) else {
        return Err(AssetRefusal::Memory);
    };
    let Ok(uses) = read_uses(alloc, &primitives, &skins, &animations) else {
        return Err(AssetRefusal::Memory);
    };
    let Ruled {
        buffers,
        views,
        accessors,
    } = ruled;
    Ok(Asset {
        buffers,
        views,
        accessors,
        primitives,
        uses,
        images,
        closed: are_closed(names),
    })
}
