// Which extensions an asset uses (glTF 2.0, section 3.12).
ghost use Rattle.std.specs.Prelude.{◌≡◌, ◌++◌, ◌&&◌, codes, map, option_map, Some, IfOk, OnOk};
ghost use Rattle.gp_tree.specs.Plain.{plain, plain_items, list};
ghost use Rattle.gp_tree.specs.Find.{is_named};
ghost use Rattle.gp_fields.specs.Shapes.{a_text};
ghost use Rattle.gp_rules.specs.Checks.{passed};
ghost use Rattle.gp_asset.specs.Extensions.{texts_in, listed, extensions_in_use, is_among, is_one_of, general_extensions, material_extensions, is_on_closed_list, are_closed, is_plain, supported};

use crate::purpose::Form;
use gp_fields::as_text;
use gp_host::NoMemory;
use gp_rules::AssetFault;
use gp_tree::{Lexeme, Tree, key_is};
use std::alloc::{AllocError, Global};

/// The names of the extensions in use, as they are spelled: the items of both lists of the root, then the keys of each
/// object that is the value of a member named `extensions`, at any place of the JSON.
#[tactic(auto, unfolding(crate::specs::Extensions::extensions_in_use))]
pub(crate) fn extensions_in_use<'a>(
    alloc: Global,
    root: &'a Tree,
) -> Result<Vec<&'a Lexeme>, NoMemory>
    ensures { IfOk result (λ v. map (λ s. s.now) v.items ≡ extensions_in_use (plain root.now)) }
{
    let mut names = Vec::new(alloc);
    push_listed(&mut names, root, "extensionsUsed")?;
    push_listed(&mut names, root, "extensionsRequired")?;
    let mut keys = root.keys_under(alloc, "extensions")?;
    names.append(&mut keys)?;
    Ok(names)
}

// The texts of a member of the root that is a list.
fn push_listed<'a>(
    names: &mut Vec<&'a Lexeme>,
    root: &'a Tree,
    member: &str,
) -> Result<(), AllocError>
    ensures { OnOk result (map (λ s. s.now) names.new.items ≡ map (λ s. s.now) names.old.items ++ listed member.now (plain root.now)) }
{
    match root.find(member) {
        Some(Tree::List(items)) => push_texts(names, items.as_slice()),
        _ => Ok(()),
    }
}

fn push_texts<'a>(names: &mut Vec<&'a Lexeme>, items: &'a [Tree]) -> Result<(), AllocError>
    ensures { OnOk result (map (λ s. s.now) names.new.items ≡ map (λ s. s.now) names.old.items ++ texts_in (Some (list (plain_items items.now)))) }
{
    'items: for at in 0..items.len() {
        if let Some(name) = as_text(&items[at]) {
            names.push(name)?;
        }
    }
    Ok(())
}

// Whether a spelled name is this one.
fn is_named(spelling: &Lexeme, name: &str) -> bool
    ensures { result ≡ is_named name.now spelling.now }
{
    key_is(spelling, name)
}

/// Whether these extensions may be in use: in form Plain not EXT_meshopt_compression, and never
/// KHR_meshopt_compression.
#[tactic(auto, unfolding(crate::specs::Extensions::supported))]
pub(crate) fn check_extensions(form: Form, names: &[&Lexeme]) -> Result<(), AssetFault>
    ensures { supported form (map (λ s. s.now) names.now) ≡ passed (map (λ s. s.now) names.now) result }
{
    if is_packed_again(form, names) {
        return Err(AssetFault::AlreadyPacked);
    }
    if is_among(names, "KHR_meshopt_compression") {
        return Err(AssetFault::Foreign);
    }
    Ok(())
}

// Whether what is to be packed is packed already.
fn is_packed_again(form: Form, names: &[&Lexeme]) -> bool
    ensures { result ≡ (is_plain form && is_among (codes "EXT_meshopt_compression") (map (λ s. s.now) names.now)) }
{
    match form {
        Form::Plain => is_among(names, "EXT_meshopt_compression"),
        Form::Any => false,
    }
}

// Whether one of the names is this one.
fn is_among(names: &[&Lexeme], name: &str) -> bool
    ensures { result ≡ is_among name.now (map (λ s. s.now) names.now) }
{
    'names: for at in 0..names.len() {
        if is_named(names[at], name) {
            return true;
        }
    }
    false
}

/// Whether each of the names is on the closed list.
pub(crate) fn are_closed(names: &[&Lexeme]) -> bool
    ensures { result ≡ are_closed (map (λ s. s.now) names.now) }
{
    'names: for at in 0..names.len() {
        if !is_on_closed_list(names[at]) {
            return false;
        }
    }
    true
}

// Whether this is an extension by which a vertex is no more than what its accessors say.
fn is_on_closed_list(name: &Lexeme) -> bool
    ensures { result ≡ is_on_closed_list name.now }
{
    is_general_extension(name) || is_material_extension(name)
}

fn is_general_extension(name: &Lexeme) -> bool
    ensures { result ≡ is_one_of general_extensions name.now }
{
    is_named(name, "EXT_meshopt_compression")
        || is_named(name, "EXT_texture_webp")
        || is_named(name, "KHR_lights_punctual")
        || is_named(name, "KHR_mesh_quantization")
        || is_named(name, "KHR_texture_basisu")
        || is_named(name, "KHR_texture_transform")
}

fn is_material_extension(name: &Lexeme) -> bool
    ensures { result ≡ is_one_of material_extensions name.now }
{
    is_named(name, "KHR_materials_anisotropy")
        || is_named(name, "KHR_materials_clearcoat")
        || is_named(name, "KHR_materials_dispersion")
        || is_named(name, "KHR_materials_emissive_strength")
        || is_named(name, "KHR_materials_ior")
        || is_named(name, "KHR_materials_iridescence")
        || is_named(name, "KHR_materials_pbrSpecularGlossiness")
        || is_named(name, "KHR_materials_sheen")
        || is_named(name, "KHR_materials_specular")
        || is_named(name, "KHR_materials_transmission")
        || is_named(name, "KHR_materials_unlit")
        || is_named(name, "KHR_materials_variants")
        || is_named(name, "KHR_materials_volume")
}
