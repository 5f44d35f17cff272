// The lists of an asset, with their views and accessors.
ghost use Rattle.std.specs.Prelude.{◌≡◌, ◌+◌, ◌++◌, ℕ, List, [], All, IfOk, OnOk, length, option_map};
ghost use Rattle.gp_elements.specs.Held.{HasEvery, contents_of, IsSound};
ghost use Rattle.gp_layout.specs.Layout.{laid};
ghost use Rattle.gp_layout.specs.Row.{zero_padded};
ghost use Rattle.gp_rules.specs.Sizes.{padded};
ghost use Rattle.gp_strips.specs.Listed.{triangles_of};
ghost use Rattle.gp_strips.specs.ListedDocument.{list_bytes, output_contents};
ghost use Rattle.gp_strips.specs.MeshRows.{AreInOrder};
ghost use Rattle.gp_strips.specs.Making.{parts_of, with_list, with_list_if, next_accessor, row_of, AreMade};

use crate::bytes::push_list;
use crate::editing::ListView;
use crate::listing::triangles_of;
use crate::mesh_tables::{MeshNumbers, MeshRow};
use gp_asset::{Asset, Primitive, ViewBytes};
use gp_host::NoMemory;
use gp_moves::MadeList;
use gp_unpack::Contents;
use std::alloc::Global;

// The component type of numbers of four bytes.
const UNSIGNED_INT: u32 = 5125;

/// The lists of an asset, and the accessors of primitives by mesh.
#[derive(Drop)]
pub(crate) struct MadeLists {
    pub(crate) row: ListRow,
    pub(crate) meshes: Vec<MeshNumbers>,
}

/// Lists in a row behind the contents of the views, and the view and the accessor of each.
#[derive(Drop)]
pub(crate) struct ListRow {
    // Where the row begins in the one buffer.
    start: usize,
    // How many views and accessors there are before those of the lists.
    views_before: usize,
    accessors_before: usize,
    bytes: Vec<u8>,
    pub(crate) views: Vec<ListView>,
    pub(crate) accessors: Vec<MadeList>,
}

/// Makes the lists of an asset that was read and whose views are all held, to stand behind so many bytes.
pub(crate) fn make_lists<V: ViewBytes>(
    alloc: Global,
    asset: &Asset<'_>,
    views: &V,
    before: usize,
) -> Result<MadeLists, NoMemory>
    requires views { HasEvery asset.now.views (V.views views.now) }
    requires sound { All (IsSound asset.now.views) asset.now.accessors }
    requires order { AreInOrder 0 0 asset.now.primitives }
    ensures { IfOk result (AreMade asset.now (contents_of (V.views views.now)) before) }
{
    let mut row = ListRow::new(alloc, asset, before)?;
    let mut meshes = MeshRow::new(alloc);
    let primitives = asset.primitives();
    'primitives: for at in 0..primitives.len() {
        let primitive = &primitives[at];
        let number = list_primitive(alloc, asset, views, primitive, &mut row)?;
        meshes.append(alloc, primitive, number)?;
    }
    let meshes = meshes.finish()?;
    Ok(MadeLists { row, meshes })
}

// Makes the list of a primitive, if it becomes one; the number of the list's accessor.
fn list_primitive<V: ViewBytes>(
    alloc: Global,
    asset: &Asset<'_>,
    views: &V,
    primitive: &Primitive,
    row: &mut ListRow,
) -> Result<Option<u32>, NoMemory>
    requires views { HasEvery asset.now.views (V.views views.now) }
    requires sound { All (IsSound asset.now.views) asset.now.accessors }
    ensures number { IfOk result (λ number. number ≡ option_map (λ corners. next_accessor (parts_of row.old)) (triangles_of asset.now (contents_of (V.views views.now)) primitive.now)) }
    ensures row { OnOk result (parts_of row.new ≡ with_list_if (parts_of row.old) (triangles_of asset.now (contents_of (V.views views.now)) primitive.now)) }
{
    match triangles_of(alloc, asset, views, primitive)? {
        Some(corners) => {
            let number = row.append(corners.as_slice())?;
            Ok(Some(number))
        }
        None => Ok(None),
    }
}

impl ListRow {
    // No list yet, behind so many bytes and what an asset has.
    fn new(alloc: Global, asset: &Asset<'_>, before: usize) -> Result<ListRow, NoMemory>
        ensures { IfOk result (λ row. parts_of row ≡ row_of before (length asset.now.views) (length asset.now.accessors) []) }
    {
        Ok(ListRow {
            start: padded(before)?,
            views_before: asset.views().len(),
            accessors_before: asset.accessors().len(),
            bytes: Vec::new(alloc),
            views: Vec::new(alloc),
            accessors: Vec::new(alloc),
        })
    }

    /// How many lists there are.
    pub(crate) fn len(&self) -> usize
        ensures { result ≡ length self.now.views.items }
    {
        self.views.len()
    }

    // Puts a list behind the others; the number of its accessor.
    fn append(&mut self, corners: &[u32]) -> Result<u32, NoMemory>
        ensures number { IfOk result (λ number. number ≡ next_accessor (parts_of self.old)) }
        ensures row { OnOk result (parts_of self.new ≡ with_list (parts_of self.old) corners.now) }
    {
        let number = number_of(sum(self.accessors_before, self.accessors.len())?)?;
        let view = ListView {
            offset: sum(self.start, self.bytes.len())? as u64,
            length: 4 * corners.len() as u64,
        };
        let accessor = MadeList {
            view: number_of(sum(self.views_before, self.views.len())?)?,
            component: UNSIGNED_INT,
            count: number_of(corners.len())?,
        };
        push_list(&mut self.bytes, corners)?;
        self.views.push(view)?;
        self.accessors.push(accessor)?;
        Ok(number)
    }

    /// The one buffer: the lists behind the contents of the input's views.
    pub(crate) fn behind(&self, contents: Contents) -> Result<Vec<u8>, NoMemory>
        ensures { IfOk result (λ v. (start view accessor : ℕ) (made : List (List ℕ)) → parts_of self.now ≡ row_of start view accessor made → v.items ≡ laid (output_contents contents made)) }
    {
        let buffer = contents.into_buffer();
        if self.views.is_empty() {
            return Ok(buffer);
        }
        join(buffer, self.bytes.as_slice())
    }
}

// Bytes behind others, at the next multiple of 4.
fn join(bytes: Vec<u8>, more: &[u8]) -> Result<Vec<u8>, NoMemory>
    ensures { IfOk result (λ v. v.items ≡ zero_padded bytes.items ++ more.now) }
{
    let mut bytes = bytes;
    pad(&mut bytes)?;
    bytes.extend_from_slice(more)?;
    Ok(bytes)
}

// Puts zeros behind bytes, up to the next multiple of 4.
fn pad(bytes: &mut Vec<u8>) -> Result<(), NoMemory>
    ensures { OnOk result (bytes.new.items ≡ zero_padded bytes.old.items) }
{
    let past = bytes.len() % 4;
    if past > 0 {
        bytes.resize(bytes.len() + (4 - past), 0)?;
    }
    Ok(())
}

// The next multiple of 4. One that no number can say is want of memory.
fn padded(at: usize) -> Result<usize, NoMemory>
    ensures { IfOk result (λ padded_at. padded_at ≡ padded at) }
{
    let past = sum(at, 3)?;
    Ok(past / 4 * 4)
}

/// A sum. One that no number can say is want of memory.
pub(crate) fn sum(at: usize, more: usize) -> Result<usize, NoMemory>
    ensures { IfOk result (λ sum. sum ≡ at + more) }
{
    match at.checked_add(more) {
        Some(sum) => Ok(sum),
        None => Err(NoMemory),
    }
}

/// A place as a number. One of 2^32 or more is want of memory.
pub(crate) fn number_of(at: usize) -> Result<u32, NoMemory>
    ensures { IfOk result (λ number. number ≡ at) }
{
    u32::try_from(at).map_err(|_| NoMemory)
}
