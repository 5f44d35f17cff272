// Of each mesh the accessors that its primitives get for their indices.
ghost use Rattle.std.specs.Prelude.{◌≡◌, ℕ, List, map, IfOk, OnOk};
ghost use Rattle.gp_asset.specs.Asset.{AssetParts};
ghost use Rattle.gp_moves.specs.MadeTrees.{list_at as table_at};
ghost use Rattle.gp_sameness.specs.Moved.{Moved};
ghost use Rattle.gp_sameness.specs.Common.{primitive_place};
ghost use Rattle.gp_packed.specs.MeshesBack.{list_at};
ghost use Rattle.gp_pack.specs.MoveTables.{group_edit_of};
ghost use Rattle.gp_pack.specs.Making.{NamesWhatIs};
ghost use Rattle.gp_pack.specs.MeshRows.{list_of_owner, rows, at_mesh, with_list, all_rows};

use crate::tables::{group_at, value_at};
use gp_asset::Primitive;
use gp_host::NoMemory;
use gp_moves::{GroupEdit, MeshLists, Part, first_values, group_entries};
use std::alloc::Global;

// Of each mesh the indices that its primitives get.
pub(crate) fn mesh_lists(
    alloc: Global,
    primitives: &[Primitive],
    groups: &[GroupEdit],
) -> Result<Vec<MeshLists>, NoMemory>
    ensures { IfOk result (λ v. (moved : List Moved) (a : AssetParts) → primitives.now ≡ a.primitives → groups.now ≡ map group_edit_of moved → NamesWhatIs a moved
        → (mesh at : ℕ) → table_at v.items mesh at ≡ list_at moved (primitive_place a mesh at)) }
{
    let entries = group_entries(alloc, groups, Part::Primitives)?;
    let owners = first_values(alloc, &entries, primitives.len())?;
    let mut row = MeshRow {
        meshes: Vec::new(alloc),
        last: Vec::new(alloc),
    };
    'primitives: for at in 0..primitives.len() {
        let list = list_of(groups, value_at(&owners, at));
        row.append(alloc, &primitives[at], list)?;
    }
    row.finish()
}

// The accessor that the primitives of the group at this place get, where it makes one.
fn list_of(groups: &[GroupEdit], place: Option<u32>) -> Option<u32>
    ensures { result ≡ list_of_owner groups.now place }
{
    match group_at(groups, place) {
        Some(group) => group.list_accessor,
        None => None,
    }
}

// Meshes, and the primitives of the one behind them.
#[derive(Drop)]
struct MeshRow {
    meshes: Vec<MeshLists>,
    last: Vec<Option<u32>>,
}

impl MeshRow {
    // Puts what the next primitive gets behind the others.
    fn append(
        &mut self,
        alloc: Global,
        primitive: &Primitive,
        list: Option<u32>,
    ) -> Result<(), NoMemory>
        ensures { OnOk result (rows self.new ≡ with_list (at_mesh primitive.now.mesh (rows self.old)) list) }
    {
        self.begin(alloc, primitive.mesh as usize)?;
        self.last.push(list)?;
        Ok(())
    }

    // Goes on to the mesh with this number.
    fn begin(&mut self, alloc: Global, mesh: usize) -> Result<(), NoMemory>
        ensures { OnOk result (rows self.new ≡ at_mesh mesh (rows self.old)) }
    {
        let done = self.meshes.len();
        'meshes: for at in done..mesh {
            let last = std::mem::replace(&mut self.last, Vec::new(alloc));
            self.meshes.push(MeshLists::from_vec(last))?;
        }
        Ok(())
    }

    // All of them.
    fn finish(self) -> Result<Vec<MeshLists>, NoMemory>
        ensures { IfOk result (λ v. v.items ≡ all_rows (rows self)) }
    {
        let MeshRow { mut meshes, last } = self;
        meshes.push(MeshLists::from_vec(last))?;
        Ok(meshes)
    }
}
