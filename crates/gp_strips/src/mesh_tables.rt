// Of each mesh the accessors of the lists that its primitives become.
ghost use Rattle.std.specs.Prelude.{◌≡◌, IfOk, OnOk};
ghost use Rattle.gp_moves.specs.MadeTrees.{list_at, list_in};
ghost use Rattle.gp_strips.specs.MeshRows.{rows, no_rows, at_mesh, with_number, all_rows};

use gp_asset::Primitive;
use gp_host::NoMemory;
use std::alloc::Global;
use std::marker::Model;

/// Of each primitive of a mesh the accessor of the list that it becomes, if it becomes one.
#[derive(Drop)]
pub struct MeshNumbers {
    numbers: Vec<Option<u32>>,
}

impl Model for MeshNumbers {
    ghost use Rattle.std.specs.Prelude.{List, Option, ℕ};

    ghost Value = { List (Option ℕ) };

    ghost view = { λ mesh. mesh.numbers.items };
}

impl MeshNumbers {
    /// Those of a mesh. It takes no memory.
    pub fn from_vec(numbers: Vec<Option<u32>>) -> Self
        ensures { result ≡ numbers.items }
    {
        MeshNumbers { numbers }
    }

    fn number(&self, at: usize) -> Option<u32>
        ensures { result ≡ list_in self.now at }
    {
        match self.numbers.get(at) {
            Some(number) => *number,
            None => None,
        }
    }
}

/// The accessor of the list that a primitive of a mesh becomes, if it becomes one.
pub(crate) fn number_at(meshes: &[MeshNumbers], mesh: usize, at: usize) -> Option<u32>
    ensures { result ≡ list_at meshes.now mesh at }
{
    match meshes.get(mesh) {
        Some(found) => found.number(at),
        None => None,
    }
}

/// Meshes, and the primitives of the one behind them.
#[derive(Drop)]
pub(crate) struct MeshRow {
    meshes: Vec<MeshNumbers>,
    last: Vec<Option<u32>>,
}

impl MeshRow {
    /// None yet. It takes no memory.
    pub(crate) fn new(alloc: Global) -> MeshRow
        ensures { rows result ≡ no_rows }
    {
        MeshRow {
            meshes: Vec::new(alloc),
            last: Vec::new(alloc),
        }
    }

    /// Puts the accessor of the next primitive behind the others.
    pub(crate) fn append(
        &mut self,
        alloc: Global,
        primitive: &Primitive,
        number: Option<u32>,
    ) -> Result<(), NoMemory>
        ensures { OnOk result (rows self.new ≡ with_number (at_mesh primitive.now.mesh (rows self.old)) number) }
    {
        self.begin(alloc, primitive.mesh as usize)?;
        self.last.push(number)?;
        Ok(())
    }

    // Goes on to the mesh with this number.
    fn begin(&mut self, alloc: Global, mesh: usize) -> Result<(), NoMemory>
        ensures { OnOk result (rows self.new ≡ at_mesh mesh (rows self.old)) }
    {
        let done = self.meshes.len();
        'meshes: for at in done..mesh {
            let last = std::mem::replace(&mut self.last, Vec::new(alloc));
            self.meshes.push(MeshNumbers::from_vec(last))?;
        }
        Ok(())
    }

    /// All of them.
    pub(crate) fn finish(self) -> Result<Vec<MeshNumbers>, NoMemory>
        ensures { IfOk result (λ v. v.items ≡ all_rows (rows self)) }
    {
        let MeshRow { mut meshes, last } = self;
        meshes.push(MeshNumbers::from_vec(last))?;
        Ok(meshes)
    }
}
