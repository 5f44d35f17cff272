// A meshlet on its way.
ghost use Rattle.std.specs.Prelude.{◌≡◌, ◌+◌, ◌≤◌, ◌++◌, ◌∷◌, [], ℕ, List, true, length, nat_eq, OnOk, IfOk};
ghost use Rattle.std.specs.List.{position_or_len};
ghost use Rattle.gp_meshlets.specs.Meshlets.{fits};
ghost use Rattle.gp_meshlets.specs.Places.{has, Finds};
ghost use Rattle.gp_meshlets.specs.Building.{with_vertex, count_new, shown, HasRun, IsTaken};

use crate::corners::Triangle;
use crate::meshlet::Meshlet;
use crate::places::Places;
use gp_host::{NoMemory, Numbers};
use std::alloc::Global;

// A meshlet has at most so many vertices.
const MOST_VERTICES: usize = 64;

// And so many corners, three a triangle.
const MOST_CORNERS: usize = 3 * 126;

/// A meshlet that may take more triangles.
#[derive(Drop)]
pub(crate) struct Growing {
    pub(crate) vertices: Vec<u32>,
    pub(crate) places: Places,
    pub(crate) corners: Vec<u32>,
}

impl Growing {
    /// One without triangles.
    pub(crate) fn new(alloc: Global) -> Self
        ensures { HasRun [] result }
    {
        Growing {
            vertices: Vec::new(alloc),
            places: Places::new(),
            corners: Vec::new(alloc),
        }
    }

    /// Gives all triangles up. The memory is kept for others.
    pub(crate) fn clear(&mut self)
        ensures { HasRun [] self.new }
    {
        self.vertices.clear();
        self.places.clear();
        self.corners.clear();
    }

    /// Takes a triangle, if it fits. Whether it did.
    pub(crate) fn take(&mut self, triangle: Triangle) -> Result<bool, NoMemory>
        requires { (run : List ℕ) × (fits run ≡ true) × HasRun run self.old }
        ensures { IfOk result (λ taken. (run : List ℕ) → fits run ≡ true → HasRun run self.old → IsTaken run triangle self.new taken) }
    {
        let Triangle { a, b, c } = triangle;
        if !self.fits_with(a, b, c) {
            return Ok(false);
        }
        self.add(a)?;
        self.add(b)?;
        self.add(c)?;
        Ok(true)
    }

    // Whether it fits with this triangle added. Where there is room for three vertices none is looked for.
    fn fits_with(&self, a: u32, b: u32, c: u32) -> bool
        requires vertices { length self.now.vertices.items ≤ 64 }
        requires finds { Finds self.now.places self.now.vertices.items }
        requires corners { length self.now.corners.items ≤ 378 }
        ensures { (run : List ℕ) → HasRun run self.now → result ≡ fits (run ++ a ∷ b ∷ c ∷ []) }
    {
        if self.corners.len() + 3 > MOST_CORNERS {
            return false;
        }
        if self.vertices.len() + 3 <= MOST_VERTICES {
            return true;
        }
        let new = self.count_new(a, b, c);
        self.vertices.len() + new <= MOST_VERTICES
    }

    // Adds a corner, and its vertex if that isn't there.
    fn add(&mut self, vertex: u32) -> Result<(), NoMemory>
        requires few { length self.old.vertices.items ≤ 66 }
        requires finds { Finds self.old.places self.old.vertices.items }
        ensures finds { OnOk result (Finds self.new.places self.new.vertices.items) }
        ensures few { OnOk result (length self.new.vertices.items ≤ length self.old.vertices.items + 1) }
        ensures more { OnOk result ((run : List ℕ) → HasRun run self.old → HasRun (run ++ vertex ∷ []) self.new) }
    {
        let place = see(&mut self.vertices, &mut self.places, vertex)?;
        self.corners.push(place)?;
        Ok(())
    }

    // How many vertices a triangle adds.
    fn count_new(&self, a: u32, b: u32, c: u32) -> usize
        requires { Finds self.now.places self.now.vertices.items }
        ensures meaning { result ≡ count_new self.now.vertices.items a b c }
        ensures few { result ≤ 3 }
    {
        let first = !self.has(a);
        let second = !(self.has(b) || b == a);
        let third = !(self.has(c) || c == a || c == b);
        first as usize + second as usize + third as usize
    }

    // Whether the vertex is there.
    fn has(&self, vertex: u32) -> bool
        requires { Finds self.now.places self.now.vertices.items }
        ensures { result ≡ has self.now.vertices.items vertex }
    {
        self.places.find(&self.vertices, vertex) < self.vertices.len()
    }

    /// The meshlet as it stands.
    pub(crate) fn to_meshlet(&self, alloc: Global) -> Result<Meshlet, NoMemory>
        ensures { IfOk result (λ meshlet. meshlet ≡ shown self.now) }
    {
        let vertices = Vec::from_slice(alloc, &self.vertices)?;
        let corners = Vec::from_slice(alloc, &self.corners)?;
        Ok(Meshlet {
            vertices: Numbers::from_vec(vertices),
            corners: Numbers::from_vec(corners),
        })
    }
}

// Adds the vertex, if it isn't there. Its place.
fn see(vertices: &mut Vec<u32>, places: &mut Places, vertex: u32) -> Result<u32, NoMemory>
    requires few { length vertices.old.items ≤ 66 }
    requires finds { Finds places.old vertices.old.items }
    ensures finds { OnOk result (Finds places.new vertices.new.items) }
    ensures few { OnOk result (length vertices.new.items ≤ length vertices.old.items + 1) }
    ensures place { IfOk result (λ place. place ≡ position_or_len (nat_eq vertex) vertices.old.items) }
    ensures vertices { OnOk result (vertices.new.items ≡ with_vertex vertices.old.items vertex) }
{
    let place = places.find(vertices, vertex);
    if place < vertices.len() {
        return Ok(place as u32);
    }
    vertices.push(vertex)?;
    places.note(vertex, place);
    Ok(place as u32)
}
