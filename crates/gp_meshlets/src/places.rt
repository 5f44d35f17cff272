// Where vertices stand, by a few of their bits.
ghost use Rattle.std.specs.Prelude.{◌≡◌, ◌+◌, ◌≤◌, ◌++◌, ◌∷◌, [], ℕ, List, length, nat_eq, false};
ghost use Rattle.std.specs.List.{position_or_len};
ghost use Rattle.gp_meshlets.specs.Places.{has, Finds};

// A vertex has the entry of its lowest bits.
const ENTRIES: usize = 512;

// What an entry holds that no vertex has.
const NONE: u8 = 255;

/// Of each entry the place of the vertex that was added last of those that have it.
#[derive(Drop)]
pub struct Places {
    table: [u8; 512],
}

impl Places {
    /// No vertex was added.
    pub fn new() -> Self
        ensures { Finds result [] }
    {
        Places { table: [NONE; 512] }
    }

    /// Forgets all vertices.
    pub fn clear(&mut self)
        ensures { Finds self.new [] }
    {
        self.table = [NONE; 512];
    }

    /// Notes a vertex that is added behind these.
    pub fn note(&mut self, vertex: u32, place: usize)
        requires { place ≤ 66 }
        ensures { (vertices : List ℕ) → length vertices ≡ place → has vertices vertex ≡ false → Finds self.old vertices → Finds self.new (vertices ++ vertex ∷ []) }
    {
        self.table[vertex as usize % ENTRIES] = place as u8;
    }

    /// The first place of the vertex among these, or how many there are.
    pub fn find(&self, vertices: &[u32], vertex: u32) -> usize
        requires { Finds self.now vertices.now }
        ensures place { result ≡ position_or_len (nat_eq vertex) vertices.now }
        ensures few { result ≤ length vertices.now }
    {
        let place = self.table[vertex as usize % ENTRIES];
        if place == NONE {
            return vertices.len();
        }
        if vertices[place as usize] == vertex {
            return place as usize;
        }
        look_for(vertices, vertex)
    }
}

// The first place of the vertex, looked for at each.
fn look_for(vertices: &[u32], vertex: u32) -> usize
    ensures place { result ≡ position_or_len (nat_eq vertex) vertices.now }
    ensures few { result ≤ length vertices.now }
{
    'places: for at in 0..vertices.len() {
        if vertex == vertices[at] {
            return at;
        }
    }
    vertices.len()
}
