// The baselines of a sequence that is read.
ghost use Rattle.std.specs.Prelude.{◌≡◌};
ghost use Rattle.gp_sequence.specs.Turns.{baselines_after, index_after};

use crate::zigzag::unzigzag32;

// The two numbers that differences are added to.
#[derive(Drop)]
pub struct Baselines {
    pub first: u32,
    pub second: u32,
}

impl Baselines {
    // The index that a varint's value tells; it becomes the baseline that the value names.
    pub fn next_index(&mut self, coded: u32) -> u32
        ensures index { result ≡ index_after self.old coded }
        ensures then { self.new ≡ baselines_after self.old coded }
    {
        if coded % 2 == 0 {
            self.first = self.first.wrapping_add(unzigzag32(coded / 2));
            self.first
        } else {
            self.second = self.second.wrapping_add(unzigzag32(coded / 2));
            self.second
        }
    }
}
