// The baselines of a sequence that is written.
ghost use Rattle.std.specs.Prelude.{◌≡◌, ℕ, ◌^◌, ◌<◌, ◌≤◌, List, ◌∷◌, ◌++◌};
ghost use Rattle.gp_groups.specs.Varint.{spelled};
ghost use Rattle.gp_groups.specs.WrittenSequence.{written_indices};

use crate::zigzag::zigzag_difference;

// The baseline in use, its number, and the other baseline.
#[derive(Drop)]
pub struct InUse {
    pub number: u32,
    pub used: u32,
    pub other: u32,
}

impl InUse {
    // The value that tells an index, which becomes the baseline in use.
    pub fn next_value(&mut self, index: u32) -> u32
        requires number { self.old.number ≤ 1 }
        requires used { self.old.used < 2 ^ 30 }
        requires other { self.old.other < 2 ^ 30 }
        requires index { index < 2 ^ 30 }
        ensures value { (list : List ℕ) → written_indices self.old.number self.old.used self.old.other (index ∷ list) ≡ spelled result ++ written_indices self.new.number self.new.used self.new.other list }
        ensures number { self.new.number ≤ 1 }
        ensures used { self.new.used < 2 ^ 30 }
        ensures other { self.new.other < 2 ^ 30 }
    {
        if index.abs_diff(self.used) >= 30 {
            *self = InUse {
                number: 1 - self.number,
                used: self.other,
                other: self.used,
            };
        }
        let value = 2 * zigzag_difference(self.used, index) + self.number;
        self.used = index;
        value
    }
}
