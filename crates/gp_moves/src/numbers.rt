// New numbers of buffer views.
ghost use Rattle.std.specs.Prelude.{◌≡◌, ℕ, is_some};
ghost use Rattle.gp_moves.specs.References.{new_number};

use crate::keeping::ItemTest;

/// The new numbers of buffer views, none of one that is dropped.
#[derive(Clone, Copy)]
pub struct ViewNumbers<'a> {
    /// Those of all views of the asset.
    pub numbers: &'a [Option<u32>],
    /// How many views are dropped.
    pub dropped: u32,
}

impl<'a> ViewNumbers<'a> {
    // The new number of a view, also of one past all views.
    pub(crate) fn number(&self, view: u32) -> Option<u32>
        ensures { result ≡ new_number self.now.numbers.now self.now.dropped view }
    {
        match self.numbers.get(view as usize) {
            Some(number) => *number,
            None => Some(view.saturating_sub(self.dropped)),
        }
    }
}

impl<'a> ItemTest for ViewNumbers<'a> {
    ghost use Rattle.std.specs.Prelude.{is_some};
    ghost use Rattle.gp_moves.specs.References.{new_number};

    ghost test = { λ views at. is_some (new_number views.numbers.now views.dropped at) };

    fn passes(&self, at: usize) -> bool {
        match self.numbers.get(at) {
            Some(number) => number.is_some(),
            None => true,
        }
    }
}
