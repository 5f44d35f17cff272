//! New numbers of buffer views are numbers of views of the output, each law the contract of a function that does nothing.
ghost use Rattle.gp_packed.specs.NewNumbers.{SurvivorsAreNumbered, ReferencesAreBelow, ImagesAreBelow};
ghost use Rattle.gp_packed.specs.NewNumbers.{NumbersAreRead, ImageNumbersAreRead};

/// A view that stays has a new number, below the count of all.
pub fn survivors_are_numbered()
    ensures { SurvivorsAreNumbered }
{}

/// Accessors and images that were read refer to views of the asset.
pub fn references_are_below()
    ensures accessors { ReferencesAreBelow }
    ensures images { ImagesAreBelow }
{}

/// The numbers that are written for accessors and images read back.
pub fn numbers_are_read()
    ensures accessors { NumbersAreRead }
    ensures images { ImageNumbersAreRead }
{}
