//! Laws of words and of the commands together, each the contract of a function that does nothing.
ghost use Rattle.gp_app.specs.RoundTrip.{LimitsAreOnlyFaults, UnpackingGivesBack};
ghost use Rattle.gp_app.specs.Words.{CommandsAreAsked};
ghost use Rattle.gp_app.specs.WideWords.{WideCommandsAreAsked};

/// Words have a command exactly where they are its name, and for a sample the decimal digits of its size.
pub fn commands_are_asked()
    ensures { CommandsAreAsked }
{}

/// The same where there is a folder: the name of a file goes with `bundle`, and a stem too with `pair`.
pub fn wide_commands_are_asked()
    ensures { WideCommandsAreAsked }
{}

/// What packing made has no fault for unpacking but a limit of size, and what unpacking makes of it is the same asset as the input.
pub fn unpacking_gives_back()
    ensures limits { LimitsAreOnlyFaults }
    ensures same { UnpackingGivesBack }
{}
