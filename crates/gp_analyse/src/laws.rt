//! Laws of analyses, each the contract of a function that does nothing.
ghost use Rattle.gp_analyse.specs.Laws.{HaveOneReport};

/// An input has one answer: its text, or one first fault.
pub fn have_one_report()
    ensures { HaveOneReport }
{}
