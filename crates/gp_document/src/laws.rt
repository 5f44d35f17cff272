//! Laws of files and of operations on them, each the contract of a function that does nothing.
ghost use Rattle.gp_document.specs.Laws.{HaveOneAnswer, DocumentsAreSound};

/// Under any operation an input has one answer: what is made of it, or one first fault.
pub fn have_one_answer()
    ensures { HaveOneAnswer }
{}

/// Bytes that hold a document have no fault of their container, but, maybe, that their JSON is too large to be read
/// here, and none of their JSON.
pub fn documents_are_sound()
    ensures { DocumentsAreSound }
{}
