// What no clause says: that the definitions are RFC 8259's, by its own forms, and that the calls
// succeed where memory is ample.
mod calls;
mod edits;
mod faults;
mod lending;
mod texts;
