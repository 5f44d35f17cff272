//! When two files are the same asset up to packing (glTF 2.0): a definition, which the law of packing and a checker of two
//! files both speak of.
//!
//! Which groups of triangle primitives may move is read of the first file. `specs/Same.antt` has the clauses: container and
//! faults, trees, contents of views, elements of accessors, triangles, and vertices. `specs/Common.antt` says what two trees
//! have in common, `specs/Survivors.antt` and `specs/References.antt` which views stay and by which numbers they are referred
//! to, `specs/Drawn.antt` what primitives draw, and `specs/AnySize.antt` what an asset is that may ask for too much.
//!
//! - `laws`: what the definitions promise.
#![tactic(auto)]

pub mod laws;
