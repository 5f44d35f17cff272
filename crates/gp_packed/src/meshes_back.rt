//! What the meshes, the buffer views and all else of a packed asset but accessors and images read as, each law the
//! contract of a function that does nothing.
ghost use Rattle.gp_packed.specs.MeshesBack.{PrimitivesReadBack, IndexedMeshesReadBack, MeshesReadBack};
ghost use Rattle.gp_packed.specs.MeshesBack.{PrimitivesStandApart, IndexedPrimitivesAre};
ghost use Rattle.gp_packed.specs.MeshesBack.{MadeReadBack, MadeStridesAreSmall, MadeViewsReadBack, ViewsReadBack};
ghost use Rattle.gp_packed.specs.MeshesBack.{OutputFieldsAreCounted, OutputViewsAreCounted};
ghost use Rattle.gp_packed.specs.MeshesBack.{BuffersReadBack, RootStaysObject, UsedNamesReadBack, RequiredNamesReadBack};
ghost use Rattle.gp_packed.specs.MeshesBack.{SkinsReadBack, AnimationsReadBack, PartsStandForFields, PackedReadsBack};

/// A primitive reads back, with the indices of its group where it has none.
pub fn primitives_read_back()
    ensures { PrimitivesReadBack }
{}

/// So do all meshes, each primitive by its place among all.
pub fn meshes_read_back()
    ensures indexed { IndexedMeshesReadBack }
    ensures packed { MeshesReadBack }
{}

/// The primitives of the new meshes are those of the old ones, each with the indices of its place.
pub fn indexed_primitives_are()
    ensures apart { PrimitivesStandApart }
    ensures indexed { IndexedPrimitivesAre }
{}

/// A view that is made reads back, and has small elements.
pub fn made_read_back()
    ensures read { MadeReadBack }
    ensures small { MadeStridesAreSmall }
{}

/// The views that stay and those that are made read back, before they have places and with them.
pub fn views_read_back()
    ensures made { MadeViewsReadBack }
    ensures placed { ViewsReadBack }
    ensures counted { OutputFieldsAreCounted }
    ensures count { OutputViewsAreCounted }
{}

/// The buffers are those of the views, and the lists of extensions are lists of names.
pub fn roots_read_back()
    ensures buffers { BuffersReadBack }
    ensures object { RootStaysObject }
    ensures used { UsedNamesReadBack }
    ensures required { RequiredNamesReadBack }
{}

/// Skins and animations read as before, by more accessors.
pub fn others_read_back()
    ensures skins { SkinsReadBack }
    ensures animations { AnimationsReadBack }
{}

/// The parts of an asset that may be packed stand for its fields, and no view of it is compressed.
pub fn parts_stand_for_fields()
    ensures { PartsStandForFields }
{}

/// The fields of an asset read back after packing where its accessors and images do.
pub fn packed_reads_back()
    ensures { PackedReadsBack }
{}
