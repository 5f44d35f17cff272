//! The tree of an asset stays sound where groups move, and uses no other extension than the one that packing names, each
//! law the contract of a function that does nothing.
ghost use Rattle.gp_packed.specs.SoundMoved.{MovedAccessorsStaySound, ListAccessorsStaySound, AllIndicesStaySound};
ghost use Rattle.gp_packed.specs.SoundMoved.{NewReferencesStaySound, MadeViewsStaySound};
ghost use Rattle.gp_packed.specs.SoundMoved.{MadeViewsFit, UnstoredTreesAreSound, UnstoredTreesHaveDistinctKeys, PackedTreesAreSound};
ghost use Rattle.gp_packed.specs.SoundMoved.{UnstoredTreesUseNoMore, PackedTreesUseOneMore, PackedTreesAreSupported};

/// The edits of accessors and primitives of groups that move keep a tree sound, and so do those of references.
pub fn group_edits_keep_sound()
    ensures accessors { MovedAccessorsStaySound }
    ensures lists { ListAccessorsStaySound }
    ensures indices { AllIndicesStaySound }
    ensures references { NewReferencesStaySound }
{}

/// So does the edit of views, which leaves out those that are dropped and adds those that are made.
pub fn made_views_keep_sound()
    ensures fit { MadeViewsFit }
    ensures sound { MadeViewsStaySound }
{}

/// The packed tree is sound, also before its views are stored.
pub fn packed_trees_are_sound()
    ensures unstored { UnstoredTreesAreSound }
    ensures distinct { UnstoredTreesHaveDistinctKeys }
    ensures packed { PackedTreesAreSound }
{}

/// The packed tree uses no other extension than the input's and EXT_meshopt_compression, and is supported where that is.
pub fn packed_trees_are_supported()
    ensures unstored { UnstoredTreesUseNoMore }
    ensures packed { PackedTreesUseOneMore }
    ensures supported { PackedTreesAreSupported }
{}
