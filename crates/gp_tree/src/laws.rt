//! What the edits of a value keep: each law is what its function ensures, and the functions do
//! nothing.
ghost use Rattle.gp_tree.specs.Laws.{FindsSet, FindsChanged, FindsNoneRemoved, SetKeepsOthers, ChangeKeepsOthers, RemoveKeepsOthers};
ghost use Rattle.gp_tree.specs.Laws.{FindsAppended, AppendKeepsItems, FindsChangedItem, ChangeKeepsItems, RemoveKeepsEarlier, RemoveMovesLater};
ghost use Rattle.gp_tree.specs.Laws.{ValuesAreSound, ItemsAreSound, SetKeepsSound, ChangeKeepsSound, RemoveKeepsSound, AppendKeepsSound, ChangeItemKeepsSound, RemoveItemKeepsSound};
ghost use Rattle.gp_tree.specs.Laws.{SetKeepsDepth, ChangeKeepsDepth, RemoveKeepsDepth, AppendKeepsDepth, ChangeItemKeepsDepth, RemoveItemKeepsDepth};

/// What is found after an edit.
pub fn edits_keep_others()
    ensures set { FindsSet }
    ensures changed { FindsChanged }
    ensures removed { FindsNoneRemoved }
    ensures others_set { SetKeepsOthers }
    ensures others_changed { ChangeKeepsOthers }
    ensures others_removed { RemoveKeepsOthers }
{}

/// Which items are there after an edit.
pub fn edits_keep_items()
    ensures appended { FindsAppended }
    ensures others_appended { AppendKeepsItems }
    ensures changed { FindsChangedItem }
    ensures others_changed { ChangeKeepsItems }
    ensures earlier_removed { RemoveKeepsEarlier }
    ensures later_removed { RemoveMovesLater }
{}

/// The items of a sound list and the values of a sound object are sound, and less deep.
pub fn parts_are_sound()
    ensures values { ValuesAreSound }
    ensures items { ItemsAreSound }
{}

/// An edit keeps a value sound where the new part is sound and leaves room for one level more. An
/// edit of a part, and of a part of that, is such an edit of the whole.
pub fn edits_keep_sound()
    ensures set { SetKeepsSound }
    ensures changed { ChangeKeepsSound }
    ensures removed { RemoveKeepsSound }
    ensures appended { AppendKeepsSound }
    ensures changed_item { ChangeItemKeepsSound }
    ensures removed_item { RemoveItemKeepsSound }
{}

/// How deep a value may be after an edit.
pub fn edits_keep_depth()
    ensures set { SetKeepsDepth }
    ensures changed { ChangeKeepsDepth }
    ensures removed { RemoveKeepsDepth }
    ensures appended { AppendKeepsDepth }
    ensures changed_item { ChangeItemKeepsDepth }
    ensures removed_item { RemoveItemKeepsDepth }
{}
