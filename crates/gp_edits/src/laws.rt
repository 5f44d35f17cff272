//! Laws of the edits, each the contract of a function that does nothing.
ghost use Rattle.gp_edits.specs.Laws.{PlaceIsNotCommon, CompressionIsNotCommon};
ghost use Rattle.gp_edits.specs.Laws.{NamesAreNotCommon, NamesAreNotInCommon, SetBufferIsNotCommon, BuffersAreNotCommon, ViewsStayCommon};
ghost use Rattle.gp_edits.specs.Laws.{PlainStaysCommon, EmptyStaysCommon, PlainStaysSound, EmptyStaysSound};
ghost use Rattle.gp_edits.specs.NameLaws.{PlainUsesNoMore, EmptyUsesNoMore};
ghost use Rattle.gp_edits.specs.PackLaws.{AddedCompressionIsNotCommon, SetTwoBuffersIsNotCommon, AddedNamesAreNotInCommon};
ghost use Rattle.gp_edits.specs.PackLaws.{PlacedStaysSound, CompressedStaysSound, WithTwoBuffersStaysSound, NamedStaysSound};
ghost use Rattle.gp_edits.specs.PackLaws.{CompressionAddsItsName, TwoBuffersUseOneMore, NamesUseOneMore};
ghost use Rattle.gp_edits.specs.Own.{PlacedChangesItsOwn, RemovedChangesItsOwn, CompressedChangesItsOwn, RemovedKeepsExtensions, CompressedKeepsExtensions};
ghost use Rattle.gp_edits.specs.Own.{OneBufferChangesItsOwn, TwoBuffersChangeTheirOwn, UnnamedChangesItsOwn, NamedChangesItsOwn, UnnamedKeepsNames, NamedKeepsNames};
ghost use Rattle.gp_edits.specs.Own.{RemovedStays, CompressedStays, UnnamedStays, NamedStays};

/// What the trees of two assets have in common says nothing of where a view is, and whether it is compressed.
pub fn common_views_stay()
    ensures placed { PlaceIsNotCommon }
    ensures plain { CompressionIsNotCommon }
{}

/// Nor of the buffers, and of the names of the extension; and it stays where each view keeps what it has in common.
pub fn common_roots_stay()
    ensures names { NamesAreNotCommon }
    ensures named { NamesAreNotInCommon }
    ensures set { SetBufferIsNotCommon }
    ensures removed { BuffersAreNotCommon }
    ensures views { ViewsStayCommon }
{}

/// So it stays where all views are placed in one buffer, none of them compressed, and the extension isn't named.
pub fn plain_assets_stay_common()
    ensures with_buffer { PlainStaysCommon }
    ensures without { EmptyStaysCommon }
{}

/// And it stays sound.
pub fn plain_assets_stay_sound()
    ensures with_buffer { PlainStaysSound }
    ensures without { EmptyStaysSound }
{}

/// And it uses no other extensions.
pub fn plain_assets_use_no_more()
    ensures with_buffer { PlainUsesNoMore }
    ensures without { EmptyUsesNoMore }
{}

/// What is in common stays where a view is compressed, a second buffer is there, or the extension is named.
pub fn packing_stays_common()
    ensures compressed { AddedCompressionIsNotCommon }
    ensures buffers { SetTwoBuffersIsNotCommon }
    ensures named { AddedNamesAreNotInCommon }
{}

/// Such edits keep a tree sound.
pub fn packing_stays_sound()
    ensures placed { PlacedStaysSound }
    ensures compressed { CompressedStaysSound }
    ensures buffers { WithTwoBuffersStaysSound }
    ensures named { NamedStaysSound }
{}

/// They bring no other extension than this one.
pub fn packing_uses_one_more()
    ensures compressed { CompressionAddsItsName }
    ensures buffers { TwoBuffersUseOneMore }
    ensures named { NamesUseOneMore }
{}

/// Each edit changes its own members alone; those that hold other extensions too, or other names, keep them,
/// and where they are no object, or no list, they stay as they are.
pub fn edits_change_their_own()
    ensures placed { PlacedChangesItsOwn }
    ensures removed { RemovedChangesItsOwn }
    ensures removed_beside { RemovedKeepsExtensions }
    ensures removed_stays { RemovedStays }
    ensures compressed { CompressedChangesItsOwn }
    ensures compressed_beside { CompressedKeepsExtensions }
    ensures compressed_stays { CompressedStays }
    ensures one_buffer { OneBufferChangesItsOwn }
    ensures two_buffers { TwoBuffersChangeTheirOwn }
    ensures unnamed { UnnamedChangesItsOwn }
    ensures unnamed_beside { UnnamedKeepsNames }
    ensures unnamed_stays { UnnamedStays }
    ensures named { NamedChangesItsOwn }
    ensures named_beside { NamedKeepsNames }
    ensures named_stays { NamedStays }
{}
