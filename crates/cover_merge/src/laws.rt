//! What follows from the definitions alone: each function's contract is a law. The program calls none.
ghost use Rattle.cover_merge.specs.Laws.{OverlayIsOfBoth, FoldIsOfTree, OverlayIsOpenWhereBothAre, FoldIsOpenWhereTreeIs};
ghost use Rattle.cover_merge.specs.Laws.{OverlayIsSmall, FoldIsSmall, OverlayIsNoDeeper, FoldIsNoDeeper};
ghost use Rattle.cover_merge.specs.Laws.{OverlayKeepsSound, FoldKeepsSound, ClosedIsSound};
ghost use Rattle.cover_merge.specs.UnionLaws.{UnionKeepsFirst, UnionHasOthers, UnionHasNoMore};
ghost use Rattle.cover_merge.specs.UnionLaws.{RenumberedHasNodes, RenumberedIsOpenWhereTreeIs, RenumberedKeepsSound};
ghost use Rattle.cover_merge.specs.MergeLaws.{MergeIsOpenWhereBothAre, MergeIsSmall};
ghost use Rattle.cover_merge.specs.MergeLaws.{ClosedMergeIsSound, ClosedMergeCovers, ClosedMergeIsSure};

/// What stands in an overlay stands in one of the trees.
pub fn overlay_is_of_both()
    ensures { OverlayIsOfBoth }
{}

/// What stands in a fold stands in the tree, or is shown for the first word that is clear.
pub fn fold_is_of_tree()
    ensures { FoldIsOfTree }
{}

/// A box that an overlay leaves uncovered lies in an uncovered box of each tree, and a fold leaves only boxes uncovered that were.
pub fn open_where_both_are()
    ensures overlay { OverlayIsOpenWhereBothAre }
    ensures fold { FoldIsOpenWhereTreeIs }
{}

/// An overlay has at most as many nodes as both trees, and a fold at most as many as its tree.
pub fn sizes()
    ensures overlay { OverlayIsSmall }
    ensures fold { FoldIsSmall }
{}

/// Neither has a split below those that were.
pub fn no_deeper()
    ensures overlay { OverlayIsNoDeeper }
    ensures fold { FoldIsNoDeeper }
{}

/// Trees that are sound but for uncovered boxes have such an overlay and such folds.
pub fn keeps_sound()
    ensures overlay { OverlayKeepsSound }
    ensures fold { FoldKeepsSound }
{}

/// Where no box is left uncovered, such a tree is sound.
pub fn closed_is_sound()
    ensures { ClosedIsSound }
{}

/// In a union the first words keep their numbers, each of the others stands, and no more.
pub fn union_has_both()
    ensures first { UnionKeepsFirst }
    ensures others { UnionHasOthers }
    ensures no_more { UnionHasNoMore }
{}

/// A tree with other numbers of words has the same nodes but for these, leaves the same boxes uncovered, and is sound but for
/// uncovered boxes where each number stands for the same word.
pub fn renumbered_is_the_same()
    ensures nodes { RenumberedHasNodes }
    ensures open { RenumberedIsOpenWhereTreeIs }
    ensures sound { RenumberedKeepsSound }
{}

/// A box that a merge leaves uncovered lies in one of each file, and a merge has at most as many nodes as both files.
pub fn merge_is_of_both()
    ensures open { MergeIsOpenWhereBothAre }
    ensures small { MergeIsSmall }
{}

/// Where no box is left uncovered, a merge of files that no round refuses is sound and covers its region, and is sure where both
/// files are but for uncovered boxes.
pub fn closed_merge()
    ensures sound { ClosedMergeIsSound }
    ensures covers { ClosedMergeCovers }
    ensures sure { ClosedMergeIsSure }
{}
