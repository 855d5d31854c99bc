//! What follows from the definitions alone: each function's contract is a law. The program calls none.
ghost use Rattle.covering_file.specs.declared.file_kind.FileKind.{FileKind};
ghost use Rattle.line_grammar.specs.Laws.{OffenceIsOne};
ghost use Rattle.covering_file.specs.HeaderPart.{header_part, job_part};
ghost use Rattle.covering_file.specs.Laws.{HeaderIsOne, NoHeaderPrefix, HeaderNeverOffends, JobNeverOffends, WholeIsTree, TreeIsOne, StandingIsDue};
ghost use Rattle.covering_file.specs.Laws.{SoundCovers, SoundIsCovered, CoveredEverywhere, SureIsSound, FileTextIsLines, FileIsOne, PassedIsAccepted};
ghost use Rattle.covering_file.specs.Laws.{AcceptedIsCovering, AcceptedIsOne, SureIsNotRefused, RefusalsDifferBetween, AcceptedIsRefusedBetween};
ghost use Rattle.covering_file.specs.Laws.{TreeFileNeverOffends, TreeFileOffenceIsOne, UpgradedIsSound, UpgradedIsSure};

/// Bytes that begin with the texts of two headers begin with one.
pub fn header_is_one()
    ensures { HeaderIsOne }
{}

/// No text of a header is a prefix of the text of another header.
pub fn no_header_prefix()
    ensures { NoHeaderPrefix }
{}

/// No line of a header offends, so that a header is never refused.
pub fn header_never_offends()
    ensures { HeaderNeverOffends }
{}

/// No line of a job offends.
pub fn job_never_offends()
    ensures { JobNeverOffends }
{}

/// Bytes of a header or a job offend first at one line, and there by one least reason.
pub fn offence_is_one()
    ensures header { (kind : FileKind) → OffenceIsOne (header_part kind).grammar }
    ensures job { OffenceIsOne job_part.grammar }
{}

/// The nodes of a list are those of a whole tree exactly where a box is due before each and none after all.
pub fn whole_is_tree()
    ensures { WholeIsTree }
{}

/// And they are those of one tree alone.
pub fn tree_is_one()
    ensures { TreeIsOne }
{}

/// A node stands in a tree at the box that is the first due one before it in the tree's list.
pub fn standing_is_due()
    ensures { StandingIsDue }
{}

/// Where the tree of a file is sound, each point of the region lies in a box of a leaf that is shown, or shown at its corners.
pub fn sound_covers()
    ensures { SoundCovers }
{}

/// Where the tree of a file is sound, every point of the region that is a triangle has a corridor of a listed word.
pub fn sound_is_covered()
    ensures { SoundIsCovered }
{}

/// Where a region is covered, every point of it has a corridor of a listed word, since every point of it is a triangle.
pub fn covered_everywhere()
    ensures { CoveredEverywhere }
{}

/// A sure tree is sound.
pub fn sure_is_sound()
    ensures { SureIsSound }
{}

/// The text of a file is that of its lines.
pub fn file_text_is_lines()
    ensures { FileTextIsLines }
{}

/// Bytes that begin with the texts of two files begin with one, where the word numbers of one of the trees are listed.
pub fn file_is_one()
    ensures { FileIsOne }
{}

/// An accepted file is whole, and its region is covered.
pub fn accepted_is_covering()
    ensures { AcceptedIsCovering }
{}

/// The bytes of an accepted file are the text of no other file.
pub fn accepted_is_one()
    ensures { AcceptedIsOne }
{}

/// A file whose lines can all pass is accepted.
pub fn passed_is_accepted()
    ensures { PassedIsAccepted }
{}

/// No line of a file with a sure tree within the limit is refused.
pub fn sure_is_not_refused()
    ensures { SureIsNotRefused }
{}

/// Two refusals of one file name one line and one reason, or else the lesser of their lines is that of a word that is clear on its box, or at
/// its corners, with the narrower slack, and not with the wider one. An accepted file is refused only at such a line.
pub fn verdicts_differ_between()
    ensures refused { RefusalsDifferBetween }
    ensures accepted { AcceptedIsRefusedBetween }
{}

/// No line of a covering file offends where it is read without being judged.
pub fn tree_file_never_offends()
    ensures { TreeFileNeverOffends }
{}

/// Bytes that are read without being judged offend first at one line, and there by one least reason.
pub fn tree_file_offence_is_one()
    ensures { TreeFileOffenceIsOne }
{}

/// The tree of a file that is upgraded is sound exactly where it was before.
pub fn upgraded_is_sound()
    ensures { UpgradedIsSound }
{}

/// And it is sure exactly where it was before.
pub fn upgraded_is_sure()
    ensures { UpgradedIsSure }
{}
