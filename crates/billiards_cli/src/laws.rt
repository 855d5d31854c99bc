//! How much freedom right answers leave, and how those of one command go with those of another, over the definitions alone:
//! each function's contract is a law. The program calls none.
ghost use Rattle.billiards_cli.specs.Laws.{WordAnswerIsOne, AtAnswersDifferBetween, TileAnswersDifferBetween, CompleteIsAccepted, GeneratedIsJob};
ghost use Rattle.billiards_cli.specs.Laws.{DrawAnswerIsOne, ClosedMergeIsCovering, SureFilesAreMerged, ClosedMergeIsAccepted};
ghost use Rattle.billiards_cli.specs.Laws.{UpgradeAnswerIsOne, JobAnswerIsOne, CheckAnswersDifferBetween, CoverAnswersDifferBetween, SearchAnswersDifferBetween};

/// Two right answers of `word` to one input, neither of which is that memory is wanting, have one status and one text.
pub fn word_answer_is_one()
    ensures { WordAnswerIsOne }
{}

/// Two right answers of `draw` to one input, neither of which is that memory is wanting, have one status and one text.
pub fn draw_answer_is_one()
    ensures { DrawAnswerIsOne }
{}

/// Two right answers of `upgrade` to one input, neither of which is that memory is wanting, have one status and one text.
pub fn upgrade_answer_is_one()
    ensures { UpgradeAnswerIsOne }
{}

/// Two right answers of `job` have one status and one text.
pub fn job_answer_is_one()
    ensures { JobAnswerIsOne }
{}

/// Two right answers of `check` to one input, neither of which is that memory is wanting, have one status and one text, or else
/// one of them names the line of a node whose word is clear with the narrower slack, and not with the wider one.
pub fn check_answers_differ_between()
    ensures { CheckAnswersDifferBetween }
{}

/// Two right answers of `cover` to one input, where memory is not wanting and the sink took all, have one status and one text, or
/// else first differ at a box on which some listed word may be shown, and may be passed over.
pub fn cover_answers_differ_between()
    ensures { CoverAnswersDifferBetween }
{}

/// Two right answers of `search`, neither of which is that memory is wanting, have one status and one text, or else list a word
/// that has a corridor at the triangle and is not clear there with the wider slack, and that the other does not list.
pub fn search_answers_differ_between()
    ensures { SearchAnswersDifferBetween }
{}

/// Two right answers of `at`, neither of which is that memory is wanting, have one status and one text, or else the word has
/// a corridor at the triangle and is not clear there with the wider slack.
pub fn at_answers_differ_between()
    ensures { AtAnswersDifferBetween }
{}

/// Two right answers of `tile`, neither of which is that memory is wanting, have one status and one text, or else there is a
/// box on which the word is clear or shut with the narrower slack, and neither with the wider one.
pub fn tile_answers_differ_between()
    ensures { TileAnswersDifferBetween }
{}

/// Complete is accepted: what `cover` writes where it is done is the text of a file with a sure tree, and `check` accepts it,
/// but for want of memory.
pub fn complete_is_accepted()
    ensures { CompleteIsAccepted }
{}

/// Each generated job is a job: a region, a stable word and a depth within the limits.
pub fn generated_is_job()
    ensures { GeneratedIsJob }
{}

/// What `merge` writes where it is done is one whole covering file, and every point of its region that is a triangle has a listed
/// word with a corridor.
pub fn closed_merge_is_covering()
    ensures { ClosedMergeIsCovering }
{}

/// Of two files whose claims are true with the wider slacks, but for boxes that are left uncovered, no claim is refused, and
/// `check` accepts what `merge` writes of them where it is done, but for want of memory.
pub fn sure_files_are_merged()
    ensures merged { SureFilesAreMerged }
    ensures accepted { ClosedMergeIsAccepted }
{}
