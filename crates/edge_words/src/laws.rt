//! What follows from the definitions alone: each function's contract is a law.
ghost use Rattle.edge_words.specs.Canonical.{HasOneCanonicalForm, BraceletSharesCanonicalForm, BraceletKeepsStability};
ghost use Rattle.edge_words.specs.Reading.{ReadsOneWay};

/// No bytes get two answers of `Word::read`, so each answer comes exactly where its case holds.
pub fn bytes_read_one_way()
    ensures { ReadsOneWay }
{}

/// A word has one canonical form.
pub fn canonical_form_is_unique()
    ensures { HasOneCanonicalForm }
{}

/// The rotations of a word and of its reversal have its canonical form, so that is its own
/// canonical form too.
pub fn bracelet_shares_canonical_form()
    ensures { BraceletSharesCanonicalForm }
{}

/// The rotations of a word and of its reversal are stable exactly where the word is.
pub fn bracelet_keeps_stability()
    ensures { BraceletKeepsStability }
{}
