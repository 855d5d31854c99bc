//! What follows from the definitions alone: each function's contract is a law.
ghost use Rattle.word_family.specs.Reading.{ReadsOneWay};

/// No texts get two answers of `Family::read`, so each answer comes exactly where its case holds.
pub fn parts_read_one_way()
    ensures { ReadsOneWay }
{}
