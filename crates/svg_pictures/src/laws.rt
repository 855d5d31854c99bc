//! How much freedom the picture of an unfolding leaves: each function's contract is a law. The program calls none.
ghost use Rattle.svg_pictures.specs.Laws.{NumbersDifferByTwo, TextFollowsTriangles};

/// Two whole numbers that stand for one coordinate differ by at most 2.
pub fn numbers_differ_by_two()
    ensures { NumbersDifferByTwo }
{}

/// Two pictures of one word in one triangle are one text, where their triangles have the same numbers.
pub fn text_follows_triangles()
    ensures { TextFollowsTriangles }
{}
