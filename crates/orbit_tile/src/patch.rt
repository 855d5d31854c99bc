use rational_polygon::GridBox;

/// What is known of the triangles in a box.
#[derive(Clone, Copy, Debug, PartialEq, Eq)]
pub enum PatchKind {
    /// The word has a corridor in each.
    Inside,
    /// It has one in none.
    Outside,
    /// Neither is seen.
    Undecided,
    /// The box has no triangle.
    Beyond,
}

/// A box of the unit square, and what is known of the triangles in it.
#[derive(Clone, Copy, Debug, PartialEq, Eq)]
pub struct Patch {
    pub place: GridBox,
    pub kind: PatchKind,
}
