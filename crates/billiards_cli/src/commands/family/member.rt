/// What was found of a member of a family at a triangle.
#[derive(Clone, Copy, Debug, PartialEq, Eq)]
pub(crate) struct Member {
    /// How often the middle part stands in it.
    pub number: u32,
    /// Whether it was shown to be open.
    pub open: bool,
}
