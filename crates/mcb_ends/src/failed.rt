/// The outside failed: a source gave nothing, or a sink took nothing.
#[derive(Clone, Copy, Debug, PartialEq, Eq)]
pub struct Failed;
