/// What stands after the header.
#[derive(Clone, Copy, Debug, PartialEq, Eq)]
pub enum FileKind {
    /// A tree: the file is a covering.
    Cover,
    /// Nothing: the file is a job for the coverer.
    Job,
}
