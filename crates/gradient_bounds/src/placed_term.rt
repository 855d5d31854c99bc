//! One term of a form, by its place in the table.

/// Where the direction of a term stands in the table, and the term's coefficient.
#[derive(Clone, Copy, Debug)]
pub struct PlacedTerm {
    pub place: usize,
    pub c: i64,
}
