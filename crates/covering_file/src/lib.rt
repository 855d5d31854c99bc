//! The covering file, both ways: a region, stable words, and a quadtree whose leaves are apart from the region, shown for
//! one word, or uncovered.
//!
//! The one contract: what is read is what the bytes say, what is written is the text of what was given, and of what is no
//! file the first offending line is named, with its least reason. A sound tree covers its region.
#![tactic(auto)]

mod fault;
mod file_kind;
mod form;
mod header;
mod job;
pub mod laws;
mod node;
mod outline;
mod reading;
mod region;
mod tree;
mod walk;
mod words;
mod writing;

pub use fault::{HeadFault, HeaderFault};
pub use file_kind::FileKind;
pub use form::NodeLine;
pub use header::Header;
pub use job::read_job;
pub use line_grammar::Reason;
pub use node::{Node, read_node};
pub use reading::read_header;
pub use tree::{Tree, read_tree, write_tree};
pub use walk::Walk;
pub use writing::{write_end, write_header, write_node};

/// The latest version of the format.
pub const MAX_VERSION: u32 = 3;

/// The least level of a box that is judged at its corners.
pub const LEAST_CORNER_LEVEL: u32 = 10;

/// How many words a file lists at most.
pub const MAX_WORDS: u32 = 32;

/// How many nodes a file has at most.
pub const MAX_NODES: u32 = 2_000_000;

#[cfg(test)]
mod node_tests;
#[cfg(test)]
mod tests;
#[cfg(test)]
mod tree_tests;
