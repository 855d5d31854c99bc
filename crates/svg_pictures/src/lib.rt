//! Pictures, as SVG text: the tile of a word, an unfolding with its upper and lower corners, a path in its triangle, and a
//! covering with its region.
//!
//! The one contract: what is written is the text of the picture, or a prefix of it where the sink fails. Each number that
//! stands for a coordinate is within 1 of 1000 times the coordinate's approximations, from some one on, and within 2 where
//! it is that of a bounce point.
#![tactic(auto)]

mod bounce_point;
mod colours;
mod coordinates;
mod covering_picture;
#[cfg(test)]
mod covering_tests;
mod drawn;
mod ends;
mod first_triangle;
mod frame;
pub mod laws;
mod leaf_square;
mod outlines;
mod path_picture;
mod picture_point;
mod place;
mod side;
mod span;
mod svg;
#[cfg(test)]
mod tests;
mod tile_picture;
mod triangles;
mod unfolding_picture;
mod view;

pub use covering_picture::{drawn_leaves, write_covering};
pub use path_picture::write_path;
pub use tile_picture::write_tile;
pub use unfolding_picture::write_unfolding;

/// How many leaves the picture of a covering is meant to have at most. Whoever asks for one counts them first.
pub const MAX_DRAWN: u32 = 200_000;
