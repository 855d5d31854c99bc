//! The heights of the corners on one side of a path.
ghost use Rattle.std.specs.Prelude.{◌≡◌, ◌<◌, ◌-◌, [], ◌∷◌, ◌++◌, length, slice_index_or, OnOk};
ghost use Rattle.exp_sums.specs.FormalPoint.{FormalPoint};

use exp_sums::ExpSum;
use std::alloc::{AllocError as OutOfMemory, Global};

/// The heights of the corners on one side of a path. A corner at which several edges end has its height once.
#[derive(Drop)]
pub struct Side {
    /// The heights of the distinct corners, in the order of the edges.
    pub heights: Vec<ExpSum>,
    /// For each edge, where the height of its corner stands.
    pub places: Vec<usize>,
}

impl Side {
    /// A side without edges.
    pub fn new(alloc: Global) -> Side
        ensures heights { result.heights.items ≡ [] }
        ensures places { result.places.items ≡ [] }
    {
        Side {
            heights: Vec::new(alloc),
            places: Vec::new(alloc),
        }
    }

    /// The height of the last corner.
    pub fn last(&self) -> &ExpSum
        requires { 0 < length self.now.heights.items }
        ensures { (p : FormalPoint) → result.now ≡ slice_index_or self.now.heights.items (length self.now.heights.items - 1) p }
    {
        &self.heights[self.heights.len() - 1]
    }

    /// One more edge, whose corner has this height.
    pub fn push(&mut self, height: ExpSum) -> Result<(), OutOfMemory>
        ensures heights { OnOk result (self.new.heights.items ≡ self.old.heights.items ++ height ∷ []) }
        ensures places { OnOk result (self.new.places.items ≡ self.old.places.items ++ length self.old.heights.items ∷ []) }
    {
        self.places.push(self.heights.len())?;
        self.heights.push(height)?;
        Ok(())
    }

    /// One more edge, which ends at the last corner again.
    pub fn push_again(&mut self) -> Result<(), OutOfMemory>
        requires { 0 < length self.old.heights.items }
        ensures heights { OnOk result (self.new.heights.items ≡ self.old.heights.items) }
        ensures places { OnOk result (self.new.places.items ≡ self.old.places.items ++ (length self.old.heights.items - 1) ∷ []) }
    {
        self.places.push(self.heights.len() - 1)?;
        Ok(())
    }
}
