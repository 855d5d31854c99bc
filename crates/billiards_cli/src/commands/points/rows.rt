ghost use Rattle.std.specs.Prelude.{◌≡◌, ◌+◌, ◌*◌, ◌≤◌, length, IfOk, OnOk, IfSome, IfNone};
ghost use Rattle.unfolding.specs.Shift.{HasShift};
ghost use Rattle.unfolding.specs.Triangle.{IsCorner};
ghost use Rattle.billiards_cli.specs.Commands.Points.{angles_at, AreCorners, AreCornersUpTo, AreRows, IsCornerSpot, IsShiftSpot};

use super::CornerSpot;
use crate::Triangle;
use edge_words::Word;
use mcb_ends::OutOfMemory;
use plane_points::{Plane, Spot};
use std::alloc::Global;
use unfolding::Unfolding;

/// What is told of a word's unfolding in a triangle.
#[derive(Drop)]
pub(crate) struct Rows {
    /// The corners 1, 2 and 3 of each triangle, from the first to the last.
    pub corners: Vec<CornerSpot>,
    /// The shift, where the word has one.
    pub shift: Option<Spot>,
}

impl Rows {
    /// The rows of a word in a triangle.
    pub(crate) fn of(alloc: Global, word: &Word, triangle: &Triangle) -> Result<Rows, OutOfMemory>
        ensures { IfOk result (λ rows. AreRows word.now (angles_at triangle.now) rows.corners.items rows.shift) }
    {
        let unfolding = Unfolding::of(alloc, word)?;
        let plane = Plane::at(triangle.first(), triangle.second());
        let corners = corner_spots(alloc, &unfolding, &plane)?;
        let shift = shift_spot(&unfolding, &plane);
        Ok(Rows { corners, shift })
    }
}

// The corners of each triangle.
fn corner_spots(
    alloc: Global,
    unfolded: &Unfolding,
    plane: &Plane,
) -> Result<Vec<CornerSpot>, OutOfMemory>
    ensures { IfOk result (λ corners. AreCorners unfolded.now plane.now corners.items) }
{
    let mut corners = Vec::new(alloc);
    for triangle in 0..unfolded.letters() + 1 {
        push_corners(&mut corners, unfolded, plane, triangle)?;
    }
    Ok(corners)
}

// The corners of one triangle, behind those of the triangles before it.
fn push_corners(
    corners: &mut Vec<CornerSpot>,
    unfolded: &Unfolding,
    plane: &Plane,
    triangle: u32,
) -> Result<(), OutOfMemory>
    requires within { triangle ≤ length unfolded.now }
    requires before { AreCornersUpTo unfolded.now plane.now (3 * triangle) corners.old.items }
    ensures { OnOk result (AreCornersUpTo unfolded.now plane.now (3 * (triangle + 1)) corners.new.items) }
{
    for corner in 1..4 {
        corners.push(corner_spot(unfolded, plane, triangle, corner))?;
    }
    Ok(())
}

fn corner_spot(unfolded: &Unfolding, plane: &Plane, triangle: u32, corner: u8) -> CornerSpot
    requires within { triangle ≤ length unfolded.now }
    requires corner { IsCorner corner }
    ensures triangle { result.triangle ≡ triangle }
    ensures corner { result.corner ≡ corner }
    ensures spot { IsCornerSpot unfolded.now plane.now result }
{
    CornerSpot {
        triangle,
        corner,
        spot: plane.spot(unfolded.corner(triangle, corner)),
    }
}

// The shift of a stable word.
fn shift_spot(unfolded: &Unfolding, plane: &Plane) -> Option<Spot>
    ensures some { IfSome result (λ spot. IsShiftSpot unfolded.now plane.now spot) }
    ensures none { IfNone result (¬ (HasShift unfolded.now)) }
{
    match unfolded.shift() {
        Some(shift) => Some(plane.spot(shift)),
        None => None,
    }
}
