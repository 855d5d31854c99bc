//! The lines of a polygon.
ghost use Rattle.std.specs.Prelude.{◌≡◌, ℕ, ◌+◌, ◌^◌, ◌≤◌, false, [], ◌∷◌, ◌++◌, All, length, IfOk, IfErr};
ghost use Rattle.mcb_ends.specs.Causes.{HasCauseWhere};
ghost use Rattle.rational_polygon.specs.Outline.{IsGrid, IsCount, IsInside, IsPolygon};
ghost use Rattle.line_grammar.specs.Part.{line_part};
ghost use Rattle.line_grammar.specs.Reading.{ReadsPart, TakesPart, FailsPart, StopsEarly};
ghost use Rattle.covering_file.specs.CornerForms.{next_corner_form};
ghost use Rattle.covering_file.specs.Faults.{head_refusal, is_head_read};
ghost use Rattle.covering_file.specs.HeaderPart.{polygon_part, corners_part, corners_so_far};

use crate::form::Corner;
use crate::{HeadFault, Reason};
use line_grammar::{Numbered, take};
use mcb_ends::{LineReader, OutOfMemory, Source};
use rational_polygon::{MAX_CORNERS, MIN_CORNERS, Polygon};
use std::alloc::Global;

/// Reads the lines from the count of the corners to the last corner.
pub(crate) fn read_polygon<S: Source>(
    alloc: Global,
    grid: u32,
    lines: &mut LineReader,
    src: &mut S,
) -> Result<Polygon, HeadFault>
    requires grid { IsGrid grid }
    requires few { lines.old.number ≤ 2 ^ 31 + 200 }
    requires reading { lines.old.is_done ≡ false }
    ensures reads { ReadsPart (polygon_part grid) head_refusal lines.old lines.new (S.left src.old) (S.left src.new) result }
    ensures few { IfOk result (λ _. lines.new.number ≤ lines.old.number + 17) }
    ensures stops { IfOk result (λ _. StopsEarly (polygon_part grid).grammar lines.old lines.new (S.left src.old) (S.left src.new)) }
    ensures cause { HasCauseWhere is_head_read (S.faults src.old) (S.faults src.new) result }
{
    let count = take(
        &Numbered {
            name: b"polygon",
            low: MIN_CORNERS as u32,
            high: MAX_CORNERS as u32,
        },
        lines,
        src,
    )?;
    let corners = read_corners(alloc, grid, count, lines, src)?;
    last_corner(grid, corners, lines, src)
}

// Reads the corners before the last one.
fn read_corners<S: Source>(
    alloc: Global,
    grid: u32,
    count: u32,
    lines: &mut LineReader,
    src: &mut S,
) -> Result<Vec<(u32, u32)>, HeadFault>
    requires grid { IsGrid grid }
    requires count { IsCount count }
    requires few { lines.old.number ≤ 2 ^ 31 + 201 }
    requires reading { lines.old.is_done ≡ false }
    ensures corners { IfOk result (λ corners. TakesPart (corners_so_far grid count) lines.old lines.new
        (S.left src.old) (S.left src.new) corners.items) }
    ensures count { IfOk result (λ corners. length corners.items + 1 ≡ count) }
    ensures fails { IfErr result (λ fault. FailsPart (corners_part grid count).grammar lines.old lines.new
        (S.left src.old) (S.left src.new) (head_refusal fault)) }
    ensures cause { HasCauseWhere is_head_read (S.faults src.old) (S.faults src.new) result }
{
    let mut corners = Vec::new(alloc);
    'corners: for _ in 1..count {
        let corner = take(&Corner { grid }, lines, src)?;
        corners.push(corner).map_err(OutOfMemory::from)?;
    }
    Ok(corners)
}

// Reads the last corner. Only there are the corners those of a polygon or not.
fn last_corner<S: Source>(
    grid: u32,
    mut corners: Vec<(u32, u32)>,
    lines: &mut LineReader,
    src: &mut S,
) -> Result<Polygon, HeadFault>
    requires grid { IsGrid grid }
    requires count { IsCount (length corners.items + 1) }
    requires inside { All (IsInside grid) corners.items }
    requires few { lines.old.number ≤ 2 ^ 31 + 219 }
    requires reading { lines.old.is_done ≡ false }
    ensures corner { IfOk result (λ outline. (c : ℕ × ℕ) × (outline ≡ record { grid = grid; corners = corners.items ++ c ∷ [] })
        × TakesPart (line_part (next_corner_form grid (length corners.items + 1) corners.items)) lines.old lines.new
        (S.left src.old) (S.left src.new) c) }
    ensures is_polygon { IfOk result IsPolygon }
    ensures stops { IfOk result (λ _. StopsEarly (line_part (next_corner_form grid (length corners.items + 1) corners.items)).grammar
        lines.old lines.new (S.left src.old) (S.left src.new)) }
    ensures fails { IfErr result (λ fault. FailsPart
        (line_part (next_corner_form grid (length corners.items + 1) corners.items)).grammar lines.old lines.new
        (S.left src.old) (S.left src.new) (head_refusal fault)) }
    ensures cause { HasCauseWhere is_head_read (S.faults src.old) (S.faults src.new) result }
{
    let corner = take(&Corner { grid }, lines, src)?;
    corners.push(corner).map_err(OutOfMemory::from)?;
    match Polygon::new(grid, corners) {
        Ok(polygon) => Ok(polygon),
        Err(_) => Err(HeadFault::Line {
            line: lines.number(),
            reason: Reason::NotConvex,
        }),
    }
}
