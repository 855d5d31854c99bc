//! The lines of a region.
ghost use Rattle.std.specs.Prelude.{◌≡◌, ◌+◌, ◌*◌, ◌^◌, ◌≤◌, false, IfOk, IfErr};
ghost use Rattle.mcb_ends.specs.Causes.{HasCauseWhere};
ghost use Rattle.rational_polygon.specs.Outline.{IsGrid};
ghost use Rattle.line_grammar.specs.Reading.{ReadsPart, TakesPart, FailsPart};
ghost use Rattle.covering_file.specs.Faults.{head_refusal, is_head_read};
ghost use Rattle.covering_file.specs.Header.{IsVersion};
ghost use Rattle.covering_file.specs.HeaderPart.{count_part, polygons_part, region_part};

use crate::HeadFault;
use crate::outline::read_polygon;
use line_grammar::{Numbered, take};
use mcb_ends::{LineReader, OutOfMemory, Source};
use rational_polygon::{MAX_GRID, MAX_POLYGONS, Polygon, Region};
use std::alloc::Global;

// The fewest polygons of a region.
const MIN_POLYGONS: u32 = 1;

/// Reads the lines from the grid to the last corner of the last polygon.
pub(crate) fn read_region<S: Source>(
    alloc: Global,
    version: u8,
    lines: &mut LineReader,
    src: &mut S,
) -> Result<Region, HeadFault>
    requires version { IsVersion version }
    requires few { lines.old.number ≤ 2 ^ 31 + 1 }
    requires reading { lines.old.is_done ≡ false }
    ensures reads { ReadsPart (region_part version) head_refusal lines.old lines.new (S.left src.old) (S.left src.new) result }
    ensures few { IfOk result (λ _. lines.new.number ≤ lines.old.number + 138) }
    ensures cause { HasCauseWhere is_head_read (S.faults src.old) (S.faults src.new) result }
{
    let grid = take(
        &Numbered {
            name: b"grid",
            low: 1,
            high: MAX_GRID,
        },
        lines,
        src,
    )?;
    let count = read_count(version, lines, src)?;
    let polygons = read_polygons(alloc, grid, count, lines, src)?;
    Ok(Region::new(polygons).unwrap())
}

// Reads how many polygons there are. Version 1 has one, and no line for it.
fn read_count<S: Source>(version: u8, lines: &mut LineReader, src: &mut S) -> Result<u32, HeadFault>
    requires version { IsVersion version }
    requires few { lines.old.number ≤ 2 ^ 31 + 2 }
    requires reading { lines.old.is_done ≡ false }
    ensures reads { ReadsPart (count_part version) head_refusal lines.old lines.new (S.left src.old) (S.left src.new) result }
    ensures few { IfOk result (λ _. lines.new.number ≤ lines.old.number + 1) }
    ensures count { IfOk result (λ count. count ≤ MAX_POLYGONS) }
    ensures cause { HasCauseWhere is_head_read (S.faults src.old) (S.faults src.new) result }
{
    if version == 1 {
        return Ok(1);
    }
    let count = take(
        &Numbered {
            name: b"regions",
            low: MIN_POLYGONS,
            high: MAX_POLYGONS as u32,
        },
        lines,
        src,
    )?;
    Ok(count)
}

// Reads so many polygons on one grid.
fn read_polygons<S: Source>(
    alloc: Global,
    grid: u32,
    count: u32,
    lines: &mut LineReader,
    src: &mut S,
) -> Result<Vec<Polygon>, HeadFault>
    requires grid { IsGrid grid }
    requires count { count ≤ MAX_POLYGONS }
    requires few { lines.old.number ≤ 2 ^ 31 + 3 }
    requires reading { lines.old.is_done ≡ false }
    ensures polygons { IfOk result (λ polygons. TakesPart (polygons_part grid count) lines.old lines.new
        (S.left src.old) (S.left src.new) polygons.items) }
    ensures few { IfOk result (λ _. lines.new.number ≤ lines.old.number + 17 * count) }
    ensures fails { IfErr result (λ fault. FailsPart (polygons_part grid count).grammar lines.old lines.new
        (S.left src.old) (S.left src.new) (head_refusal fault)) }
    ensures cause { HasCauseWhere is_head_read (S.faults src.old) (S.faults src.new) result }
{
    let mut polygons = Vec::new(alloc);
    'polygons: for _ in 0..count {
        let polygon = read_polygon(alloc, grid, lines, src)?;
        polygons.push(polygon).map_err(OutOfMemory::from)?;
    }
    Ok(polygons)
}
