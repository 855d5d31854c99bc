//! The sizes of all differences of an upper and a lower height.
ghost use Rattle.std.specs.Prelude.{IfOk};
ghost use Rattle.defining_functions.specs.Kept.{AreWithinLimits, IsSizeTable};

use crate::size_row::{SizeRow, greater_sizes, no_sizes, size_row};
use exp_sums::{ExpSum, Sizes};
use std::alloc::{AllocError as OutOfMemory, Global};

/// The sizes of all differences of an upper and a lower height.
#[derive(Drop)]
pub struct SizeTable {
    /// A row for each upper height.
    pub rows: Vec<SizeRow>,
    /// The greatest weight, reach and bend of all.
    pub greatest: Sizes,
}

/// The sizes of each of some heights less each of others.
pub fn size_table(
    alloc: Global,
    uppers: &[ExpSum],
    lowers: &[ExpSum],
) -> Result<SizeTable, OutOfMemory>
    requires uppers { AreWithinLimits uppers.now }
    requires lowers { AreWithinLimits lowers.now }
    ensures { IfOk result (λ table. IsSizeTable uppers.now lowers.now table) }
{
    let mut rows = Vec::new(alloc);
    let mut greatest = no_sizes();
    for upper in uppers {
        let row = size_row(alloc, upper, lowers)?;
        greatest = greater_sizes(greatest, row.greatest);
        rows.push(row)?;
    }
    Ok(SizeTable { rows, greatest })
}
