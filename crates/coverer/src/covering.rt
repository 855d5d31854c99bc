ghost use Rattle.std.specs.Prelude.{◌≡◌, ◌≤◌, List, ℕ, IfOk, IfErr, IsErrOf};
ghost use Rattle.std.specs.Io.KnownBytes.{Appends};
ghost use Rattle.mcb_ends.specs.Bytes.{AppendsPrefix};
ghost use Rattle.mcb_ends.specs.Causes.{HasCause, HasCauseWhere};
ghost use Rattle.coverer.specs.Begun.{IsCover, IsBegunText};
ghost use Rattle.coverer.specs.Written.{WritesCover, is_cover_write};

use crate::nodes::write_nodes;
use crate::{CoverFault, Covered};
use covering_claims::{WordTests, prepare};
use covering_file::{FileKind, Header, MAX_NODES, write_end, write_header};
use mcb_ends::{Failed, Sink};
use pi_bounds::Coarse;
use std::alloc::Global;

/// Covers the region of the header by its words with a tree of at most `limit` nodes, and writes the covering file. All
/// memory is taken before the first byte.
pub fn cover<K: Sink>(
    alloc: Global,
    header: &Header,
    limit: u32,
    out: &mut K,
) -> Result<Covered, CoverFault>
    requires at_least { 1 ≤ limit }
    requires at_most { limit ≤ MAX_NODES }
    ensures text { WritesCover limit header.now (K.written out.old) (K.written out.new) result }
    ensures room { K.room out.new ≡ K.room out.old }
    ensures cause { HasCauseWhere is_cover_write (K.faults out.old) (K.faults out.new) result }

    // Where memory is wanting, the sink was left alone.
    ensures unwritten { IsErrOf result CoverFault.Memory → out.new ≡ out.old }
{
    let Ok(mut tests) = prepare(alloc, header) else {
        return Err(CoverFault::Memory);
    };
    match write_file(alloc, header, tests.as_mut_slice(), limit, out) {
        Ok(answer) => Ok(answer),
        Err(_) => Err(CoverFault::Write),
    }
}

// Writes the header, the nodes and the end line of a whole tree.
fn write_file<K: Sink>(
    alloc: Global,
    header: &Header,
    tests: &mut [WordTests<Coarse>],
    limit: u32,
    out: &mut K,
) -> Result<Covered, Failed>
    requires tests { tests.old ≡ header.now.words }
    requires at_most { limit ≤ MAX_NODES }
    ensures covered { IfOk result (λ answer. (text : List ℕ) × IsCover limit header.now answer text
        × Appends (K.written out.old) (K.written out.new) text) }
    ensures failed { IfErr result (λ _. (text : List ℕ) × IsBegunText limit header.now text
        × AppendsPrefix (K.written out.old) (K.written out.new) text) }
    ensures room { K.room out.new ≡ K.room out.old }
    ensures cause { HasCause (K.faults out.old) (K.faults out.new) result }
{
    write_header(header, FileKind::Cover, out)?;
    let tree = write_nodes(alloc, header, tests, limit, out)?;
    let nodes = tree.nodes;
    if !tree.is_whole {
        return Ok(Covered::Full { nodes });
    }
    let left = tree.left;
    write_end(left, out)?;
    if left > 0 {
        return Ok(Covered::OpenBoxes { nodes, left });
    }
    Ok(Covered::Complete { nodes })
}
