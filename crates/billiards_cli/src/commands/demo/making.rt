//! A generated job covered in memory, and the verdict on the file that was made.
ghost use Rattle.std.specs.Prelude.{◌≡◌, List, [], ◌∷◌, ℕ, Some, IfOk};
ghost use Rattle.mcb_ends.specs.SureSource.{sure_left};
ghost use Rattle.covering_file.specs.declared.TheConstants.{MAX_NODES};
ghost use Rattle.cover_checker.specs.Verdicts.{IsRight};
ghost use Rattle.coverer.specs.Begun.{IsCover};
ghost use Rattle.billiards_cli.specs.Commands.Demo.{IsMade, covered_with};
ghost use Rattle.billiards_cli.specs.Jobs.{IsJobNumber, job_outline, job_word, job_heading};

use crate::JobNumber;
use cover_checker::{CheckFault, Verdict, check};
use coverer::{CoverFault, Covered, cover};
use covering_file::{Header, MAX_NODES};
use edge_words::Word;
use mcb_ends::{MemSink, OutOfMemory, Sink, SureSource};
use rational_polygon::{Polygon, Region};
use std::alloc::Global;

// How many bytes there are for a file. That of the largest tree of a generated job has fewer.
pub const ROOM: usize = 6_000_000;

/// How many nodes a covering has, how many of them are uncovered, and the verdict on its file.
#[derive(Clone, Copy, Debug)]
pub(crate) struct Made {
    pub nodes: u32,
    pub left: u32,
    pub verdict: Verdict,
}

/// Covers a generated job, and judges the file that was made.
pub(crate) fn make(alloc: Global, number: &JobNumber) -> Result<Made, OutOfMemory>
    ensures { IfOk result (IsMade number.now) }
{
    let mut file = MemSink::new(alloc, ROOM, ROOM, Vec::new(alloc))?;
    let size = cover_generated(alloc, number, &mut file)?;
    let mut src = SureSource::new(file.bytes().to_vec(alloc)?);
    let verdict = judge(alloc, &mut src)?;
    Ok(Made {
        nodes: size.nodes,
        left: size.left,
        verdict,
    })
}

// How many nodes a covering has, and how many of them are uncovered.
#[derive(Clone, Copy, Debug)]
pub(crate) struct Size {
    nodes: u32,
    left: u32,
}

// Covers a generated job into a sink that is empty and has room for it. It never wants more.
fn cover_generated<K: Sink>(
    alloc: Global,
    number: &JobNumber,
    out: &mut K,
) -> Result<Size, OutOfMemory>
    requires room { K.room out.old ≡ Some ROOM }
    requires empty { K.written out.old ≡ Some [] }
    requires whole { K.faults out.old ≡ 0 }
    ensures is_number { IfOk result (λ _. IsJobNumber number.now) }
    ensures covered { IfOk result (λ size. (file : List ℕ) × (K.written out.new ≡ Some file)
        × IsCover MAX_NODES (job_heading number.now) (covered_with size.nodes size.left) file) }
{
    let header = generated(alloc, number)?;
    match cover(alloc, &header, MAX_NODES, out) {
        Ok(Covered::Complete { nodes }) => Ok(Size { nodes, left: 0 }),
        Ok(Covered::OpenBoxes { nodes, left }) => Ok(Size { nodes, left }),
        Ok(Covered::Full { .. }) => unreachable!(),
        Err(CoverFault::Write) => unreachable!(),
        Err(CoverFault::Memory) => Err(OutOfMemory),
    }
}

// The verdict on the bytes of a source that never fails.
fn judge(alloc: Global, src: &mut SureSource) -> Result<Verdict, OutOfMemory>
    ensures { IfOk result (IsRight MAX_NODES (sure_left src.old)) }
{
    match check(alloc, MAX_NODES, src) {
        Ok(verdict) => Ok(verdict),
        Err(CheckFault::Read) => unreachable!(),
        Err(CheckFault::Memory) => Err(OutOfMemory),
    }
}

// What a generated job says.
fn generated(alloc: Global, number: &JobNumber) -> Result<Header, OutOfMemory>
    ensures heading { IfOk result (λ header. header ≡ job_heading number.now) }
    ensures is_number { IfOk result (λ _. IsJobNumber number.now) }
{
    let region = generated_region(alloc, number)?;
    let words = vec![in alloc; generated_word(alloc)]?;
    Ok(Header::new(1, region, words, 10).unwrap())
}

fn generated_region(alloc: Global, number: &JobNumber) -> Result<Region, OutOfMemory>
    ensures region { IfOk result (λ region. region ≡ job_outline number.now ∷ []) }
    ensures is_number { IfOk result (λ _. IsJobNumber number.now) }
{
    let polygon = generated_polygon(alloc, number)?;
    let polygons = vec![in alloc; polygon]?;
    Ok(Region::new(polygons).unwrap())
}

fn generated_polygon(alloc: Global, number: &JobNumber) -> Result<Polygon, OutOfMemory>
    ensures outline { IfOk result (λ polygon. polygon ≡ job_outline number.now) }
    ensures is_number { IfOk result (λ _. IsJobNumber number.now) }
{
    let near = number.near_side();
    let far = number.far_side();
    let corners = vec![in alloc; (near, far), (near, near), (far, near)]?;
    Ok(Polygon::new(768, corners).unwrap())
}

fn generated_word(alloc: Global) -> Word
    ensures { result ≡ job_word }
{
    Word::read(alloc, b"123123").unwrap()
}
