//! Two covering files of one region, made into one.
ghost use Rattle.std.specs.Prelude.{◌≡◌, ◌≤◌, ◌<◌, ◌^◌, max, length, IfOk, IfErr, OnOk, IsErrOf};
ghost use Rattle.mcb_ends.specs.Causes.{HasCauseWhere};
ghost use Rattle.covering_file.specs.declared.TheConstants.{MAX_WORDS};
ghost use Rattle.covering_file.specs.declared.file_kind.FileKind.TheVariants.{Cover};
ghost use Rattle.covering_file.specs.Faults.{BeginsHeader};
ghost use Rattle.covering_file.specs.Header.{IsHeading};
ghost use Rattle.cover_merge.specs.Merge.{Merges, MergesInput, is_merge_read, AreFit, IsMerge};
ghost use Rattle.cover_merge.specs.Rounds.{AreAlike, AreTrueOrOpen};
ghost use Rattle.cover_merge.specs.Steps.{IsWordsFault, IsClaimFault, LaysTogether};
ghost use Rattle.cover_merge.specs.Union.{IsUnion};

use crate::claims::{FalseClaim, first_false};
use crate::files::read_files;
use crate::lines::{line_count, lines_before_nodes, lines_of_region};
use crate::regions::first_other_line;
use crate::renumbering::renumber;
use crate::words::{United, numbers_of, unite};
use crate::{MergeFault, fold, overlay};
use covering_claims::prepare;
use covering_file::{Header, MAX_NODES, Node, Tree};
use edge_words::Word;
use mcb_ends::Source;
use pi_bounds::Coarse;
use std::alloc::{AllocError as OutOfMemory, Global};

/// Reads two covering files of one region, one directly after the other, and makes one of at most `limit` nodes of them.
///
/// Its words are those of the first and then those of the second that are not among them, its depth the greater, and its tree a
/// fold of the overlay. The first line that offends is named: in the form of a file, in the second file's region, among its
/// words, and in what the nodes claim, in this order. `Full` names the nodes where there are more than the limit. `Read` comes
/// where the source failed, and `Memory` where there was no memory, after the first line.
pub fn merge<S: Source>(alloc: Global, limit: u32, src: &mut S) -> Result<Tree, MergeFault>
    requires at_least { 1 ≤ limit }
    requires at_most { limit ≤ MAX_NODES }
    ensures merges { MergesInput limit (S.left src.old) (S.left src.new) result }
    ensures wanting { IsErrOf result MergeFault.Memory → BeginsHeader Cover (S.left src.old) }
    ensures cause { HasCauseWhere is_merge_read (S.faults src.old) (S.faults src.new) result }
{
    let (first, second) = read_files(alloc, limit, src)?;
    merge_files(alloc, limit, first, second)
}

// Judges two files in the rounds after the first, and makes one of them.
fn merge_files(alloc: Global, limit: u32, first: Tree, second: Tree) -> Result<Tree, MergeFault>
    requires { limit ≤ MAX_NODES }
    ensures { Merges limit first second result }
{
    if let Some(same) = first_other_line(first.header(), second.header()) {
        let line = line_count(&first) + same + 1;
        return Err(MergeFault::Differs { line });
    }
    let union = unite_words(alloc, &first, &second)?;
    judge_claims(alloc, &first, &second)?;
    let merged = lay_together(alloc, first, second, union)?;
    let nodes = merged.nodes.as_slice().len() as u32;
    if nodes > limit {
        return Err(MergeFault::Full { nodes });
    }
    Ok(Tree::new(merged.header, merged.nodes))
}

// The union of the words, or the line of the word that is one too many.
fn unite_words(alloc: Global, first: &Tree, second: &Tree) -> Result<Vec<Word>, MergeFault>
    ensures union { IfOk result (λ union. IsUnion first.now.heading.words second.now.heading.words union.items × (length union.items ≤ MAX_WORDS)) }
    ensures refused { IfErr result (IsWordsFault first.now second.now) }
{
    match unite(alloc, first.header().words(), second.header().words())? {
        United::Words(union) => Ok(union),
        United::OneTooMany(before) => {
            let line = line_count(first) + lines_of_region(second.header()) + before + 2;
            Err(MergeFault::Words { line })
        }
    }
}

// Passes two files whose claims are true. Else the line of the first that fails.
fn judge_claims(alloc: Global, first: &Tree, second: &Tree) -> Result<(), MergeFault>
    ensures passed { OnOk result (AreTrueOrOpen first.now.heading first.now.nodes × AreTrueOrOpen second.now.heading second.now.nodes) }
    ensures refused { IfErr result (IsClaimFault first.now second.now) }
{
    if let Some(FalseClaim { before, reason }) = first_false(alloc, first)? {
        let line = lines_before_nodes(first.header()) + before + 1;
        return Err(MergeFault::Line { line, reason });
    }
    if let Some(FalseClaim { before, reason }) = first_false(alloc, second)? {
        let line = line_count(first) + lines_before_nodes(second.header()) + before + 1;
        return Err(MergeFault::Line { line, reason });
    }
    Ok(())
}

// A header and the nodes of a tree, of whatever number.
#[derive(Debug, Drop)]
struct Merged {
    header: Header,
    nodes: Vec<Node>,
}

// The merge of two files with the union of their words.
fn lay_together(
    alloc: Global,
    first: Tree,
    second: Tree,
    union: Vec<Word>,
) -> Result<Merged, OutOfMemory>
    requires alike { AreAlike first.heading second.heading }
    requires union { IsUnion first.heading.words second.heading.words union.items }
    requires few { length union.items ≤ MAX_WORDS }
    ensures { IfOk result (λ merged. LaysTogether first second (record { heading = merged.header; nodes = merged.nodes.items })) }
{
    let numbers = numbers_of(alloc, union.as_slice(), second.header().words());
    let (second_header, mut second_nodes) = second.parts();
    let (first_header, first_nodes) = first.parts();
    renumber(second_nodes.as_mut_slice(), numbers.as_slice());
    let header = merged_header(first_header, second_header.depth(), union);
    let mut tests = prepare::<Coarse>(alloc, &header)?;
    let laid = overlay(alloc, first_nodes.as_slice(), second_nodes.as_slice())?;
    let nodes = fold(alloc, laid.as_slice(), tests.as_mut_slice())?;
    Ok(Merged { header, nodes })
}

// The header of a file with these words, as deep as both.
fn merged_header(first: Header, depth: u32, words: Vec<Word>) -> Header
    requires { IsHeading (record { version = first.version; region = first.region; words = words.items; depth = max first.depth depth }) }
    ensures { result ≡ record { version = first.version; region = first.region; words = words.items; depth = max first.depth depth } }
{
    let (version, region, _words, first_depth) = first.parts();
    match Header::new(version, region, words, first_depth.max(depth)) {
        Ok(header) => header,
        Err(_) => unreachable!(),
    }
}
