ghost use Rattle.std.specs.Prelude.{◌≡◌, ◌≤◌, length, map};
ghost use Rattle.std.specs.List.{flat_map};
ghost use Rattle.mcb_ends.specs.Bytes.{Writes};
ghost use Rattle.mcb_ends.specs.Causes.{HasCause};
ghost use Rattle.edge_words.specs.Reading.{digits_of};
ghost use Rattle.covering_file.specs.Header.{corner_line, polygon_lines, count_lines, region_lines, words_lines, first_line, header_text};
ghost use Rattle.covering_file.specs.Header.{IsVersion};
ghost use Rattle.covering_file.specs.Node.{node_line, end_line};
ghost use Rattle.line_grammar.specs.Text.{named_line, text_of, with_newline};

use crate::{FileKind, Header, MAX_WORDS, Node};
use edge_words::Word;
use mcb_ends::{Decimal, Failed, Sink, put, put_all};
use rational_polygon::{Polygon, Region};

/// Writes the lines of a header, from the first to the depth, or a prefix of them and fails. It takes no memory.
pub fn write_header<K: Sink>(header: &Header, kind: FileKind, out: &mut K) -> Result<(), Failed>
    ensures text { Writes (K.written out.old) (K.written out.new) result (header_text kind header.now) }
    ensures room { K.room out.new ≡ K.room out.old }
    ensures cause { HasCause (K.faults out.old) (K.faults out.new) result }
{
    let version = header.version();
    write_first(kind, version, out)?;
    write_region(version, header.region(), out)?;
    write_words(header.words(), out)?;
    write_named(b"depth", header.depth(), out)
}

/// Writes the line of a node, or a prefix of it and fails. It takes no memory.
pub fn write_node<K: Sink>(node: Node, out: &mut K) -> Result<(), Failed>
    ensures text { Writes (K.written out.old) (K.written out.new) result (with_newline (node_line node)) }
    ensures room { K.room out.new ≡ K.room out.old }
    ensures cause { HasCause (K.faults out.old) (K.faults out.new) result }
{
    match node {
        Node::Split => put(out, b"s\n"),
        Node::Outside => put(out, b"o\n"),
        Node::Shown(i) => write_named(b"w", i, out),
        Node::Corner(i) => write_named(b"q", i, out),
        Node::Uncovered => put(out, b"u\n"),
    }
}

/// Writes the end line of a tree with so many uncovered leaves, or a prefix of it and fails. It takes no memory.
pub fn write_end<K: Sink>(uncovered: u32, out: &mut K) -> Result<(), Failed>
    ensures text { Writes (K.written out.old) (K.written out.new) result (with_newline (end_line uncovered)) }
    ensures room { K.room out.new ≡ K.room out.old }
    ensures cause { HasCause (K.faults out.old) (K.faults out.new) result }
{
    match uncovered {
        0 => put(out, b"end complete\n"),
        _ => write_named(b"end open", uncovered, out),
    }
}

fn write_first<K: Sink>(kind: FileKind, version: u8, out: &mut K) -> Result<(), Failed>
    ensures text { Writes (K.written out.old) (K.written out.new) result (with_newline (first_line kind version)) }
    ensures room { K.room out.new ≡ K.room out.old }
    ensures cause { HasCause (K.faults out.old) (K.faults out.new) result }
{
    match kind {
        FileKind::Cover => write_named(b"mcbcover", u32::from(version), out),
        FileKind::Job => write_named(b"mcbjob", u32::from(version), out),
    }
}

// A name and a number.
fn write_named<K: Sink>(name: &[u8], number: u32, out: &mut K) -> Result<(), Failed>
    ensures text { Writes (K.written out.old) (K.written out.new) result (with_newline (named_line name.now number)) }
    ensures room { K.room out.new ≡ K.room out.old }
    ensures cause { HasCause (K.faults out.old) (K.faults out.new) result }
{
    let digits = Decimal::new(u64::from(number));
    put_all(out, &[name, b" ", digits.digits(), b"\n"])
}

fn write_region<K: Sink>(version: u8, region: &Region, out: &mut K) -> Result<(), Failed>
    requires { IsVersion version }
    ensures text { Writes (K.written out.old) (K.written out.new) result (text_of (region_lines version region.now)) }
    ensures room { K.room out.new ≡ K.room out.old }
    ensures cause { HasCause (K.faults out.old) (K.faults out.new) result }
{
    let polygons = region.polygons();
    write_named(b"grid", polygons[0].grid(), out)?;
    write_count(version, polygons.len() as u32, out)?;
    write_polygons(polygons, out)
}

// Version 1 does not say that it has one polygon.
fn write_count<K: Sink>(version: u8, polygons: u32, out: &mut K) -> Result<(), Failed>
    requires { IsVersion version }
    ensures text { Writes (K.written out.old) (K.written out.new) result (text_of (count_lines version polygons)) }
    ensures room { K.room out.new ≡ K.room out.old }
    ensures cause { HasCause (K.faults out.old) (K.faults out.new) result }
{
    match version {
        1 => Ok(()),
        _ => write_named(b"regions", polygons, out),
    }
}

fn write_polygons<K: Sink>(polygons: &[Polygon], out: &mut K) -> Result<(), Failed>
    ensures text { Writes (K.written out.old) (K.written out.new) result (text_of (flat_map polygon_lines polygons.now)) }
    ensures room { K.room out.new ≡ K.room out.old }
    ensures cause { HasCause (K.faults out.old) (K.faults out.new) result }
{
    for polygon in polygons {
        write_polygon(polygon, out)?;
    }
    Ok(())
}

fn write_polygon<K: Sink>(polygon: &Polygon, out: &mut K) -> Result<(), Failed>
    ensures text { Writes (K.written out.old) (K.written out.new) result (text_of (polygon_lines polygon.now)) }
    ensures room { K.room out.new ≡ K.room out.old }
    ensures cause { HasCause (K.faults out.old) (K.faults out.new) result }
{
    let corners = polygon.corners();
    write_named(b"polygon", corners.len() as u32, out)?;
    write_corners(corners, out)
}

fn write_corners<K: Sink>(corners: &[(u32, u32)], out: &mut K) -> Result<(), Failed>
    ensures text { Writes (K.written out.old) (K.written out.new) result (text_of (map corner_line corners.now)) }
    ensures room { K.room out.new ≡ K.room out.old }
    ensures cause { HasCause (K.faults out.old) (K.faults out.new) result }
{
    for corner in corners {
        write_corner(*corner, out)?;
    }
    Ok(())
}

fn write_corner<K: Sink>(corner: (u32, u32), out: &mut K) -> Result<(), Failed>
    ensures text { Writes (K.written out.old) (K.written out.new) result (with_newline (corner_line corner)) }
    ensures room { K.room out.new ≡ K.room out.old }
    ensures cause { HasCause (K.faults out.old) (K.faults out.new) result }
{
    let x = Decimal::new(u64::from(corner.0));
    let y = Decimal::new(u64::from(corner.1));
    put_all(out, &[x.digits(), b" ", y.digits(), b"\n"])
}

fn write_words<K: Sink>(words: &[Word], out: &mut K) -> Result<(), Failed>
    requires { length words.now ≤ MAX_WORDS }
    ensures text { Writes (K.written out.old) (K.written out.new) result (text_of (words_lines words.now)) }
    ensures room { K.room out.new ≡ K.room out.old }
    ensures cause { HasCause (K.faults out.old) (K.faults out.new) result }
{
    write_named(b"words", words.len() as u32, out)?;
    write_letters(words, out)
}

fn write_letters<K: Sink>(words: &[Word], out: &mut K) -> Result<(), Failed>
    ensures text { Writes (K.written out.old) (K.written out.new) result (text_of (map digits_of words.now)) }
    ensures room { K.room out.new ≡ K.room out.old }
    ensures cause { HasCause (K.faults out.old) (K.faults out.new) result }
{
    for word in words {
        write_word(word, out)?;
    }
    Ok(())
}

fn write_word<K: Sink>(word: &Word, out: &mut K) -> Result<(), Failed>
    ensures text { Writes (K.written out.old) (K.written out.new) result (with_newline (digits_of word.now)) }
    ensures room { K.room out.new ≡ K.room out.old }
    ensures cause { HasCause (K.faults out.old) (K.faults out.new) result }
{
    word.write(out)?;
    put(out, b"\n")
}
