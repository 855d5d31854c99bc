ghost use Rattle.std.specs.Prelude.{◌≡◌, ◌≤◌, ◌↔◌, IsOk, IfOk, OnOk, IfErr, Err, MatchOption, IsTrue, All, length};
ghost use Rattle.edge_words.specs.Stable.{IsStable};
ghost use Rattle.edge_words.specs.Word.{IsWord};
ghost use Rattle.covering_file.specs.Header.{IsVersionFor, IsStableWord, IsWordCount, IsDepth, IsHeading};
ghost use Rattle.covering_file.specs.Faults.{IsFirstUnstable, IsFaultIn, IsFaultOf};
ghost use Rattle.covering_file.specs.declared.fault.HeaderFault.{HeaderFault};

use crate::{HeaderFault, MAX_WORDS};
use edge_words::Word;
use rational_polygon::{MAX_LEVEL, Region};
use std::marker::Model;

/// A region, 1 to 32 stable words and a depth from 0 to 20: what a covering is of, what it may use, and how deep its tree may be.
/// And the version of the format in which this is said: version 1 has one polygon, versions 2 and 3 any region.
#[derive(Debug, Drop)]
pub struct Header {
    version: u8,
    region: Region,
    words: Vec<Word>,
    depth: u32,
}

impl Model for Header {
    ghost use Rattle.covering_file.specs.Header.{Heading, IsHeading};

    ghost Value = { Heading };

    ghost view = { λ h. record { version = h.version; region = h.region; words = h.words.items; depth = h.depth } };

    ghost invariant = { λ h. IsHeading (record { version = h.version; region = h.region; words = h.words.items; depth = h.depth }) };
}

impl Header {
    /// The header with these parts. It keeps them; where they make no header, they are dropped. It takes no memory.
    pub fn new(
        version: u8,
        region: Region,
        words: Vec<Word>,
        depth: u32,
    ) -> Result<Header, HeaderFault>
        ensures heading { IsOk result ↔ IsHeading (record { version = version; region = region; words = words.items; depth = depth }) }
        ensures kept { IfOk result (λ header. header ≡ record { version = version; region = region; words = words.items; depth = depth }) }
        ensures refused { (fault : HeaderFault) → (result ≡ Err fault)
            ↔ IsFaultOf (record { version = version; region = region; words = words.items; depth = depth }) fault }
    {
        if !is_version_for(version, region.polygons().len()) {
            return Err(HeaderFault::Version);
        }
        match check_words(words.as_slice(), depth) {
            Ok(()) => Ok(Header {
                version,
                region,
                words,
                depth,
            }),
            Err(fault) => Err(fault),
        }
    }

    /// The version of the format, from 1 to 3.
    pub fn version(&self) -> u8
        ensures value { result ≡ self.now.version }
        ensures is_heading { IsHeading self.now }
    {
        self.version
    }

    /// The region.
    pub fn region(&self) -> &Region
        ensures value { result.now ≡ self.now.region }
        ensures is_heading { IsHeading self.now }
    {
        &self.region
    }

    /// The words, each stable, counted from 1 in a file.
    pub fn words(&self) -> &[Word]
        ensures all { result.now ≡ self.now.words }
        ensures is_heading { IsHeading self.now }
    {
        self.words.as_slice()
    }

    /// How deep the tree may be.
    pub fn depth(&self) -> u32
        ensures value { result ≡ self.now.depth }
        ensures is_heading { IsHeading self.now }
    {
        self.depth
    }

    /// The version, the region, the words and the depth. It takes no memory.
    pub fn parts(self) -> (u8, Region, Vec<Word>, u32)
        ensures version { result.0 ≡ self.version }
        ensures region { result.1 ≡ self.region }
        ensures words { result.2.items ≡ self.words }
        ensures depth { result.3 ≡ self.depth }
        ensures is_heading { IsHeading self }
    {
        let Header {
            version,
            region,
            words,
            depth,
        } = self;
        (version, region, words, depth)
    }

    /// The same in another version of the format, in which a file may have its region. It takes no memory.
    pub(crate) fn in_version(self, version: u8) -> Header
        requires { IsVersionFor version (length self.region) }
        ensures { result ≡ record { version = version; region = self.region; words = self.words; depth = self.depth } }
    {
        Header { version, ..self }
    }
}

// Whether a file of this version may have so many polygons.
fn is_version_for(version: u8, polygons: usize) -> bool
    ensures { IsTrue result ↔ IsVersionFor version polygons }
{
    match version {
        1 => polygons == 1,
        2 | 3 => true,
        _ => false,
    }
}

// Passes the words and the depth of a header. Else the first condition that fails.
fn check_words(words: &[Word], depth: u32) -> Result<(), HeaderFault>
    ensures passed { OnOk result (IsWordCount (length words.now) × All IsStableWord words.now × IsDepth depth) }
    ensures refused { IfErr result (IsFaultIn words.now depth) }
{
    if !(1..=MAX_WORDS as usize).contains(&words.len()) {
        return Err(HeaderFault::Words);
    }
    if let Some(i) = first_unstable(words) {
        return Err(HeaderFault::Unstable { i });
    }
    if depth > MAX_LEVEL {
        return Err(HeaderFault::Depth);
    }
    Ok(())
}

// The number of the first word that is not stable.
fn first_unstable(words: &[Word]) -> Option<u32>
    requires { length words.now ≤ MAX_WORDS }
    ensures { MatchOption result (All IsStableWord words.now) (IsFirstUnstable words.now) }
{
    for (k, word) in words.iter().enumerate() {
        if !is_stable(word) {
            return Some(k as u32 + 1);
        }
    }
    None
}

// Whether a word is stable.
fn is_stable(word: &Word) -> bool
    ensures is_word { IsWord word.now }
    ensures stable { IsTrue result ↔ IsStable word.now }
{
    // What it answers tells the check that they are those of a word.
    let _letters = word.letters();
    word.is_stable()
}
