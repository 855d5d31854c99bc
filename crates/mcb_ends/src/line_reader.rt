ghost use Rattle.std.specs.Prelude.{◌==◌, position, ◌≡◌, ◌+◌, ◌-◌, ◌^◌, ◌<◌, ◌≤◌, [], false, true, length, take, drop, MatchResult, IsOk, IfOk, OnErr};
ghost use Rattle.std.specs.Borrow.{sem};
ghost use Rattle.std.specs.Io.BufRead.{Rests};
ghost use Rattle.std.specs.Io.KnownBytes.{ReadConsumes};
ghost use Rattle.mcb_ends.specs.Causes.{HasCause};
ghost use Rattle.mcb_ends.specs.Lines.{newline, next_of};

use crate::{Failed, Line, Source};
use std::marker::Model;

// How many bytes a reader holds at most.
const SIZE: usize = 4096;

// How long a line is at most, without its newline.
const MAX_LEN: usize = 80;

/// Hands out the lines of a source, one after the other, with a buffer of 4,096 bytes and no memory.
#[derive(Drop)]
pub struct LineReader {
    bytes: [u8; SIZE],
    line: usize,
    stop: usize,
    start: usize,
    end: usize,
    is_done: bool,
    number: u32,
}

// What stands next. The text of a line is the reader's.
enum Found {
    Text,
    TooLong,
    CutShort,
    End,
}

impl Model for LineReader {
    ghost use Rattle.std.specs.Prelude.{◌≤◌, slice_range};
    ghost use Rattle.mcb_ends.specs.Reader.{Reader};

    ghost Value = { Reader };

    ghost view = { λ r. record { line = slice_range r.bytes r.line r.stop; held = slice_range r.bytes r.start r.end; is_done = r.is_done; number = r.number } };

    ghost invariant = { λ r. (r.line ≤ r.stop) × (r.stop ≤ r.start) × (r.start ≤ r.end) × (r.end ≤ 4096) };
}

impl LineReader {
    ghost use Rattle.mcb_ends.specs.Advance.{FillsBehind, next_found};
    ghost use Rattle.mcb_ends.specs.Reader.{HandsOut, IsInHand, IsUnchanged, ReadsOneBuffer};
    ghost use Rattle.mcb_ends.specs.contracts.line_reader.LineReader.{the_row};

    /// A reader that holds nothing yet.
    pub fn new() -> LineReader
        ensures held { result.held ≡ [] }
        ensures done { result.is_done ≡ false }
        ensures number { result.number ≡ 0 }
    {
        LineReader {
            bytes: [0; SIZE],
            line: 0,
            stop: 0,
            start: 0,
            end: 0,
            is_done: false,
            number: 0,
        }
    }

    /// How many lines it handed out as `Text`.
    pub fn number(&self) -> u32
        ensures { result ≡ self.now.number }
    {
        self.number
    }

    /// Hands out the next line. After any answer but a text, each later call answers the end of
    /// input. At `Failed` the reader keeps its bytes, and the next call goes on from there.
    pub fn next<S: Source>(&mut self, src: &mut S) -> Result<Line<'_>, Failed>
        requires { self.old.number + 1 < 2 ^ 32 }
        ensures cause { HasCause (S.faults src.old) (S.faults src.new) result }
        ensures ahead { ReadsOneBuffer self.old (S.left src.old) (S.left src.new) }

        // A reader that is done answers the end, and leaves the source alone.
        ensures idle { self.old.is_done ≡ true → (result ≡ Ok Line.End) × (src.new ≡ src.old) }

        // So does one whose bytes tell what stands next.
        ensures in_hand { IsInHand self.old → IsOk result × (src.new ≡ src.old) }

        // What the reader is once the line is let go.
        ensures* after { sem 𝓛 (Rests the_row self.entry (λ new. MatchResult result
            (λ line. HandsOut self.old new (S.left src.old) (S.left src.new) (next_of line))
            (λ _. IsUnchanged self.old new (S.left src.old) (S.left src.new)))) }
    {
        match self.advance(src)? {
            Found::Text => Ok(Line::Text(self.line())),
            Found::TooLong => Ok(Line::TooLong),
            Found::CutShort => Ok(Line::CutShort),
            Found::End => Ok(Line::End),
        }
    }

    // Finds what stands next, and skips it.
    fn advance<S: Source>(&mut self, src: &mut S) -> Result<Found, Failed>
        requires { self.old.number + 1 < 2 ^ 32 }
        ensures ok { IfOk result (λ found. HandsOut self.old self.new
            (S.left src.old) (S.left src.new) (next_found self.new.line found)) }
        ensures err { OnErr result (IsUnchanged self.old self.new (S.left src.old) (S.left src.new)) }
        ensures cause { HasCause (S.faults src.old) (S.faults src.new) result }
        ensures ahead { ReadsOneBuffer self.old (S.left src.old) (S.left src.new) }
        ensures idle { self.old.is_done ≡ true → (result ≡ Ok Found.End) × (src.new ≡ src.old) }
        ensures in_hand { IsInHand self.old → IsOk result × (src.new ≡ src.old) }
    {
        if self.is_done {
            return Ok(Found::End);
        }
        loop {
            if let Some(len) = line_end(self.held()) {
                self.take_line(len);
                return Ok(Found::Text);
            }
            let held = self.held().len();
            if held > MAX_LEN {
                self.finish();
                return Ok(Found::TooLong);
            }
            if self.fill(src)? == 0 {
                self.finish();
                return Ok(if held == 0 {
                    Found::End
                } else {
                    Found::CutShort
                });
            }
        }
    }

    // The line that it handed out last.
    fn line(&self) -> &[u8]
        ensures { result.now ≡ self.now.line }
    {
        &self.bytes[self.line..self.stop]
    }

    // The bytes that it holds.
    fn held(&self) -> &[u8]
        ensures held { result.now ≡ self.now.held }
        ensures fits { length self.now.held ≤ 4096 }
    {
        &self.bytes[self.start..self.end]
    }

    // Hands out the first bytes that it holds, and skips the newline after them.
    fn take_line(&mut self, len: usize)
        requires room { len < length self.old.held }
        requires few { self.old.number + 1 < 2 ^ 32 }
        ensures line { self.new.line ≡ take len self.old.held }
        ensures held { self.new.held ≡ drop (len + 1) self.old.held }
        ensures done { self.new.is_done ≡ self.old.is_done }
        ensures number { self.new.number ≡ self.old.number + 1 }
    {
        self.line = self.start;
        self.stop = self.start + len;
        self.start = self.stop + 1;
        self.number += 1;
    }

    // From now on it answers the end of input.
    fn finish(&mut self)
        ensures done { self.new.is_done ≡ true }
        ensures number { self.new.number ≡ self.old.number }
    {
        self.is_done = true;
    }

    // Reads more bytes after those that it holds, and answers how many. 0 is the end of input.
    fn fill<S: Source>(&mut self, src: &mut S) -> Result<usize, Failed>
        requires { length self.old.held < 4096 }
        ensures bytes { FillsBehind self.old.held self.new.held (S.left src.old) (S.left src.new) result }
        ensures fits { length self.new.held ≤ 4096 }
        ensures done { self.new.is_done ≡ self.old.is_done }
        ensures number { self.new.number ≡ self.old.number }
        ensures cause { HasCause (S.faults src.old) (S.faults src.new) result }
    {
        let held = self.end - self.start;
        self.bytes.copy_within(self.start..self.end, 0);
        self.line = 0;
        self.stop = 0;
        self.start = 0;
        self.end = held;
        let count = read_after(&mut self.bytes, held, src)?;
        self.end = held + count;
        Ok(count)
    }
}

// The place of the first newline among the first 81 bytes.
fn line_end(bytes: &[u8]) -> Option<usize>
    ensures { result ≡ position (λ byte. byte == newline) (take 81 bytes.now) }
{
    bytes
        .iter()
        .take(MAX_LEN + 1)
        .position(|byte| *byte == b'\n')
}

// Reads after the first bytes of a buffer, and answers how many.
fn read_after<S: Source>(buf: &mut [u8], at: usize, src: &mut S) -> Result<usize, Failed>
    requires { at ≤ length buf.old }
    ensures len { length buf.new ≡ length buf.old }
    ensures front { take at buf.new ≡ take at buf.old }
    ensures bound { IfOk result (λ n. at + n ≤ length buf.old) }
    ensures bytes { ReadConsumes (S.left src.old) (S.left src.new) result (drop at buf.new) }
    ensures cause { HasCause (S.faults src.old) (S.faults src.new) result }
{
    src.read(&mut buf[at..])
}
