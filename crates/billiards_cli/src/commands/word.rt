//! The command `word`: the shift of a word that is read from the input.
ghost use Rattle.std.specs.Prelude.{◌≡◌, ◌⊎◌, ℕ, List, Option};
ghost use Rattle.std.specs.Io.KnownBytes.{IsAtEnd};
ghost use Rattle.mcb_ends.specs.Causes.{HasCause, HasCauseWhere};
ghost use Rattle.edge_words.specs.Stable.{IsStable};
ghost use Rattle.edge_words.specs.Word.{IsWord};
ghost use Rattle.line_grammar.specs.Faults.{refusal_of, is_read};
ghost use Rattle.line_grammar.specs.Input.{MayBe};
ghost use Rattle.line_grammar.specs.Reading.{ReadsInput};
ghost use Rattle.line_grammar.specs.Text.{text_of};
ghost use Rattle.billiards_cli.specs.Commands.Word.{WritesShift, word_input, word_request};
ghost use Rattle.billiards_cli.specs.Requests.{command_of};
ghost use Rattle.billiards_cli.specs.Services.{Serves};

pub(crate) mod shift;
mod word_line;

use crate::Status;
use crate::refusal::write_refusal;
use crate::request::Request;
use crate::rest::Rest;
use crate::status::after_writing;
use edge_words::Word;
use line_grammar::{LineFault, end_of_input, take};
use mcb_ends::{Failed, LineReader, OutOfMemory, Sink, Source, put};
use shift::write_shift;
use std::alloc::Global;
use unfolding::Unfolding;
use word_line::WordLine;

/// It takes no arguments.
pub(crate) fn request<'a>(arguments: &Rest<'a>) -> Option<Request<'a>>
    ensures { result ≡ word_request arguments.now }
{
    if arguments.len() == 0 {
        Some(Request::Word)
    } else {
        None
    }
}

/// Reads a word and writes its shift, or refuses the first line that offends.
pub(crate) fn word<S: Source, K: Sink>(alloc: Global, src: &mut S, out: &mut K) -> Status
    ensures unwritten { (result ≡ Status.ReadFault) ⊎ (result ≡ Status.OutOfMemory) → out.new ≡ out.old }
    ensures room { K.room out.new ≡ K.room out.old }
    ensures serves { Serves (command_of Request.Word)
        (record { left = S.left src.old; source_faults = S.faults src.old; written = K.written out.old; sink_faults = K.faults out.old })
        (record { left = S.left src.new; source_faults = S.faults src.new; written = K.written out.new; sink_faults = K.faults out.new })
        result }
{
    match read_input(alloc, src) {
        Ok(word) => answer(alloc, &word, out),
        Err(LineFault::Line { line, reason }) => {
            after_writing(Status::Malformed, write_refusal(line, reason, out))
        }
        Err(LineFault::Read) => Status::ReadFault,
    }
}

// Reads the one line of the input. Nothing may stand after it.
fn read_input<S: Source>(alloc: Global, src: &mut S) -> Result<Word, LineFault>
    ensures reads { ReadsInput word_input refusal_of (S.left src.old) (S.left src.new) result }
    ensures cause { HasCauseWhere is_read (S.faults src.old) (S.faults src.new) result }
{
    let mut lines = LineReader::new();
    let word = take(&WordLine { alloc }, &mut lines, src)?;
    end_of_input(&mut lines, src)?;
    Ok(word)
}

// Writes the shift of a word, or that it has none. Only a stable word takes memory.
fn answer<K: Sink>(alloc: Global, word: &Word, out: &mut K) -> Status
    requires { IsWord word.now }
    ensures unwritten { (result ≡ Status.ReadFault) ⊎ (result ≡ Status.OutOfMemory) → out.new ≡ out.old }
    ensures room { K.room out.new ≡ K.room out.old }
    ensures serves { (left left' : Option (List ℕ)) (faults faults' : ℕ)
        → MayBe left (text_of (word_input.lines_of word.now)) → IsAtEnd left' → faults' ≡ faults
        → Serves (command_of Request.Word)
        (record { left = left; source_faults = faults; written = K.written out.old; sink_faults = K.faults out.old })
        (record { left = left'; source_faults = faults'; written = K.written out.new; sink_faults = K.faults out.new })
        result }
{
    if !word.is_stable() {
        return after_writing(Status::Done, put(out, b"unstable\n"));
    }
    match Unfolding::of(alloc, word) {
        Ok(unfolding) => after_writing(Status::Done, write_shift_of(&unfolding, out)),
        Err(OutOfMemory) => Status::OutOfMemory,
    }
}

fn write_shift_of<K: Sink>(unfolded: &Unfolding, out: &mut K) -> Result<(), Failed>
    requires { IsStable unfolded.now }
    ensures text { WritesShift unfolded.now (K.written out.old) (K.written out.new) result }
    ensures room { K.room out.new ≡ K.room out.old }
    ensures cause { HasCause (K.faults out.old) (K.faults out.new) result }
{
    match unfolded.shift() {
        Some(shift) => write_shift(shift, out),
        None => unreachable!(),
    }
}
