//! The command `search`: the words that were shown to be open at a triangle.
ghost use Rattle.std.specs.Prelude.{◌≡◌, ◌⊎◌, ◌++◌, ℕ, List, Option};
ghost use Rattle.std.specs.List.{flat_map};
ghost use Rattle.mcb_ends.specs.Bytes.{Writes};
ghost use Rattle.mcb_ends.specs.Causes.{HasCause};
ghost use Rattle.billiards_cli.specs.Commands.Search.{search_request, search_text, word_line};
ghost use Rattle.billiards_cli.specs.Requests.{command_of};
ghost use Rattle.billiards_cli.specs.Services.{Serves};

use crate::end_line::write_end;
use crate::request::Request;
use crate::rest::Rest;
use crate::status::after_writing;
use crate::{SearchBound, Status, Triangle};
use edge_words::Word;
use mcb_ends::{Failed, OutOfMemory, Sink, put};
use std::alloc::Global;

/// It takes the three numbers of a triangle and a bound.
pub(crate) fn request<'a>(arguments: &Rest<'a>) -> Option<Request<'a>>
    ensures { result ≡ search_request arguments.now }
{
    if arguments.len() != 4 {
        return None;
    }
    let triangle = Triangle::read(arguments.get(0), arguments.get(1), arguments.get(2))?;
    let bound = SearchBound::read(arguments.get(3))?;
    Some(Request::Search { triangle, bound })
}

/// Writes the words that were shown to be open at a triangle, once all are found. It reads nothing.
pub(crate) fn search<K: Sink>(
    alloc: Global,
    triangle: &Triangle,
    bound: &SearchBound,
    out: &mut K,
) -> Status
    ensures unwritten { (result ≡ Status.ReadFault) ⊎ (result ≡ Status.OutOfMemory) → out.new ≡ out.old }
    ensures room { K.room out.new ≡ K.room out.old }
    ensures serves { (left : Option (List ℕ)) (faults : ℕ) → Serves (command_of (Request.Search triangle.now bound.now))
        (record { left = left; source_faults = faults; written = K.written out.old; sink_faults = K.faults out.old })
        (record { left = left; source_faults = faults; written = K.written out.new; sink_faults = K.faults out.new })
        result }
{
    match word_search::search(alloc, triangle.first(), triangle.second(), bound.get()) {
        Ok(words) => after_writing(Status::Done, write_list(words.as_slice(), out)),
        Err(OutOfMemory) => Status::OutOfMemory,
    }
}

// Writes the words and their number.
fn write_list<K: Sink>(words: &[Word], out: &mut K) -> Result<(), Failed>
    ensures text { Writes (K.written out.old) (K.written out.new) result (search_text words.now) }
    ensures room { K.room out.new ≡ K.room out.old }
    ensures cause { HasCause (K.faults out.old) (K.faults out.new) result }
{
    write_words(words, out)?;
    write_end(words.len(), out)
}

fn write_words<K: Sink>(words: &[Word], out: &mut K) -> Result<(), Failed>
    ensures text { Writes (K.written out.old) (K.written out.new) result (flat_map word_line words.now) }
    ensures room { K.room out.new ≡ K.room out.old }
    ensures cause { HasCause (K.faults out.old) (K.faults out.new) result }
{
    for word in words {
        write_word(word, out)?;
    }
    Ok(())
}

fn write_word<K: Sink>(word: &Word, out: &mut K) -> Result<(), Failed>
    ensures text { Writes (K.written out.old) (K.written out.new) result (word_line word.now) }
    ensures room { K.room out.new ≡ K.room out.old }
    ensures cause { HasCause (K.faults out.old) (K.faults out.new) result }
{
    word.write(out)?;
    put(out, b"\n")
}
