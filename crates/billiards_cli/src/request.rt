//! What the arguments of a command line ask for: one row, one variant and one arm a command.
ghost use Rattle.std.specs.Prelude.{◌≡◌, ◌⊎◌};
ghost use Rattle.std.specs.Bool.{OnFalse};
ghost use Rattle.billiards_cli.specs.Command.{reads_input};
ghost use Rattle.billiards_cli.specs.Requests.{request_of, command_of};
ghost use Rattle.billiards_cli.specs.Services.{Serves};

use crate::commands::at::{self, at};
use crate::commands::check::{self, check};
use crate::commands::cover::{self, cover};
use crate::commands::demo::{self, demo};
use crate::commands::draw::{self, draw};
use crate::commands::family::at_triangle::family_at;
use crate::commands::family::{self, family};
use crate::commands::job::{self, job};
use crate::commands::merge::{self, merge};
use crate::commands::path::picture::drawn_path;
use crate::commands::path::{self, path};
use crate::commands::points::{self, points};
use crate::commands::search::{self, search};
use crate::commands::tile::{self, tile};
use crate::commands::unfold::{self, unfold};
use crate::commands::upgrade::{self, upgrade};
use crate::commands::word::{self, word};
use crate::{
    Args, FamilyArgument, JobNumber, SearchBound, Status, TileDepth, Triangle, UpgradeVersion,
    WordArgument,
};
use mcb_ends::{Sink, Source};
use std::alloc::Global;

/// A command with its arguments.
#[derive(Drop)]
pub(crate) enum Request<'a> {
    /// The shift of a word that is read from the input.
    Word,
    /// The verdict on a covering file that is read from the input.
    Check,
    /// Whether the corridor of a word is open at a triangle.
    At {
        word: WordArgument<'a>,
        triangle: Triangle,
    },
    /// A covering file for a job that is read from the input.
    Cover,
    /// The generated job of a number.
    Job(JobNumber),
    /// The covering of a generated job, and the verdict on it.
    Demo(JobNumber),
    /// The words that are open at a triangle.
    Search {
        triangle: Triangle,
        bound: SearchBound,
    },
    /// The picture of a word's tile.
    Tile {
        word: WordArgument<'a>,
        depth: TileDepth,
    },
    /// The picture of a word's unfolding in a triangle.
    Unfold {
        word: WordArgument<'a>,
        triangle: Triangle,
    },
    /// A covering file that is read from the input, in a later version.
    Upgrade(UpgradeVersion),
    /// The corners of a word's unfolding in a triangle, as numbers.
    Points {
        word: WordArgument<'a>,
        triangle: Triangle,
    },
    /// Two covering files of one region that are read from the input, made into one.
    Merge,
    /// The bounce points of a word's path in a triangle.
    Path {
        word: WordArgument<'a>,
        triangle: Triangle,
    },
    /// The picture of a word's path in a triangle.
    DrawnPath {
        word: WordArgument<'a>,
        triangle: Triangle,
    },
    /// The shifts of all members of a family.
    Family(FamilyArgument<'a>),
    /// The members of a family that are open at a triangle.
    FamilyAt {
        family: FamilyArgument<'a>,
        triangle: Triangle,
    },
    /// The picture of a covering file that is read from the input.
    Draw,
}

/// The request of a command line: its first argument is the name of a command.
pub(crate) fn parse(arguments: &Args) -> Option<Request<'_>>
    ensures { result ≡ request_of arguments.now }
{
    let (name, arguments) = arguments.named()?;
    if name == b"word".as_slice() {
        word::request(&arguments)
    } else if name == b"check".as_slice() {
        check::request(&arguments)
    } else if name == b"at".as_slice() {
        at::request(&arguments)
    } else if name == b"cover".as_slice() {
        cover::request(&arguments)
    } else if name == b"job".as_slice() {
        job::request(&arguments)
    } else if name == b"demo".as_slice() {
        demo::request(&arguments)
    } else if name == b"search".as_slice() {
        search::request(&arguments)
    } else if name == b"tile".as_slice() {
        tile::request(&arguments)
    } else if name == b"unfold".as_slice() {
        unfold::request(&arguments)
    } else if name == b"upgrade".as_slice() {
        upgrade::request(&arguments)
    } else if name == b"points".as_slice() {
        points::request(&arguments)
    } else if name == b"merge".as_slice() {
        merge::request(&arguments)
    } else if name == b"path".as_slice() {
        path::request(&arguments)
    } else if name == b"family".as_slice() {
        family::request(&arguments)
    } else if name == b"draw".as_slice() {
        draw::request(&arguments)
    } else {
        None
    }
}

/// Does what is asked for.
pub(crate) fn obey<S: Source, K: Sink>(
    alloc: Global,
    request: &Request,
    src: &mut S,
    out: &mut K,
) -> Status
    ensures idle { OnFalse (reads_input (command_of request.now).reads) (src.new ≡ src.old) }
    ensures unwritten { (result ≡ Status.ReadFault) ⊎ (result ≡ Status.OutOfMemory) → out.new ≡ out.old }
    ensures room { K.room out.new ≡ K.room out.old }
    ensures serves { Serves (command_of request.now)
        (record { left = S.left src.old; source_faults = S.faults src.old; written = K.written out.old; sink_faults = K.faults out.old })
        (record { left = S.left src.new; source_faults = S.faults src.new; written = K.written out.new; sink_faults = K.faults out.new })
        result }
{
    match request {
        Request::Word => word(alloc, src, out),
        Request::Check => check(alloc, src, out),
        Request::At { word, triangle } => at(alloc, word, triangle, out),
        Request::Cover => cover(alloc, src, out),
        Request::Job(number) => job(number, out),
        Request::Demo(number) => demo(alloc, number, out),
        Request::Search { triangle, bound } => search(alloc, triangle, bound, out),
        Request::Tile { word, depth } => tile(alloc, word, depth, out),
        Request::Unfold { word, triangle } => unfold(alloc, word, triangle, out),
        Request::Upgrade(version) => upgrade(alloc, version, src, out),
        Request::Points { word, triangle } => points(alloc, word, triangle, out),
        Request::Merge => merge(alloc, src, out),
        Request::Path { word, triangle } => path(alloc, word, triangle, out),
        Request::DrawnPath { word, triangle } => drawn_path(alloc, word, triangle, out),
        Request::Family(argument) => family(alloc, argument, out),
        Request::FamilyAt {
            family: argument,
            triangle,
        } => family_at(alloc, argument, triangle, out),
        Request::Draw => draw(alloc, src, out),
    }
}
