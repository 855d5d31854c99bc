//! The program `mcb`: a workbench for periodic billiard paths in triangles.
//!
//! The contract of the crate is that of [`run`]: by the arguments of the command line, what is read and written, which
//! status the process ends with, and which fault of the outside may be laid to it.
#![tactic(auto)]

mod args;
mod blocks;
mod commands;
mod end_line;
mod family_argument;
mod job_number;
pub mod laws;
mod number;
mod program;
mod refusal;
mod request;
mod rest;
mod search_bound;
mod status;
#[cfg(test)]
mod tests;
mod tile_depth;
mod triangle;
mod upgrade_version;
mod usage;
mod whole_file;
mod word_argument;

pub use args::Args;
use family_argument::FamilyArgument;
use job_number::JobNumber;
use mcb_ends::{StdSink, StdSource};
pub use program::run;
use search_bound::SearchBound;
pub use status::Status;
use std::alloc::Global;
use std::env::Env;
use std::process::ExitCode;
use std::{env, io};
use tile_depth::TileDepth;
use triangle::Triangle;
use upgrade_version::UpgradeVersion;
use usage::USAGE;
use word_argument::WordArgument;

fn main(rt: HostRuntime) -> ExitCode {
    let status = match arguments_of(&rt) {
        Ok(arguments) => run_over_streams(&rt, &arguments),
        Err(status) => status,
    };
    if status == Status::Usage {
        let _ = eprint!(&rt; "{USAGE}");
    }
    ExitCode::from(status.code())
}

// The arguments after the program's name. One that is no text is of no use.
fn arguments_of(rt: &(impl Env + Alloc<A = Global>)) -> Result<Args, Status> {
    let all = env::args(rt).map_err(|fault| status_without_arguments(fault.kind()))?;
    let mut arguments = Args::new(rt.alloc());
    for argument in all.skip(1) {
        arguments
            .push(argument.as_str())
            .map_err(|_| Status::OutOfMemory)?;
    }
    Ok(arguments)
}

fn status_without_arguments(kind: io::ErrorKind) -> Status {
    match kind {
        io::ErrorKind::OutOfMemory => Status::OutOfMemory,
        _ => Status::Usage,
    }
}

// Runs over the standard streams.
fn run_over_streams(rt: &HostRuntime, arguments: &Args) -> Status {
    let mut source = StdSource::new(rt.stdin());
    let sink = StdSink::new(rt.stdout());
    let (_sink, status) = blocks::run_in_blocks(rt.alloc(), arguments, &mut source, sink);
    status
}
