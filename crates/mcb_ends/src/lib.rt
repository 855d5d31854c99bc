//! Where bytes come from and where they go.
//!
//! The lines that a `LineReader` hands out, in order and whole, are those of the source's bytes. A
//! call fails only where the source or the sink counted a fault in it. `put` writes its whole piece,
//! or a prefix of it and fails.
#![tactic(auto)]

mod before;
mod calls;
mod decimal;
mod failed;
mod gathered;
pub mod laws;
mod line;
mod line_reader;
mod mem_sink;
mod mem_source;
mod sink;
mod source;
mod std_sink;
mod std_source;
mod sure_sink;
mod sure_source;
mod unread;
mod writing;

pub use before::Before;
pub use decimal::Decimal;
pub use failed::Failed;
pub use gathered::Gathered;
pub use line::Line;
pub use line_reader::LineReader;
pub use mem_sink::MemSink;
pub use mem_source::MemSource;
pub use sink::Sink;
pub use source::Source;
pub use std::alloc::AllocError as OutOfMemory;
pub use std_sink::StdSink;
pub use std_source::StdSource;
pub use sure_sink::SureSink;
pub use sure_source::SureSource;
pub use writing::{put, put_all, put_decimal, put_wide};

#[cfg(test)]
mod tests;
