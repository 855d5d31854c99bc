ghost use Rattle.std.specs.Prelude.{◌≡◌, ◌-◌, ◌^◌, ◌<◌, ◌≤◌, [], length, vec_capacity};

use crate::calls::Calls;
use crate::{Failed, OutOfMemory, Sink};
use std::alloc::Global;

/// A sink in memory. It takes at most `piece` bytes in a call, and fails exactly in the calls whose
/// numbers, counted from 1, are listed, and in those for a piece that is not empty with no room left.
#[derive(Drop)]
pub struct MemSink {
    bytes: Vec<u8>,
    room: usize,
    piece: usize,
    calls: Calls,
    ghost within: { length bytes.items ≤ room },
    ghost reserved: { room ≤ vec_capacity bytes },
    ghost positive: { 0 < piece },
    ghost counted: { calls.faults ≤ 2 ^ 64 - 1 },
    ghost full: { calls.fails ≡ [] → 0 < calls.faults → room ≤ length bytes.items },
}

impl MemSink {
    ghost use Rattle.std.specs.Prelude.{◌≡◌, ◌<◌, [], IfOk};
    ghost use Rattle.mcb_ends.specs.MemSink.{sink_bytes, sink_limit, sink_piece, sink_calls};

    /// Takes memory for its whole room.
    pub fn new(
        alloc: Global,
        room: usize,
        piece: usize,
        fails: Vec<u32>,
    ) -> Result<MemSink, OutOfMemory>
        requires { 0 < piece }
        ensures bytes { IfOk result (λ sink. sink_bytes sink ≡ []) }
        ensures limit { IfOk result (λ sink. sink_limit sink ≡ room) }
        ensures piece { IfOk result (λ sink. sink_piece sink ≡ piece) }
        ensures calls { IfOk result (λ sink. sink_calls sink ≡ record { fails = fails.items; made = 0; faults = 0 }) }
    {
        let bytes = Vec::with_capacity(alloc, room)?;
        Ok(MemSink {
            bytes,
            room,
            piece,
            calls: Calls::new(fails),
        })
    }

    /// The bytes that it took.
    pub fn bytes(&self) -> &[u8]
        ensures { result.now ≡ sink_bytes self.now }
    {
        &self.bytes
    }

    /// How often it has failed.
    pub fn faults(&self) -> u64
        ensures { result ≡ (sink_calls self.now).faults }
    {
        self.calls.faults()
    }
}

impl Sink for MemSink {
    ghost use Rattle.std.specs.Prelude.{◌≡◌, ◌↔◌, ◌⊎◌, ◌-◌, ◌^◌, ◌<◌, ◌≤◌, Some, length, min, IfOk, IsErr, Contains};
    ghost use Rattle.std.specs.Io.KnownBytes.{WriteAppends};
    ghost use Rattle.mcb_ends.specs.Bytes.{IsHonest};
    ghost use Rattle.mcb_ends.specs.Calls.{CountsCall};
    ghost use Rattle.mcb_ends.specs.Causes.{HasCause};
    ghost use Rattle.mcb_ends.specs.MemSink.{sink_bytes, sink_limit, sink_piece, sink_calls};
    ghost use Rattle.mcb_ends.specs.Room.{told_room, IsHonest-told_room};

    ghost written = { λ sink. Some (sink_bytes sink) };

    ghost faults = { λ sink. (sink_calls sink).faults };

    ghost room = { λ sink. told_room (sink_calls sink).fails (sink_limit sink) };

    ghost counted = { λ sink. sink.counted };

    ghost honest = { λ sink. IsHonest-told_room (sink_calls sink).fails (sink_limit sink) (sink_bytes sink) (sink_calls sink).faults sink.full };

    /// Takes as many bytes as the piece, the most that a call takes and the room left allow.
    fn write(&mut self, piece: &[u8]) -> Result<usize, Failed>
        ensures bound { IfOk result (λ n. n ≤ length piece.now) }
        ensures some { IfOk result (λ n. 0 < length piece.now → 0 < n) }
        ensures bytes { WriteAppends (Some (sink_bytes self.old)) (Some (sink_bytes self.new)) result piece.now }
        ensures room { told_room (sink_calls self.new).fails (sink_limit self.new) ≡ told_room (sink_calls self.old).fails (sink_limit self.old) }
        ensures cause { HasCause (sink_calls self.old).faults (sink_calls self.new).faults result }

        ensures count { IfOk result (λ n. n ≡ min (length piece.now)
            (min (sink_piece self.old) (sink_limit self.old - length (sink_bytes self.old)))) }
        ensures calls { CountsCall (sink_calls self.old) (sink_calls self.new) result }
        ensures listed { IsErr result ↔ (Contains (sink_calls self.old).fails (sink_calls self.new).made
            ⊎ ((0 < length piece.now) × (sink_limit self.old ≤ length (sink_bytes self.old)))) }
        ensures limit { sink_limit self.new ≡ sink_limit self.old }
        ensures piece { sink_piece self.new ≡ sink_piece self.old }
    {
        self.calls.begin()?;
        let room = self.room - self.bytes.len();
        if room == 0 && !piece.is_empty() {
            return Err(self.calls.fail());
        }
        let count = piece.len().min(self.piece).min(room);
        self.bytes.extend_from_slice(&piece[..count]).unwrap();
        Ok(count)
    }
}
