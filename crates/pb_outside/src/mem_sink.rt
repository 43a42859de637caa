ghost use Rattle.std.specs.Prelude.{◌≡◌, ℕ, ◌≤◌, ◌<◌, [], length, Some, IfOk};
ghost use Rattle.pb_outside.specs.Sink.{Puts, CountsPutFault};
ghost use Rattle.pb_outside.specs.MemSink.{put_result, CountsPut};

use crate::sink::{Refused, Sink};
use std::alloc::{AllocError, Global};
use std::marker::Model;

/// Bytes in memory, with room for so many from the start; some of its puts fail.
#[derive(Drop)]
pub struct MemSink {
    bytes: Vec<u8>,
    room: u64,
    most: u64,
    fail: Vec<u64>,
    calls: u64,
    faults: u64,
}

impl Model for MemSink {
    ghost use Rattle.std.specs.Prelude.{◌≤◌, ◌<◌, length, vec_capacity};
    ghost use Rattle.pb_outside.specs.MemSink.{MemSinkState};

    ghost Value = { MemSinkState };

    ghost view = { λ s. record { written = s.bytes.items; room = s.room; most = s.most; fail = s.fail.items; calls = s.calls; faults = s.faults } };

    ghost invariant = { λ s. (length s.bytes.items ≤ s.room) × (s.room ≤ vec_capacity s.bytes) × (0 < s.most) };
}

impl MemSink {
    /// An empty sink with room for `room` bytes, of which no call has been made. A put takes at most `most`
    /// bytes; those whose numbers, from 0, stand in `fail` fail, and so does one that finds no room left.
    pub fn new(alloc: Global, room: u64, most: u64, fail: Vec<u64>) -> Result<MemSink, AllocError>
        requires { 0 < most }
        ensures { IfOk result (λ sink. sink ≡ record { written = []; room = room; most = most; fail = fail.items; calls = 0; faults = 0 }) }
    {
        let bytes = Vec::with_capacity(alloc, room as usize)?;
        Ok(MemSink {
            bytes,
            room,
            most,
            fail,
            calls: 0,
            faults: 0,
        })
    }

    /// The bytes that it holds.
    pub fn written(&self) -> &[u8]
        ensures { result.now ≡ self.now.written }
    {
        &self.bytes
    }
}

impl Sink for MemSink {
    ghost written = { λ s. Some s.written };

    ghost faults = { λ s. s.faults };

    fn put(&mut self, piece: &[u8]) -> Result<u64, Refused>
        requires { 0 < length piece.now }
        ensures written { Puts piece.now result (Some self.old.written) (Some self.new.written) }
        ensures faults { CountsPutFault result self.old.faults self.new.faults }
        ensures exact { result ≡ put_result self.old (length piece.now) }
        ensures call { CountsPut self.old self.new }
    {
        let left = self.room - self.bytes.len() as u64;
        let fails = self.fail.contains(&self.calls) || left == 0;
        self.calls = self.calls.saturating_add(1);
        if fails {
            self.faults = self.faults.saturating_add(1);
            return Err(Refused);
        }
        let count = (piece.len() as u64).min(self.most.min(left));
        self.bytes
            .extend_from_slice(&piece[..count as usize])
            .unwrap();
        Ok(count)
    }
}
