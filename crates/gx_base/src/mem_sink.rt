//! A sink in memory of limited room, whose calls fail as they are told to.
ghost use Rattle.std.specs.Prelude.{◌≡◌, ◌↔◌, ◌⊎◌, ◌++◌, ◌-◌, ◌<◌, ◌≤◌, [], Some, min, take, length, IsOk, IsErr, IfOk, OnErr, MatchResult};
ghost use Rattle.gx_base.specs.Stream.{after, raised, Rose, NextFails};

use crate::calls::next_fails;
use crate::sink::Sink;
use crate::source::Failed;
use std::alloc::Global;
use std::marker::Model;

/// There was no memory for the room of a sink.
#[derive(Clone, Copy, Debug, PartialEq, Eq)]
pub struct SinkNoMemory;

/// Bytes in memory, up to a number that the caller chose. The calls whose numbers the caller listed
/// fail, counted from 1, and so does each call once the room is used up. A call past the number
/// 2^64 - 1 has no number.
#[derive(Drop)]
pub struct MemSink {
    bytes: Vec<u8>,
    piece: usize,
    room: usize,
    failing: Vec<u64>,
    calls: u64,
    faults: u64,
}

impl Model for MemSink {
    ghost use Rattle.std.specs.Prelude.{◌≤◌, length, vec_capacity};
    ghost use Rattle.gx_base.specs.MemSink.{SinkState};

    ghost Value = { SinkState };

    ghost view = { λ s. record {
      taken = s.bytes.items;
      piece = s.piece;
      room = s.room;
      failing = s.failing.items;
      calls = s.calls;
      faults = s.faults;
    } };

    ghost invariant = { λ s.
        (length s.bytes.items ≤ s.room) × (s.room ≤ vec_capacity s.bytes) × (1 ≤ s.piece) };
}

impl MemSink {
    /// A sink that takes at most `piece` bytes at a call, and `room` in all. It takes the memory
    /// for them now, and none later: `SinkNoMemory` says that there was not enough.
    pub fn new(
        alloc: Global,
        piece: usize,
        room: usize,
        failing: Vec<u64>,
    ) -> Result<MemSink, SinkNoMemory>
        requires { 1 ≤ piece }
        ensures made { IfOk result (λ sink. sink ≡ record {
          taken = [];
          piece = piece;
          room = room;
          failing = failing.items;
          calls = 0;
          faults = 0;
        }) }
        ensures no_room_needed { room ≡ 0 → IsOk result }
    {
        match Vec::with_capacity(alloc, room) {
            Ok(bytes) => Ok(MemSink {
                bytes,
                piece,
                room,
                failing,
                calls: 0,
                faults: 0,
            }),
            Err(_) => Err(SinkNoMemory),
        }
    }

    /// The bytes taken so far.
    pub fn taken(&self) -> &[u8]
        ensures bytes { result.now ≡ self.now.taken }
        ensures within { length result.now ≤ self.now.room }
    {
        self.bytes.as_slice()
    }
}

impl Sink for MemSink {
    ghost told = { λ s. record { bytes = Some s.taken; faults = s.faults } };

    fn write(&mut self, piece: &[u8]) -> Result<usize, Failed>
        requires { 0 < length piece.now }

        ensures never_falls { self.old.faults ≤ self.new.faults }
        ensures some { IfOk result (λ k. 1 ≤ k) }
        ensures within { IfOk result (λ k. k ≤ length piece.now) }
        ensures given { IfOk result (λ k.
            Some self.new.taken ≡ after (Some self.old.taken) (take k piece.now)) }
        ensures kept { OnErr result (Some self.new.taken ≡ Some self.old.taken) }
        ensures fault { OnErr result (Rose self.old.faults self.new.faults) }

        ensures failed { IsErr result ↔
            (NextFails self.old.calls self.old.failing ⊎ (self.old.room ≤ length self.old.taken)) }
        ensures count { IfOk result (λ k. k ≡
            min self.old.piece (min (length piece.now) (self.old.room - length self.old.taken))) }
        ensures after { MatchResult result
            (λ k. self.new ≡ record self.old {
              taken = self.old.taken ++ take k piece.now;
              calls = raised self.old.calls;
            })
            (λ _. self.new ≡ record self.old {
              calls = raised self.old.calls;
              faults = raised self.old.faults;
            }) }
    {
        let fails = next_fails(&mut self.calls, &self.failing);
        let left = self.room - self.bytes.len();
        if fails || left == 0 {
            self.faults = self.faults.saturating_add(1);
            return Err(Failed);
        }
        let count = self.piece.min(piece.len().min(left));
        self.bytes.extend_from_slice(&piece[..count]).unwrap();
        Ok(count)
    }
}
