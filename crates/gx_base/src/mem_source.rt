//! A source in memory whose calls fail as they are told to.
ghost use Rattle.std.specs.Prelude.{◌≡◌, ◌↔◌, ◌<◌, ◌≤◌, [], Some, min, take, drop, length, IsErr, IfOk, IfSome, OnErr, MatchResult};
ghost use Rattle.gx_base.specs.Stream.{before, raised, Rose, NextFails};

use crate::calls::next_fails;
use crate::clean_source::CleanSource;
use crate::source::{Failed, Source};
use std::marker::Model;

/// The bytes of a `Vec`, in pieces of a length that the caller chose. The calls whose numbers the
/// caller listed fail, counted from 1. A call past the number 2^64 - 1 has no number.
#[derive(Drop)]
pub struct MemSource {
    source: CleanSource,
    failing: Vec<u64>,
    calls: u64,
    faults: u64,
}

impl Model for MemSource {
    ghost use Rattle.gx_base.specs.MemSource.{SourceState};

    ghost Value = { SourceState };

    ghost view = { λ s. record {
      left = s.source.left;
      piece = s.source.piece;
      failing = s.failing.items;
      calls = s.calls;
      faults = s.faults;
    } };
}

impl MemSource {
    /// A source of these bytes, that gives at most `piece` of them at a call.
    pub fn new(bytes: Vec<u8>, piece: usize, failing: Vec<u64>) -> MemSource
        requires { 1 ≤ piece }
        ensures { result ≡ record {
          left = bytes.items;
          piece = piece;
          failing = failing.items;
          calls = 0;
          faults = 0;
        } }
    {
        MemSource {
            source: CleanSource::new(bytes, piece),
            failing,
            calls: 0,
            faults: 0,
        }
    }
}

impl Source for MemSource {
    ghost told = { λ s. record { bytes = Some s.left; faults = s.faults } };

    fn read(&mut self, buf: &mut [u8]) -> Result<usize, Failed>
        requires some_room { 0 < length buf.old }
        requires one_piece { length buf.old ≤ 4096 }

        ensures never_falls { self.old.faults ≤ self.new.faults }
        ensures within { IfOk result (λ k. k ≤ length buf.new) }
        ensures given { IfOk result (λ k.
            Some self.old.left ≡ before (take k buf.new) (Some self.new.left)) }
        ensures ended { IfOk result (λ k.
            k ≡ 0 → IfSome (Some self.old.left) (λ bytes. bytes ≡ [])) }
        ensures kept { OnErr result (Some self.new.left ≡ Some self.old.left) }
        ensures fault { OnErr result (Rose self.old.faults self.new.faults) }

        ensures failed { IsErr result ↔ NextFails self.old.calls self.old.failing }
        ensures count { IfOk result (λ k.
            k ≡ min self.old.piece (min (length buf.new) (length self.old.left))) }
        ensures after { MatchResult result
            (λ k. self.new ≡ record self.old {
              left = drop k self.old.left;
              calls = raised self.old.calls;
            })
            (λ _. self.new ≡ record self.old {
              calls = raised self.old.calls;
              faults = raised self.old.faults;
            }) }
    {
        if next_fails(&mut self.calls, &self.failing) {
            self.faults = self.faults.saturating_add(1);
            return Err(Failed);
        }
        self.source.read(buf)
    }
}
