//! A source in memory that never fails.
ghost use Rattle.std.specs.Prelude.{◌≡◌, ◌<◌, ◌≤◌, [], Some, min, take, drop, length, IsOk, IfOk, IfSome};
ghost use Rattle.gx_base.specs.Stream.{before};

use crate::source::{Failed, Source};
use std::marker::Model;

/// The bytes of a `Vec`, in pieces of a length that the caller chose.
#[derive(Drop)]
pub struct CleanSource {
    bytes: Vec<u8>,
    at: usize,
    piece: usize,
}

impl Model for CleanSource {
    ghost use Rattle.std.specs.Prelude.{◌≤◌, drop, length};
    ghost use Rattle.gx_base.specs.CleanSource.{CleanState};

    ghost Value = { CleanState };

    ghost view = { λ s. record { left = drop s.at s.bytes.items; piece = s.piece } };

    ghost invariant = { λ s. (s.at ≤ length s.bytes.items) × (1 ≤ s.piece) };
}

impl CleanSource {
    /// A source of these bytes, that gives at most `piece` of them at a call.
    pub fn new(bytes: Vec<u8>, piece: usize) -> CleanSource
        requires { 1 ≤ piece }
        ensures { result ≡ record { left = bytes.items; piece = piece } }
    {
        CleanSource {
            bytes,
            at: 0,
            piece,
        }
    }
}

impl Source for CleanSource {
    ghost told = { λ s. record { bytes = Some s.left; faults = 0 } };

    fn read(&mut self, buf: &mut [u8]) -> Result<usize, Failed>
        requires some_room { 0 < length buf.old }
        requires one_piece { length buf.old ≤ 4096 }

        ensures within { IfOk result (λ k. k ≤ length buf.new) }
        ensures given { IfOk result (λ k.
            Some self.old.left ≡ before (take k buf.new) (Some self.new.left)) }
        ensures ended { IfOk result (λ k.
            k ≡ 0 → IfSome (Some self.old.left) (λ bytes. bytes ≡ [])) }

        ensures never_fails { IsOk result }
        ensures count { IfOk result (λ k.
            k ≡ min self.old.piece (min (length buf.new) (length self.old.left))) }
        ensures after { IfOk result (λ k.
            self.new ≡ record self.old { left = drop k self.old.left }) }
    {
        let given = give(&self.bytes[self.at..], self.piece, buf);
        self.at += given;
        Ok(given)
    }
}

// Copies bytes to the start of the buffer, as many as there are, fit and make a piece.
fn give(bytes: &[u8], piece: usize, buf: &mut [u8]) -> usize
    ensures count { result ≡ min piece (min (length buf.new) (length bytes.now)) }
    ensures given { take result buf.new ≡ take result bytes.now }
{
    let count = piece.min(buf.len().min(bytes.len()));
    buf[..count].copy_from_slice(&bytes[..count]);
    count
}
