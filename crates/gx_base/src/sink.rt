//! Where bytes go.
ghost use Rattle.std.specs.Prelude.{◌≡◌, ◌<◌, ◌≤◌, take, length, IfOk, OnErr};
ghost use Rattle.gx_base.specs.Stream.{Told, NeverFell, CountRose, Took};

use crate::source::Failed;

/// What takes bytes, a piece at a time.
pub trait Sink {
    /// The bytes taken, where the sink tells them, and how often a write has failed, as a count that never falls.
    ghost told: { Self → Told };

    /// Takes bytes from the start of the piece, and says how many: one at least.
    /// A write that fails takes nothing.
    fn write(&mut self, piece: &[u8]) -> Result<usize, Failed>
        requires { 0 < length piece.now }

        ensures never_falls { NeverFell (told self.old) (told self.new) }
        ensures some { IfOk result (λ k. 1 ≤ k) }
        ensures within { IfOk result (λ k. k ≤ length piece.now) }
        ensures given { IfOk result (λ k. Took (take k piece.now) (told self.old) (told self.new)) }
        ensures kept { OnErr result ((told self.new).bytes ≡ (told self.old).bytes) }
        ensures fault { OnErr result (CountRose (told self.old) (told self.new)) };
}
