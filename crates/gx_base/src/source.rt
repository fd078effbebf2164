//! Where bytes come from.
ghost use Rattle.std.specs.Prelude.{◌≡◌, ◌<◌, ◌≤◌, [], take, length, IfOk, OnErr, IfSome};
ghost use Rattle.gx_base.specs.Stream.{Told, NeverFell, CountRose, GaveThese};

/// The answer of a read or a write that failed. The stream counts these, and tells no more of them.
#[derive(Clone, Copy, Debug, PartialEq, Eq)]
pub struct Failed;

/// What gives bytes, a piece at a time, until there are none.
pub trait Source {
    /// The bytes left, where the source tells them, and how often a read has failed, as a count that never falls.
    ghost told: { Self → Told };

    /// Fills the start of the buffer, and says how many bytes it gave: none only at the end.
    /// A read that fails gives nothing.
    fn read(&mut self, buf: &mut [u8]) -> Result<usize, Failed>
        requires some_room { 0 < length buf.old }
        requires one_piece { length buf.old ≤ 4096 }

        ensures never_falls { NeverFell (told self.old) (told self.new) }
        ensures within { IfOk result (λ k. k ≤ length buf.new) }
        ensures given { IfOk result (λ k. GaveThese (take k buf.new) (told self.old) (told self.new)) }
        ensures ended { IfOk result (λ k. k ≡ 0 → IfSome (told self.old).bytes (λ bytes. bytes ≡ [])) }
        ensures kept { OnErr result ((told self.new).bytes ≡ (told self.old).bytes) }
        ensures fault { OnErr result (CountRose (told self.old) (told self.new)) };
}
