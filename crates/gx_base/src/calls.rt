//! The calls of a stream in memory, by number.
ghost use Rattle.std.specs.Prelude.{◌≡◌, ◌↔◌, IsTrue};
ghost use Rattle.gx_base.specs.Stream.{raised, NextFails};

// Numbers one more call, if a number is left, and says whether it is one of those that fail.
pub(crate) fn next_fails(calls: &mut u64, failing: &[u64]) -> bool
    ensures counted { calls.new ≡ raised calls.old }
    ensures fails { IsTrue result ↔ NextFails calls.old failing.now }
{
    if *calls == u64::MAX {
        return false;
    }
    *calls += 1;
    failing.contains(calls)
}
