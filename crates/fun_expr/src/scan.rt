//! Whether a text is one of the grammar, and how large a function it says.
ghost use Rattle.std.specs.Prelude.{◌≡◌, ◌+◌, ◌^◌, ◌<◌, ◌≤◌, ◌↔◌, IsTrue};
ghost use Rattle.fun_expr.specs.Machine.{begin};
ghost use Rattle.fun_expr.specs.Counting.{begins_expression, with_expression, counted, nothing_counted, scanned};

use crate::limits::{MAX_DEPTH, MAX_SIZE};
use crate::state::{Spot, State};
use crate::step::{is_whole, step};

/// The number of fields, literals and operators of a text, and the greatest number of levels of a bind.
#[derive(Clone, Copy, Debug, PartialEq, Eq)]
pub(crate) struct Extent {
    pub(crate) size: usize,
    pub(crate) depth: usize,
}

impl Extent {
    /// Whether the limits of size and depth are kept.
    pub(crate) fn is_within(&self) -> bool
        ensures { IsTrue result ↔ ((self.now.size ≤ 16384) × (self.now.depth ≤ 64)) }
    {
        self.size <= MAX_SIZE && self.depth <= usize::from(MAX_DEPTH)
    }

    /// With one expression more, within so many operators.
    fn with_expression(self, nesting: usize) -> Extent
        requires size { self.size + 1 < 2 ^ 64 }
        requires nesting { nesting + 1 < 2 ^ 64 }
        ensures { result ≡ with_expression nesting self }
    {
        Extent {
            size: self.size + 1,
            depth: self.depth.max(nesting + 1),
        }
    }
}

/// Whether an expression begins with the byte.
fn begins_expression(spot: Spot, byte: u8) -> bool
    ensures { result ≡ begins_expression spot byte }
{
    match spot {
        Spot::Start => byte != b'-',
        Spot::Expression => true,
        _ => false,
    }
}

/// What is counted behind a byte.
fn counted(state: State, byte: u8, extent: Extent) -> Extent
    requires size { extent.size + 1 < 2 ^ 64 }
    requires nesting { state.nesting + 1 < 2 ^ 64 }
    ensures same { result ≡ counted state byte extent }
    ensures size { result.size ≤ extent.size + 1 }
{
    if begins_expression(state.spot, byte) {
        extent.with_expression(state.nesting)
    } else {
        extent
    }
}

/// What is counted of a text, or the place of the first byte that cannot follow, which is the length of the text where it ends too early.
pub(crate) fn scan(text: &[u8]) -> Result<Extent, usize>
    ensures { result ≡ scanned begin nothing_counted 0 text.now }
{
    let mut state = State::start();
    let mut extent = Extent { size: 0, depth: 0 };
    for (at, byte) in text.iter().enumerate() {
        extent = counted(state, *byte, extent);
        match step(state, *byte) {
            Some(next) => state = next,
            None => return Err(at),
        }
    }
    if is_whole(state.spot) {
        Ok(extent)
    } else {
        Err(text.len())
    }
}
