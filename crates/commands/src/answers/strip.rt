//! `strip`: the canonical text of the stripped graph.
ghost use Rattle.std.specs.Prelude.{◌≡◌};
ghost use Rattle.commands.specs.Judged.{Found, Strips};

use crate::input::Input;
use crate::laws::graphs_are_typed;
use crate::refusal::Stop;
use graph_print::text_of;
use rewrite::strip;
use std::alloc::Global;

/// The canonical text of the stripped graph of an input.
pub(crate) fn strip_input(alloc: Global, input: Input) -> Result<Vec<u8>, Stop>
    requires { input.place ≡ 0 }
    ensures { Found (λ text. text.items) (Strips input.bytes) result }
{
    graphs_are_typed();
    let g = input.one_graph(alloc)?;
    let stripped = strip(alloc, g)?;
    let text = text_of(alloc, &stripped)?;
    Ok(text)
}
