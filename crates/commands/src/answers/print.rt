//! `print`: the canonical text of a graph.
ghost use Rattle.std.specs.Prelude.{◌≡◌};
ghost use Rattle.commands.specs.Judged.{Found, Prints};

use crate::input::Input;
use crate::refusal::Stop;
use graph_print::text_of;
use std::alloc::Global;

/// The canonical text of the graph of an input.
pub(crate) fn print(alloc: Global, input: Input) -> Result<Vec<u8>, Stop>
    requires { input.place ≡ 0 }
    ensures { Found (λ text. text.items) (Prints input.bytes) result }
{
    let g = input.one_graph(alloc)?;
    let text = text_of(alloc, &g)?;
    Ok(text)
}
