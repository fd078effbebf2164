//! A node that fires: it gives, takes, and changes its slots.
ghost use Rattle.std.specs.Prelude.{◌≡◌, ◌+◌, ◌<◌, length, OnOk, OnErr};
ghost use Rattle.states.specs.Fired.{CanSettle, IsSettled, side_from};
ghost use Rattle.states.specs.Giving.{sides_of};

use crate::change::Change;
use crate::queue::Queue;
use crate::state::State;
use crate::taking::Taking;
use graph_core::{Graph, PortAt};
use port_types::{NoMemory, Token};

/// Puts tokens on the wires behind the outputs of a node, from this output on, and lets the node take and change its slots. The only error
/// is want of memory, and leaves the state as it was: what was put is taken back.
pub(crate) fn settle(
    state: &mut State,
    g: &Graph,
    output: PortAt,
    mut given: Queue<Option<Token>>,
    taking: Taking,
    change: Change,
) -> Result<(), NoMemory>
    requires { CanSettle g.now state.old output (length given) taking }
    ensures ok { OnOk result (IsSettled g.now state.old output.node (side_from output.port (sides_of given)) taking change state.new) }
    ensures err { OnErr result (state.new ≡ state.old) }
{
    g.is_graph();
    match given.pop() {
        None => state.finish(output.node, taking, change),
        Some(None) => settle(state, g, next(output), given, taking, change),
        Some(Some(token)) => {
            let target = g.target_of(output);
            match state.push(target, token) {
                Ok(()) => {}
                Err(_) => return Err(NoMemory),
            }
            match settle(state, g, next(output), given, taking, change) {
                Ok(()) => Ok(()),
                Err(NoMemory) => {
                    state.take_back(target);
                    Err(NoMemory)
                }
            }
        }
    }
}

/// The output behind this one.
fn next(output: PortAt) -> PortAt
    requires { output.port < 255 }
    ensures { result ≡ record { node = output.node; port = output.port + 1 } }
{
    PortAt {
        node: output.node,
        port: output.port + 1,
    }
}
