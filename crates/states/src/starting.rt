//! The state at the start.
ghost use Rattle.std.specs.Prelude.{◌≡◌, ◌<◌, ℕ, Some, IsSome, length, slice_index_or, IfOk};
ghost use Rattle.std.specs.FinMap as finite;
ghost use Rattle.port_types.specs.declared.side.Side.{Side};
ghost use Rattle.components.specs.Kind.{ins};
ghost use Rattle.components.specs.Node.{Body};
ghost use Rattle.components.specs.NamedGraph.{IsTyped};
ghost use Rattle.circuits.specs.Circuit.{circuit_of};
ghost use Rattle.circuits.specs.CircuitState.{start};
ghost use Rattle.graph_core.specs.GraphValue.{name_by, port_of};
ghost use Rattle.graph_core.specs.Place.{id_of};
ghost use Rattle.graph_core.specs.Wiring.{HasPort};
ghost use Rattle.states.specs.GraphState.{IsStateIn, state_of};
ghost use Rattle.states.specs.Place.{PlaceValue};
ghost use Rattle.states.specs.Starting.{AreHeld, IsHeldAt, held, init_value};

use crate::laws::states_stay;
use crate::place::Place;
use crate::queue::Queue;
use crate::state::State;
use components::{Kind, inputs};
use graph_core::{Graph, NodeId, PortAt};
use port_types::{NoMemory, Token};
use std::alloc::Global;

/// The state of a typed graph at the start: behind each Init stands its value, and there is no other token and no slot. The only error is
/// want of memory.
pub fn start(alloc: Global, g: &Graph) -> Result<State, NoMemory>
    requires { IsTyped g.now.graph }
    ensures state { IfOk result (IsStateIn g.now) }
    ensures start { IfOk result (λ s. state_of g.now s ≡ start (circuit_of g.now.graph)) }
{
    g.is_graph();
    states_stay();
    let places = start_places(alloc, g)?;
    Ok(State::of_places(places))
}

/// What stands at each node, by the indices of the nodes. The only error is want of memory.
fn start_places(alloc: Global, g: &Graph) -> Result<Vec<Place>, NoMemory>
    requires { IsTyped g.now.graph }
    ensures count { IfOk result (λ places. length places.items ≡ g.now.slots) }
    ensures held { IfOk result (λ places. (index : ℕ) (place : PlaceValue) → index < g.now.slots → IsHeldAt g.now (id_of index) (slice_index_or places.items index place)) }
{
    let mut places = Vec::new(alloc);
    for index in 0..g.slots() {
        places.push(start_place(alloc, g, index)?)?;
    }
    Ok(places)
}

/// What stands at the node of this index, if there is one. The only error is want of memory.
fn start_place(alloc: Global, g: &Graph, index: usize) -> Result<Place, NoMemory>
    requires { IsTyped g.now.graph }
    ensures { IfOk result (IsHeldAt g.now (id_of index)) }
{
    g.is_graph();
    let queues = match g.id_at(index) {
        Some(node) => start_queues(alloc, g, node)?,
        None => Vec::new(alloc),
    };
    Ok(Place::with_queues(alloc, queues))
}

/// The tokens at the inputs of a node. The only error is want of memory.
fn start_queues(alloc: Global, g: &Graph, node: NodeId) -> Result<Vec<Queue<Token>>, NoMemory>
    requires typed { IsTyped g.now.graph }
    requires live { IsSome (finite.get g.now.ids node) }
    ensures { IfOk result (λ queues. (body : Body) → finite.get g.now.graph.nodes (name_by g.now.ids node) ≡ Some body → AreHeld g.now (name_by g.now.ids node) (length (ins body.kind)) queues.items) }
{
    g.is_graph();
    let mut queues = Vec::new(alloc);
    for input in 0..input_count(g, node) {
        let target = PortAt {
            node,
            port: input + 1,
        };
        queues.push(start_queue(alloc, g, target)?)?;
    }
    Ok(queues)
}

/// How many inputs a node has.
fn input_count(g: &Graph, node: NodeId) -> u8
    requires live { IsSome (finite.get g.now.ids node) }
    ensures { (body : Body) → finite.get g.now.graph.nodes (name_by g.now.ids node) ≡ Some body → result ≡ length (ins body.kind) }
{
    match g.node(node) {
        Some(node) => inputs(&node.kind),
        None => unreachable!(),
    }
}

/// The tokens at an input. The only error is want of memory.
fn start_queue(alloc: Global, g: &Graph, target: PortAt) -> Result<Queue<Token>, NoMemory>
    requires typed { IsTyped g.now.graph }
    requires there { HasPort g.now.graph Side.Ins (port_of g.now target) }
    ensures { IfOk result (λ queue. queue ≡ held g.now (port_of g.now target)) }
{
    g.is_graph();
    let mut queue = Queue::new(alloc);
    if let Some(value) = init_value(g, g.source_of(target).node) {
        let token = Token::new(vec![in alloc; u64::from(value)]?);
        queue.push(token).map_err(|_| NoMemory)?;
    }
    Ok(queue)
}

/// The value of an Init. `None` exactly where the node is none.
fn init_value(g: &Graph, node: NodeId) -> Option<u8>
    requires { IsSome (finite.get g.now.ids node) }
    ensures { result ≡ init_value ((circuit_of g.now.graph).kind_at (name_by g.now.ids node)) }
{
    match g.node(node)?.kind {
        Kind::Init(value, _) => Some(value),
        _ => None,
    }
}
