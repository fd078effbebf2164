//! What replacement by a rule makes of a graph, as a function of ports: definitions and laws, and no calls.
//!
//! The definitions, in `specs/`: `Gather`, where a body can be gathered, by what its leaving wires enter; `Laws`, what is proved of what
//! each rule makes.
#![tactic(auto)]

ghost use Rattle.rule_uses.specs.Laws.{GatherMakes, TagLoopMakes};

use circuits::{graph_typed_as_circuit, replaced_graph_as_circuit};
use tagged_loop::tagged_loop_refines;

/// Where `tag_loop` matches, what it makes of a typed graph is the graph with the in-order loop of these nodes tagged.
pub fn tag_loop_makes()
    ensures { TagLoopMakes }
{
    graph_typed_as_circuit();
    replaced_graph_as_circuit();
    tagged_loop_refines();
}

/// Where a body is a part of a typed circuit, what the Pure with its function makes of the circuit is the circuit with the body gathered.
pub fn gather_makes()
    ensures { GatherMakes }
{}
