//! The wires of the nodes that come into a graph where a rule is applied.
ghost use Rattle.std.specs.Prelude.{◌≡◌, ◌+◌, ◌<◌, Some, true, IfOk, OnOk};
ghost use Rattle.std.specs.FinMap as finite;
ghost use Rattle.circuits.specs.Circuit.{circuit_of};
ghost use Rattle.circuits.specs.ReplacedGraph.{new_source};
ghost use Rattle.components.specs.Name.{Port};
ghost use Rattle.components.specs.Node.{Body};
ghost use Rattle.graph_core.specs.Exchange.{end_port};
ghost use Rattle.graph_core.specs.GraphValue.{name_by, port_of};
ghost use Rattle.graph_core.specs.Wiring.{HasPort};
ghost use Rattle.subst_engine.specs.NewWires.{CanReplace, new_target};
ghost use Rattle.subst_engine.specs.PartLists.{ArePlaced, IsAtPlace, IsWireFor, WiresBelow};
ghost use Rattle.subst_engine.specs.EndPorts.{IsEntryPort, IsExitPort, count_inputs};

use crate::fresh::{Fresh, fresh_end};
use crate::named::{kind_of, name_of};
use circuits::replaced_graph_as_circuit;
use components::{Kind, inputs};
use graph_core::{End, Graph, NodeId, PortAt};
use port_types::{NoMemory, Side};
use std::alloc::Global;

/// The new wires, one for each input of `right`. The only error is want of memory.
pub(crate) fn new_wires(
    alloc: Global,
    g: &Graph,
    left: &Graph,
    right: &Graph,
    fresh: &Fresh,
) -> Result<Vec<(End, End)>, NoMemory>
    requires can { CanReplace g.now.graph left.now.graph right.now.graph }
    requires placed { ArePlaced right.now right.now.slots fresh.now.nodes.items fresh.now.places.items }
    ensures { IfOk result (λ wires. WiresBelow g.now left.now.graph right.now fresh.now.nodes.items right.now.slots wires.items) }
{
    let mut wires = Vec::new(alloc);
    for index in 0..right.slots() {
        add_wires(&mut wires, g, left, right, fresh, index)?;
    }
    Ok(wires)
}

/// Adds the new wires of the inputs of the node with this index.
fn add_wires(
    wires: &mut Vec<(End, End)>,
    g: &Graph,
    left: &Graph,
    right: &Graph,
    fresh: &Fresh,
    index: usize,
) -> Result<(), NoMemory>
    requires can { CanReplace g.now.graph left.now.graph right.now.graph }
    requires placed { ArePlaced right.now right.now.slots fresh.now.nodes.items fresh.now.places.items }
    requires before { WiresBelow g.now left.now.graph right.now fresh.now.nodes.items index wires.old.items }
    ensures { OnOk result (WiresBelow g.now left.now.graph right.now fresh.now.nodes.items (index + 1) wires.new.items) }
{
    right.is_graph();
    replaced_graph_as_circuit();
    let Some(node) = right.id_at(index) else {
        return Ok(());
    };
    for port in 1..=input_count(right, node) {
        wires.push(new_wire(g, left, right, fresh, PortAt { node, port }))?;
    }
    Ok(())
}

/// How many inputs the node has.
fn input_count(g: &Graph, id: NodeId) -> u8
    ensures { result ≡ count_inputs ((circuit_of g.now.graph).kind_at (name_by g.now.ids id)) }
{
    g.is_graph();
    match kind_of(g, id) {
        Some(kind) => inputs(kind),
        None => 0,
    }
}

/// The new wire for an input of `right`.
fn new_wire(g: &Graph, left: &Graph, right: &Graph, fresh: &Fresh, target: PortAt) -> (End, End)
    requires can { CanReplace g.now.graph left.now.graph right.now.graph }
    requires placed { ArePlaced right.now right.now.slots fresh.now.nodes.items fresh.now.places.items }
    requires there { HasPort right.now.graph Side.Ins (port_of right.now target) }
    ensures { IsWireFor g.now left.now.graph right.now.graph fresh.now.nodes.items (port_of right.now target) result }
{
    let source = right.source_of(target);
    (
        source_end(g, left, right, fresh, source),
        target_end(g, left, right, fresh, target),
    )
}

/// Where the new wire of an output of `right` begins: at a new node, and for an Entry at what feeds in the graph the input that this Entry
/// feeds in `left`.
fn source_end(g: &Graph, left: &Graph, right: &Graph, fresh: &Fresh, source: PortAt) -> End
    requires can { CanReplace g.now.graph left.now.graph right.now.graph }
    requires placed { ArePlaced right.now right.now.slots fresh.now.nodes.items fresh.now.places.items }
    requires there { HasPort right.now.graph Side.Outs (port_of right.now source) }
    ensures end { new_source g.now.graph left.now.graph right.now.graph (Some (port_of right.now source)) ≡ Some (end_port g.now fresh.now.nodes.items result) }
    ensures place { IsAtPlace g.now left.now.graph fresh.now.nodes.items result }
{
    g.is_graph();
    replaced_graph_as_circuit();
    match kind_of(right, source.node) {
        Some(Kind::Entry(_)) => End::Old(outer_source(g, left, right, source)),
        _ => fresh_end(right, fresh, source),
    }
}

/// Where the new wire of an input of `right` ends: at a new node, and for an Exit at the input that is fed in the graph by what feeds this
/// Exit in `left`.
fn target_end(g: &Graph, left: &Graph, right: &Graph, fresh: &Fresh, target: PortAt) -> End
    requires can { CanReplace g.now.graph left.now.graph right.now.graph }
    requires placed { ArePlaced right.now right.now.slots fresh.now.nodes.items fresh.now.places.items }
    requires there { HasPort right.now.graph Side.Ins (port_of right.now target) }
    ensures end { new_target g.now.graph left.now.graph right.now.graph (port_of right.now target) ≡ Some (end_port g.now fresh.now.nodes.items result) }
    ensures place { IsAtPlace g.now left.now.graph fresh.now.nodes.items result }
{
    g.is_graph();
    replaced_graph_as_circuit();
    match kind_of(right, target.node) {
        Some(Kind::Exit(_)) => End::Old(outer_target(g, left, right, target)),
        _ => fresh_end(right, fresh, target),
    }
}

/// What feeds in the graph the input that an Entry feeds in `left`.
fn outer_source(g: &Graph, left: &Graph, right: &Graph, entry: PortAt) -> PortAt
    requires can { CanReplace g.now.graph left.now.graph right.now.graph }
    requires entry { IsEntryPort right.now.graph (port_of right.now entry) }
    ensures { (t : Port) × (finite.get left.now.graph.feeders t ≡ Some (port_of right.now entry)) × (finite.get g.now.graph.feeders t ≡ Some (port_of g.now result)) }
{
    let inside = left.target_of(twin(right, entry, left));
    g.source_of(twin(left, inside, g))
}

/// The input that is fed in the graph by what feeds an Exit in `left`.
fn outer_target(g: &Graph, left: &Graph, right: &Graph, exit: PortAt) -> PortAt
    requires can { CanReplace g.now.graph left.now.graph right.now.graph }
    requires exit { IsExitPort right.now.graph (port_of right.now exit) }
    ensures { (q : Port) × (finite.get left.now.graph.feeders (port_of right.now exit) ≡ Some q) × (finite.get g.now.graph.feeders (port_of g.now result) ≡ Some q) }
{
    let inside = left.source_of(twin(right, exit, left));
    g.target_of(twin(left, inside, g))
}

/// The port of this name in another graph that has its node.
fn twin(g: &Graph, port: PortAt, other: &Graph) -> PortAt
    requires { (body : Body) × (finite.get other.now.graph.nodes (port_of g.now port).node ≡ Some body) }
    ensures { port_of other.now result ≡ port_of g.now port }
{
    match other.find(name_of(g, port.node)) {
        Some(node) => PortAt {
            node,
            port: port.port,
        },
        None => unreachable!(),
    }
}
