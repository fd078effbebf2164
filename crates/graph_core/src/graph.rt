ghost use Rattle.std.specs.Prelude.{◌≡◌, ◌≢◌, ◌↔◌, ◌<◌, Some, None, Ok, Err, IsSome, IfNone, IfOk, IfErr, OnOk, OnErr, MatchOption};
ghost use Rattle.std.specs.Option.{option_copied, option_map};
ghost use Rattle.std.specs.FinMap as finite;
ghost use Rattle.components.specs.Name.{Name, Port};
ghost use Rattle.components.specs.Node.{NodeOk};
ghost use Rattle.components.specs.NamedGraph.{CanWire};
ghost use Rattle.graph_core.specs.Exchange.{CanExchange, IsExchanged};
ghost use Rattle.graph_core.specs.GraphValue.{AreInOrder, Denotes, IsGraph, IsNextOf, IsNodeAt, no_nodes, port_of, with_id, with_link, without_id};
ghost use Rattle.graph_core.specs.Place.{id_of};
ghost use Rattle.graph_core.specs.Wiring.{Refuses};

use crate::arena::{end, link, put, take, try_link};
use crate::by_name::ids_by_name;
use crate::cells::Cells;
use crate::exchange::{End, exchange};
use crate::names::Names;
use crate::place::{NodeId, PortAt};
use components::Node;
use port_types::{NoMemory, Side};
use std::alloc::Global;
use std::marker::Model;

/// Why a node was not added.
#[derive(Clone, Copy, Debug, PartialEq, Eq)]
pub enum AddNode {
    /// A node of the graph has the name.
    NameTaken,
    NoMemory,
}

/// Why a wire was not added.
#[derive(Clone, Copy, Debug, PartialEq, Eq)]
pub enum AddWire {
    /// The source is no output of a node of the graph, or the target no input.
    UnknownPort,
    /// One of the ports stands on a wire.
    PortTaken,
    /// The shapes of the ports differ.
    ShapeDiffers,
    NoMemory,
}

/// A port that stands on no wire.
#[derive(Clone, Copy, Debug, PartialEq, Eq)]
pub struct PortOpen {
    pub node: NodeId,
    pub side: Side,
    pub port: u8,
}

/// A graph: nodes with different names, and wires from outputs to inputs of equal shape. Each port stands on at most one wire.
/// Contracts see it by names, and which node each id denotes.
#[derive(Debug, Drop)]
pub struct Graph {
    cells: Cells,
    names: Names,
}

impl Model for Graph {
    ghost use Rattle.graph_core.specs.Exchange.{CanExchange, IsExchanged};
    ghost use Rattle.graph_core.specs.GraphValue.{GraphValue, graph_code};
    ghost use Rattle.graph_core.specs.Inside.{value_of, IsArena};

    ghost Value = { GraphValue };

    ghost coded = { graph_code };

    ghost view = { λ g. value_of g.cells g.names.ids };

    ghost invariant = { λ g. IsArena g.cells g.names.ids };
}

impl Graph {
    /// The graph without nodes. It keeps the allocator and takes no memory.
    pub fn new(alloc: Global) -> Graph
        ensures { result ≡ no_nodes }
    {
        Graph {
            cells: Cells::new(alloc),
            names: Names::new(alloc),
        }
    }

    /// Adds a node, and answers its id; the ids of the others stay. The node is given up on every error, which leaves the graph as it was:
    /// `NameTaken` exactly where a live node has the name, and `NoMemory`.
    pub fn add_node(&mut self, node: Node) -> Result<NodeId, AddNode>
        requires { NodeOk node }
        ensures ok { IfOk result (λ id. self.new ≡ with_id self.old id node) }
        ensures fresh { IfOk result (λ id. finite.get self.old.ids id ≡ None) }
        ensures next { IfOk result (IsNextOf self.old) }
        ensures taken { (result ≡ Err AddNode.NameTaken) ↔ IsSome (finite.get self.old.graph.nodes node.name) }
        ensures err { OnErr result (self.new ≡ self.old) }
    {
        if self.names.get(node.name.bytes()).is_some() {
            return Err(AddNode::NameTaken);
        }
        let Ok(id) = put(&mut self.cells, &mut self.names, node) else {
            return Err(AddNode::NoMemory);
        };
        Ok(id)
    }

    /// Joins an output to an input. An error leaves the graph as it was. In this order: `UnknownPort` exactly where one of the ports is not there,
    /// `PortTaken` exactly where one stands on a wire, `ShapeDiffers` exactly where their shapes differ; `NoMemory`, which this call does not need.
    pub fn add_wire(&mut self, source: PortAt, target: PortAt) -> Result<(), AddWire>
        ensures ok { OnOk result (self.new ≡ with_link self.old source target) }
        ensures could { OnOk result (CanWire self.old.graph (port_of self.old source) (port_of self.old target)) }
        ensures refused { IfErr result (Refuses self.old.graph (port_of self.old source) (port_of self.old target)) }
        ensures err { OnErr result (self.new ≡ self.old) }
    {
        try_link(&self.cells, source, target)?;
        link(&mut self.cells, source, target);
        Ok(())
    }

    /// Joins an output to an input that are there, on no wire and of one shape. Takes no memory.
    pub fn join(&mut self, source: PortAt, target: PortAt)
        requires { CanWire self.old.graph (port_of self.old source) (port_of self.old target) }
        ensures { self.new ≡ with_link self.old source target }
    {
        link(&mut self.cells, source, target);
    }

    /// Takes a node out, with the wires at its ports. The ids of the others stay, and so do the slots. `None` exactly where no live node has the id;
    /// the graph is then as it was. Takes no memory.
    pub fn remove_node(&mut self, id: NodeId) -> Option<Node>
        ensures node { MatchOption result (finite.get self.old.ids id ≡ None) (IsNodeAt self.old id) }
        ensures gone { (name : Name) → Denotes self.old id name → self.new ≡ without_id self.old id name }
        ensures none { IfNone result (self.new ≡ self.old) }
    {
        take(&mut self.cells, &mut self.names, id)
    }

    /// Takes the nodes of `gone` out, adds those of `fresh`, and then joins each pair of `wires`, an output and the input that it feeds. A new node may have
    /// the name of one that goes. The only error is want of memory, and leaves the graph as it was: all memory is taken before the first change.
    pub fn exchange(
        &mut self,
        gone: &[NodeId],
        fresh: Vec<Node>,
        wires: &[(End, End)],
    ) -> Result<(), NoMemory>
        requires { CanExchange self.old gone.now fresh.items wires.now }
        ensures ok { OnOk result (IsExchanged self.old gone.now fresh.items wires.now self.new) }
        ensures err { OnErr result (self.new ≡ self.old) }
    {
        exchange(&mut self.cells, &mut self.names, gone, fresh, wires)
    }

    /// The live node of this id. `None` exactly where there is none.
    pub fn node(&self, id: NodeId) -> Option<&Node>
        ensures { MatchOption (option_copied result) (finite.get self.now.ids id ≡ None) (IsNodeAt self.now id) }
    {
        Some(&self.cells.get(id)?.node)
    }

    /// The id of the live node with this name. `None` exactly where there is none.
    pub fn find(&self, name: &[u8]) -> Option<NodeId>
        ensures { MatchOption result (finite.get self.now.graph.nodes name.now ≡ None) (λ id. Denotes self.now id name.now) }
    {
        self.names.get(name)
    }

    /// The output that feeds this input. `None` exactly where the input stands on no wire.
    pub fn wire_into(&self, target: PortAt) -> Option<PortAt>
        ensures { option_map (port_of self.now) result ≡ finite.get self.now.graph.feeders (port_of self.now target) }
    {
        end(&self.cells, Side::Ins, target)
    }

    /// The input that this output feeds. `None` exactly where the output stands on no wire.
    pub fn wire_from(&self, source: PortAt) -> Option<PortAt>
        ensures { MatchOption result
            ((target : Port) → finite.get self.now.graph.feeders target ≢ Some (port_of self.now source))
            (λ target. finite.get self.now.graph.feeders (port_of self.now target) ≡ Some (port_of self.now source)) }
    {
        end(&self.cells, Side::Outs, source)
    }

    /// How many slots for nodes there are: the index of each live node is below it. Takes no memory.
    pub fn slots(&self) -> usize
        ensures { result ≡ self.now.slots }
    {
        self.cells.slots()
    }

    /// The id of the live node with this index, counted from 0. `None` exactly where there is none. Takes no memory.
    pub fn id_at(&self, index: usize) -> Option<NodeId>
        ensures { MatchOption result (finite.get self.now.ids (id_of index) ≡ None) (λ id. (id ≡ id_of index) × IsSome (finite.get self.now.ids id)) }
    {
        let id = NodeId::new(index);
        self.node(id)?;
        Some(id)
    }

    /// The ids of the live nodes in the byte order of their names. The only error is want of memory.
    pub fn by_name(&self, alloc: Global) -> Result<Vec<NodeId>, NoMemory>
        ensures { IfOk result (λ ids. AreInOrder self.now ids.items) }
    {
        ids_by_name(alloc, self)
    }

    /// The same graph again, with the same ids. The only error is want of memory.
    pub fn copy(&self, alloc: Global) -> Result<Graph, NoMemory>
        ensures { IfOk result (λ copy. copy ≡ self.now) }
    {
        let cells = self.cells.copy(alloc)?;
        let names = self.names.copy()?;
        Ok(Graph { cells, names })
    }

    /// What every graph is.
    pub fn is_graph(&self)
        ensures { IsGraph self.now }
    {
        self.cells.within();
    }
}
