//! The nodes of statements.
ghost use Rattle.std.specs.Prelude.{◌≡◌, ◌≤◌, List, IfOk, IfErr, Ok, []};
ghost use Rattle.components.specs.Name.{Name, IsName};
ghost use Rattle.components.specs.Node.{Body};
ghost use Rattle.graph_read.specs.Answers.{IsNodeRead};
ghost use Rattle.graph_read.specs.Refusals.{IsRefusal};
ghost use Rattle.graph_read.specs.GraphReading.{nodes_reading};
ghost use Rattle.graph_read.specs.NodeReading.{body_reading, within_limit};
ghost use Rattle.graph_read.specs.GraphSteps.{IsAddedBehind, IsReadTo};

use crate::fault::GraphFaultKind::{BadName, NameTaken, TooMany};
use crate::fault::StatementFault::{self, Refused};
use crate::fault::{GraphFault, refusal_at};
use crate::node::{has_allowed_name, read_node};
use components::Node;
use dot_text::DocNode;
use graph_core::{AddNode, Graph};
use std::alloc::Global;

/// The greatest number of nodes that are read.
const MAX_NODES: usize = 65_536;

/// The node of the statement at this place, counted from 1, whatever names are taken.
fn node_at(alloc: Global, statement: &DocNode, place: usize) -> Result<Node, StatementFault>
    requires { IsName statement.now.name }
    ensures read { IsNodeRead statement.now.name (within_limit place (body_reading statement.now.pairs)) result }
    ensures few { IfOk result (λ _. place ≤ 65536) }
{
    let node = read_node(alloc, statement)?;
    if place > MAX_NODES {
        return Err(Refused(TooMany));
    }
    Ok(node)
}

/// Adds the node of the statement at this place, counted from 1. Its name is looked up once: as it is added, or for its refusal.
fn add_statement(
    alloc: Global,
    g: &mut Graph,
    statement: &DocNode,
    place: usize,
) -> Result<(), StatementFault>
    ensures { IsAddedBehind statement.now place g.old g.new result }
{
    if !has_allowed_name(statement) {
        return Err(Refused(BadName));
    }
    g.is_graph();
    match node_at(alloc, statement, place) {
        Ok(node) => match g.add_node(node) {
            Ok(_) => Ok(()),
            Err(AddNode::NameTaken) => Err(Refused(NameTaken)),
            Err(AddNode::NoMemory) => Err(StatementFault::NoMemory),
        },
        Err(_) if g.find(statement.name.bytes()).is_some() => Err(Refused(NameTaken)),
        Err(fault) => Err(fault),
    }
}

/// The graph of the nodes of statements, in their order and without wires, or the first refusal, with the place of the statement, counted from 1, and its name.
pub(crate) fn read_nodes(alloc: Global, statements: &[DocNode]) -> Result<Graph, GraphFault>
    ensures ok { IfOk result (λ g. (nodes : List (Name × Body)) × (nodes_reading [] 1 statements.now ≡ Ok nodes) × IsReadTo statements.now nodes g) }
    ensures refused { IfErr result (IsRefusal (nodes_reading [] 1 statements.now)) }
    ensures few { IfOk result (λ g. g.slots ≤ 65536) }
{
    let mut g = Graph::new(alloc);
    for (index, statement) in statements.iter().enumerate() {
        if let Err(fault) = add_statement(alloc, &mut g, statement, index + 1) {
            return Err(refusal_at(alloc, fault, index + 1, &statement.name));
        }
    }
    Ok(g)
}
