//! The rule `drop_buffer`: a Buffer, or a Fork of one output, is left out.
ghost use Rattle.std.specs.Prelude.{◌≡◌, ◌↔◌, Err, IfOk, MatchOption};
ghost use Rattle.std.specs.Option.{option_copied};
ghost use Rattle.components.specs.NamedGraph.{IsTyped};
ghost use Rattle.components.specs.declared.kind.Kind.TheVariants.{Entry, Exit};
ghost use Rattle.port_types.specs.Shape.{IsShape};
ghost use Rattle.circuits.specs.Circuit.{circuit_of};
ghost use Rattle.circuits.specs.Buffers.{CanDropBuffer, IsBufferLike};
ghost use Rattle.circuits.specs.BufferRule.{straight};
ghost use Rattle.subst_engine.specs.Making.{bare_node};
ghost use Rattle.pure_extract.specs.DropBuffer.{DropBufferIsSound, DropBufferLeavesOut, DropBufferMatches, DropBufferTakesOne, IsDropBuffer, IsPassing, Passes, drop_buffer, entry_name, exit_name, passed_shape};

use circuits::{buffer_shows_nothing, dropped_is_replaced, graph_typed_as_circuit};
use components::{Kind, Node};
use graph_core::{End, Graph, PortAt};
use port_types::{NoMemory, Shape, Text};
use std::alloc::Global;
use std::marker::Model;
use subst_engine::{AtFault, Rule, RuleWord, bare_copy, bare_node, rule_graph};

/// The rule `drop_buffer` at a node: a Buffer, or a Fork of one output, that is not wired to itself. In its place comes a wire
/// from what fed it to what it fed.
#[derive(Debug, Drop)]
pub struct DropBuffer {
    left: Graph,
    right: Graph,
}

impl Model for DropBuffer {
    ghost use Rattle.subst_engine.specs.declared.word.RuleWord.TheVariants as word;
    ghost use Rattle.subst_engine.specs.Rule.{NamedRule, IsSoundRule, rule_code};

    ghost Value = { NamedRule };

    ghost coded = { rule_code };

    ghost view = { λ r. record { word = word.DropBuffer; left = r.left.graph; right = r.right.graph } };

    ghost invariant = { λ r. IsSoundRule (record { word = word.DropBuffer; left = r.left.graph; right = r.right.graph }) };
}

impl Rule for DropBuffer {
    ghost named = { λ r. r };

    fn word(&self) -> RuleWord {
        // A proof knows the word of the value once a field is read.
        let _ = &self.left;
        RuleWord::DropBuffer
    }

    fn left(&self) -> &Graph {
        &self.left
    }

    fn right(&self) -> &Graph {
        &self.right
    }
}

impl DropBuffer {
    /// The rule at the node of this name. It names no new node, so it reads no prefix. `NoInstance` exactly where the node cannot be left
    /// out: no node of the graph has the name, it is neither a Buffer nor a Fork of one output, or it is wired to itself. Else the only
    /// error is `NoMemory`.
    pub fn at(alloc: Global, g: &Graph, _prefix: u64, node: &[u8]) -> Result<DropBuffer, AtFault>
        requires { IsTyped g.now.graph }
        ensures ok { IfOk result (IsDropBuffer g.now.graph node.now) }
        ensures refused { (result ≡ Err AtFault.NoInstance) ↔ ¬ (CanDropBuffer (circuit_of g.now.graph) node.now) }
    {
        match passing_node(g, node) {
            Some((node, shape)) => Ok(DropBuffer::of(alloc, node, shape)?),
            None => Err(AtFault::NoInstance),
        }
    }

    /// The rule at a node that passes on tokens of this shape.
    fn of(alloc: Global, node: &Node, shape: &Shape) -> Result<DropBuffer, NoMemory>
        requires { Passes node.now shape.now }
        ensures { IfOk result (λ rule. rule ≡ drop_buffer node.now.name node.now.kind) }
    {
        drop_buffer_is_sound();
        let left = left_graph(alloc, node, shape)?;
        let right = right_graph(alloc, node.name.bytes(), shape)?;
        Ok(DropBuffer { left, right })
    }
}

/// The rule `drop_buffer` at any name, for any kind that passes tokens on, meets what a rule owes.
pub fn drop_buffer_is_sound()
    ensures { DropBufferIsSound }
{
    graph_typed_as_circuit();
    buffer_shows_nothing();
}

/// Where a rule `drop_buffer` was made it matches, and what comes of it is the graph without its node: what fed the node feeds what
/// the node fed. It takes no other node.
pub fn drop_buffer_leaves_out()
    ensures matches { DropBufferMatches }
    ensures gives { DropBufferLeavesOut }
    ensures one { DropBufferTakesOne }
{
    graph_typed_as_circuit();
    dropped_is_replaced();
}

/// The node of this name, with the shape of what it passes on, if it can be left out.
fn passing_node<'a>(g: &'a Graph, name: &[u8]) -> Option<(&'a Node, &'a Shape)>
    requires { IsTyped g.now.graph }
    ensures { MatchOption result
        (¬ (CanDropBuffer (circuit_of g.now.graph) name.now))
        (λ found. IsPassing g.now.graph name.now found.0.now found.1.now) }
{
    g.is_graph();
    let id = g.find(name)?;
    let node = g.node(id)?;
    let shape = passed_shape(&node.kind)?;
    if g.source_of(PortAt { node: id, port: 1 }).node == id {
        return None;
    }
    Some((node, shape))
}

/// The shape of what a Buffer, or a Fork of one output, passes on.
fn passed_shape(kind: &Kind) -> Option<&Shape>
    ensures { MatchOption (option_copied result)
        (¬ (IsBufferLike kind.now))
        (λ shape. IsBufferLike kind.now × (shape ≡ passed_shape kind.now)) }
{
    match kind {
        Kind::Buffer(shape) | Kind::Fork(shape, 1) => Some(shape),
        _ => None,
    }
}

/// An Entry that is wired to a node as this one, and that to an Exit.
fn left_graph(alloc: Global, node: &Node, shape: &Shape) -> Result<Graph, NoMemory>
    requires { Passes node.now shape.now }
    ensures { IfOk result (λ left. left.graph ≡ (drop_buffer node.now.name node.now.kind).left) }
{
    let name = node.name.bytes();
    let nodes = vec![in alloc;
        exit_beside(alloc, name, shape)?,
        bare_copy(alloc, node)?,
        entry_beside(alloc, name, shape)?,
    ]?;
    let wires = [
        (End::Fresh(1, 1), End::Fresh(0, 1)),
        (End::Fresh(2, 1), End::Fresh(1, 1)),
    ];
    rule_graph(alloc, nodes, wires.as_slice())
}

/// An Entry that is wired to an Exit.
fn right_graph(alloc: Global, name: &[u8], shape: &Shape) -> Result<Graph, NoMemory>
    requires { IsShape shape.now }
    ensures { IfOk result (λ right. right.graph ≡ straight (entry_name name.now) (exit_name name.now) shape.now) }
{
    let nodes = vec![in alloc;
        exit_beside(alloc, name, shape)?,
        entry_beside(alloc, name, shape)?,
    ]?;
    let wires = [(End::Fresh(1, 1), End::Fresh(0, 1))];
    rule_graph(alloc, nodes, wires.as_slice())
}

/// The Entry beside a node of this name.
fn entry_beside(alloc: Global, name: &[u8], shape: &Shape) -> Result<Node, NoMemory>
    ensures { IfOk result (λ entry. entry ≡ bare_node (entry_name name.now) (Entry shape.now)) }
{
    let name = text_of(alloc, entry_name(name))?;
    let shape = shape.clone()?;
    Ok(bare_node(alloc, name, Kind::Entry(shape)))
}

/// The Exit beside a node of this name.
fn exit_beside(alloc: Global, name: &[u8], shape: &Shape) -> Result<Node, NoMemory>
    ensures { IfOk result (λ exit. exit ≡ bare_node (exit_name name.now) (Exit shape.now)) }
{
    let name = text_of(alloc, exit_name(name))?;
    let shape = shape.clone()?;
    Ok(bare_node(alloc, name, Kind::Exit(shape)))
}

fn text_of(alloc: Global, text: &str) -> Result<Text, NoMemory>
    ensures { IfOk result (λ copy. copy ≡ text.now) }
{
    Ok(Text::from_string(String::from_str(alloc, text)?))
}

/// A name for the Entry beside a node of this name.
fn entry_name(name: &[u8]) -> &'static str
    ensures { result.now ≡ entry_name name.now }
{
    if name == b"in".as_slice() {
        "from"
    } else {
        "in"
    }
}

/// A name for the Exit beside a node of this name.
fn exit_name(name: &[u8]) -> &'static str
    ensures { result.now ≡ exit_name name.now }
{
    if name == b"out".as_slice() {
        "to"
    } else {
        "out"
    }
}
