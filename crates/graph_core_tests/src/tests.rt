//! Worked graphs.
ghost use Rattle.std.specs.Prelude.{◌≡◌, [], ◌∷◌, IfOk};
ghost use Rattle.components.specs.declared.kind.Kind.TheVariants.{Buffer};
ghost use Rattle.components.specs.Node.{NodeOk};

use components::{Kind, Node, is_name, kind_ok};
use graph_core::{End, Graph, NodeId, PortAt, check_typed, same_graph};
use port_types::{Items, Shape, Text};
use std::alloc::Global;
use std::test::Fail;

fn byte(alloc: Global) -> Result<Shape, Fail>
    ensures { IfOk result (λ shape. shape ≡ 8 ∷ []) }
{
    Ok(Shape::new(vec![in alloc; 8]?).ok_or("no shape")?)
}

/// A node without kept attributes.
fn node(alloc: Global, name: &str, kind: Kind) -> Result<Node, Fail>
    ensures ok { IfOk result NodeOk }
    ensures is { IfOk result (λ node. node.kind ≡ kind) }
{
    let name = Text::new(name.as_bytes().to_vec(alloc)?).ok_or("no text")?;
    if !is_name(&name) || !kind_ok(&kind) {
        return Err("no node".into());
    }
    let kept = Items::new(Vec::new(alloc));
    Ok(Node { name, kind, kept })
}

fn add(g: &mut Graph, alloc: Global, name: &str, kind: Kind) -> Result<NodeId, Fail> {
    let node = node(alloc, name, kind)?;
    Ok(g.add_node(node).ok().ok_or("not added")?)
}

fn id_of(g: &Graph, name: &str) -> Result<NodeId, Fail> {
    Ok(g.find(name.as_bytes()).ok_or("no node")?)
}

fn first(node: NodeId) -> PortAt {
    PortAt { node, port: 1 }
}

fn add_fork(g: &mut Graph, alloc: Global, name: &str) -> Result<(), Fail> {
    let _ = add(g, alloc, name, Kind::Fork(byte(alloc)?, 2))?;
    Ok(())
}

fn wire(g: &mut Graph, source: NodeId, target: NodeId) -> Result<(), Fail> {
    Ok(
        g.add_wire(first(source), first(target))
            .ok()
            .ok_or("no wire")?,
    )
}

/// Entry, Buffer and Exit in a row, whose names stand in another order.
fn add_row(g: &mut Graph, alloc: Global) -> Result<(), Fail> {
    let entry = add(g, alloc, "a2", Kind::Entry(byte(alloc)?))?;
    let buffer = add(g, alloc, "b", Kind::Buffer(byte(alloc)?))?;
    let exit = add(g, alloc, "a10", Kind::Exit(byte(alloc)?))?;
    wire(g, entry, buffer)?;
    wire(g, buffer, exit)
}

fn row(alloc: Global) -> Result<Graph, Fail> {
    let mut g = Graph::new(alloc);
    add_row(&mut g, alloc)?;
    Ok(g)
}

/// The indices of the nodes in the order of their names.
fn indices(g: &Graph, alloc: Global) -> Result<Vec<usize>, Fail> {
    let mut indices = Vec::new(alloc);
    for id in &g.by_name(alloc)? {
        indices.push(id.index())?;
    }
    Ok(indices)
}

fn remove(g: &mut Graph, name: &str) -> Result<(), Fail> {
    let id = id_of(g, name)?;
    let _ = g.remove_node(id);
    Ok(())
}

fn copy_of(g: &Graph, alloc: Global) -> Result<Graph, Fail> {
    Ok(g.copy(alloc)?)
}

/// Whether the graph is typed, and the same as the other.
fn is_typed_as(g: &Graph, other: &Graph) -> bool {
    check_typed(g).is_ok() && same_graph(g, other)
}

/// Whether the first output of a node feeds the first input of another.
fn feeds(g: &Graph, source: &str, target: &str) -> bool {
    match (g.find(source.as_bytes()), g.find(target.as_bytes())) {
        (Some(a), Some(b)) => {
            g.wire_from(first(a)) == Some(first(b)) && g.wire_into(first(b)) == Some(first(a))
        }
        _ => false,
    }
}

/// Whether the first input of the node is on a wire.
fn is_fed(g: &Graph, name: &str) -> bool {
    match g.find(name.as_bytes()) {
        Some(id) => g.wire_into(first(id)).is_some(),
        None => false,
    }
}

#[test]
fn a_copy_is_the_same_graph(rt: HostRuntime) -> Result<(), Fail> {
    let mut g = row(rt.alloc())?;
    let copy = copy_of(&g, rt.alloc())?;
    assert!(rt; is_typed_as(&g, &copy) && is_typed_as(&copy, &g));
    remove(&mut g, "b")?;
    assert!(rt; check_typed(&g).is_err() && !same_graph(&g, &copy));
    Ok(())
}

#[test]
fn a_free_slot_is_taken_first(rt: HostRuntime) -> Result<(), Fail> {
    let mut g = row(rt.alloc())?;
    remove(&mut g, "b")?;
    add_fork(&mut g, rt.alloc(), "c")?;
    assert!(rt; !is_fed(&g, "c") && !is_fed(&g, "a10"));
    assert_eq!(rt; indices(&g, rt.alloc())?.as_slice(), [2, 0, 1].as_slice());
    assert_eq!(rt; g.slots(), 3);
    Ok(())
}

/// A Buffer whose ports are joined, in the place of two nodes.
fn loop_for(g: &mut Graph, alloc: Global, a: NodeId, b: NodeId, name: &str) -> Result<(), Fail> {
    let buffer = node(alloc, name, Kind::Buffer(byte(alloc)?))?;
    g.is_graph();
    if a == b || g.node(a).is_none() || g.node(b).is_none() {
        return Err("no two nodes".into());
    }
    if g.find(buffer.name.bytes()).is_some() {
        return Err("a name that is taken".into());
    }
    let mut fresh = Vec::new(alloc);
    fresh.push(buffer)?;
    let port = End::Fresh(0, 1);
    g.exchange([a, b].as_slice(), fresh, [(port, port)].as_slice())?;
    Ok(())
}

/// Nothing in the place of nothing.
fn exchange_nothing(g: &mut Graph, alloc: Global) -> Result<(), Fail> {
    let gone: [NodeId; 0] = [];
    let wires: [(End, End); 0] = [];
    g.exchange(gone.as_slice(), Vec::new(alloc), wires.as_slice())?;
    Ok(())
}

fn replace_two(g: &mut Graph, alloc: Global, a: &str, b: &str, name: &str) -> Result<(), Fail> {
    let (a, b) = (id_of(g, a)?, id_of(g, b)?);
    loop_for(g, alloc, a, b, name)
}

#[test]
fn one_node_for_two(rt: HostRuntime) -> Result<(), Fail> {
    let mut g = row(rt.alloc())?;
    replace_two(&mut g, rt.alloc(), "a2", "b", "c")?;
    exchange_nothing(&mut g, rt.alloc())?;
    assert!(rt; feeds(&g, "c", "c") && !is_fed(&g, "a10"));
    replace_two(&mut g, rt.alloc(), "a10", "c", "d")?;
    assert!(rt; feeds(&g, "d", "d") && check_typed(&g).is_ok());
    assert_eq!(rt; (indices(&g, rt.alloc())?.len(), g.slots()), (1, 3));
    Ok(())
}

fn buffer(alloc: Global, name: &str) -> Result<Node, Fail>
    ensures { IfOk result (λ node. NodeOk node × (node.kind ≡ Buffer (8 ∷ []))) }
{
    node(alloc, name, Kind::Buffer(byte(alloc)?))
}

fn pair(alloc: Global, one: Node, other: Node) -> Result<Vec<Node>, Fail>
    ensures { IfOk result (λ nodes. nodes.items ≡ one ∷ other ∷ []) }
{
    let mut nodes = Vec::new(alloc);
    nodes.push(one)?;
    nodes.push(other)?;
    Ok(nodes)
}

/// Two Buffers, each of which feeds the other, in the places of the nodes with their names.
fn cross(g: &mut Graph, alloc: Global, one: Node, other: Node) -> Result<(), Fail>
    requires one { NodeOk one × (one.kind ≡ Buffer (8 ∷ [])) }
    requires other { NodeOk other × (other.kind ≡ Buffer (8 ∷ [])) }
{
    let a = g.find(one.name.bytes()).ok_or("no node")?;
    let b = g.find(other.name.bytes()).ok_or("no node")?;
    g.is_graph();
    if a == b {
        return Err("one node".into());
    }
    let fresh = pair(alloc, one, other)?;
    let (x, y) = (End::Fresh(0, 1), End::Fresh(1, 1));
    g.exchange([a, b].as_slice(), fresh, [(x, y), (y, x)].as_slice())?;
    Ok(())
}

/// Two Buffers, each of which feeds itself.
fn add_loops(g: &mut Graph, alloc: Global) -> Result<(), Fail> {
    for name in ["a", "b"] {
        let id = add(g, alloc, name, Kind::Buffer(byte(alloc)?))?;
        wire(g, id, id)?;
    }
    Ok(())
}

fn cross_two(g: &mut Graph, alloc: Global) -> Result<(), Fail> {
    let (one, other) = (buffer(alloc, "a")?, buffer(alloc, "b")?);
    cross(g, alloc, one, other)
}

#[test]
fn two_wires_exchange_their_ends(rt: HostRuntime) -> Result<(), Fail> {
    let mut g = Graph::new(rt.alloc());
    add_loops(&mut g, rt.alloc())?;
    assert!(rt; feeds(&g, "a", "a") && feeds(&g, "b", "b"));
    cross_two(&mut g, rt.alloc())?;
    assert!(rt; feeds(&g, "a", "b") && feeds(&g, "b", "a"));
    assert_eq!(rt; g.slots(), 2);
    Ok(())
}
