//! The nodes and the wires of the two graphs of `gather`.
ghost use Rattle.std.specs.Prelude.{◌≡◌, ◌≤◌, ◌+◌, ◌++◌, ◌∷◌, ◌<◌, [], IfOk, OnOk, Some, length, map, slice_get};
ghost use Rattle.std.specs.List.{AllByRecursion, concat};
ghost use Rattle.components.specs.declared.kind.Kind.TheVariants.{Fork, Pure, Split};
ghost use Rattle.components.specs.Kind.{field};
ghost use Rattle.port_types.specs.Shape.{IsShape};
ghost use Rattle.subst_engine.specs.Making.{bare_node};
ghost use Rattle.gather_rule.specs.GatherSides.{left_list, out_end, right_ends, right_list, way_nodes, AreNear, body_ends, inputs_ends, ports_ends, ways_ends};
ghost use Rattle.gather_rule.specs.NumberedBody.{numbered_port};

use components::{Kind, Node};
use drawn_rules::{
    EndKind, Row, bit_shape, copies, joined_shape, push_end, push_ends, push_listed, push_new,
    push_wires,
};
use fun_expr::Fun;
use graph_core::End;
use loop_body::BodyPort;
use port_types::{Items, NoMemory, Shape, Text};
use std::alloc::Global;

/// The Entry, the Split, the nodes of the body, and the Exits of the data wires and the condition wires.
pub(crate) fn left_nodes(
    alloc: Global,
    ends: u64,
    split: &Text,
    vars: &Items<Shape>,
    body: &[Node],
    lanes: &[Shape],
) -> Result<Vec<Node>, NoMemory>
    requires few { length lanes.now ≤ 63 }
    requires input { IsShape (concat vars.now) }
    ensures { IfOk result (λ nodes. nodes.items ≡ left_list ends split.now vars.now body.now lanes.now) }
{
    let input = joined_shape(alloc, vars.as_slice())?;
    let mut nodes = Vec::new(alloc);
    push_end(&mut nodes, alloc, ends, "e", EndKind::Entry, &input)?;
    push_listed(&mut nodes, alloc, split, split_kind(vars)?)?;
    push_bodies(&mut nodes, alloc, body)?;
    push_ways(&mut nodes, alloc, ends, lanes)?;
    Ok(nodes)
}

/// The Entry, the Pure, the two Splits and the Fork, and the same Exits.
pub(crate) fn right_nodes(
    alloc: Global,
    prefix: u64,
    ends: u64,
    vars: &Items<Shape>,
    fun: Fun,
    lanes: &Items<Shape>,
) -> Result<Vec<Node>, NoMemory>
    requires few { length lanes.now ≤ 63 }
    requires input { IsShape (concat vars.now) }
    requires data { IsShape (concat lanes.now) }
    requires whole { IsShape (concat lanes.now ++ 1 ∷ []) }
    ensures { IfOk result (λ nodes. nodes.items ≡ right_list prefix ends vars.now fun lanes.now) }
{
    let input = joined_shape(alloc, vars.as_slice())?;
    let count = lanes.as_slice().len() as u8;
    let mut nodes = Vec::new(alloc);
    push_end(&mut nodes, alloc, ends, "e", EndKind::Entry, &input)?;
    push_new(
        &mut nodes,
        alloc,
        prefix,
        "pure",
        pure_kind(alloc, fun, lanes.as_slice())?,
    )?;
    push_new(
        &mut nodes,
        alloc,
        prefix,
        "pair",
        pair_kind(alloc, lanes.as_slice())?,
    )?;
    push_new(&mut nodes, alloc, prefix, "vals", split_kind(lanes)?)?;
    push_new(
        &mut nodes,
        alloc,
        prefix,
        "fork",
        bit_fork(alloc, count + 1)?,
    )?;
    push_ways(&mut nodes, alloc, ends, lanes.as_slice())?;
    Ok(nodes)
}

/// Appends the nodes of a body, without kept attributes.
fn push_bodies(nodes: &mut Vec<Node>, alloc: Global, body: &[Node]) -> Result<(), NoMemory>
    ensures { OnOk result (nodes.new.items ≡ nodes.old.items ++ map (λ node. bare_node node.name node.kind) body.now) }
{
    for index in 0..body.len() {
        push_bare(nodes, alloc, &body[index])?;
    }
    Ok(())
}

fn push_bare(nodes: &mut Vec<Node>, alloc: Global, node: &Node) -> Result<(), NoMemory>
    ensures { OnOk result (nodes.new.items ≡ nodes.old.items ++ bare_node node.now.name node.now.kind ∷ []) }
{
    let kind = node.kind.clone()?;
    push_listed(nodes, alloc, &node.name, kind)?;
    Ok(())
}

/// Appends the Exits of the data wires and of the condition wires.
fn push_ways(
    nodes: &mut Vec<Node>,
    alloc: Global,
    ends: u64,
    lanes: &[Shape],
) -> Result<(), NoMemory>
    requires { length lanes.now ≤ 63 }
    ensures { OnOk result (nodes.new.items ≡ nodes.old.items ++ way_nodes ends lanes.now) }
{
    let bit = bit_shape(alloc)?;
    let bits = copies(alloc, &bit, lanes.len() + 1)?;
    push_ends(nodes, alloc, ends, "x", EndKind::Exit, lanes)?;
    push_ends(nodes, alloc, ends, "y", EndKind::Exit, bits.as_slice())?;
    Ok(())
}

fn split_kind(parts: &Items<Shape>) -> Result<Kind, NoMemory>
    ensures { IfOk result (λ kind. kind ≡ Split parts.now) }
{
    Ok(Kind::Split(parts.clone()?))
}

/// The shape of the data wires together, and that of a bit.
fn pair(alloc: Global, lanes: &[Shape]) -> Result<Items<Shape>, NoMemory>
    requires { IsShape (concat lanes.now) }
    ensures { IfOk result (λ parts. parts ≡ concat lanes.now ∷ (1 ∷ []) ∷ []) }
{
    let data = joined_shape(alloc, lanes)?;
    let bit = bit_shape(alloc)?;
    Ok(Items::new(vec![in alloc; data, bit]?))
}

fn pair_kind(alloc: Global, lanes: &[Shape]) -> Result<Kind, NoMemory>
    requires { IsShape (concat lanes.now) }
    ensures { IfOk result (λ kind. kind ≡ Split (concat lanes.now ∷ (1 ∷ []) ∷ [])) }
{
    Ok(Kind::Split(pair(alloc, lanes)?))
}

/// The Pure of a function, which gives the data wires and a bit.
fn pure_kind(alloc: Global, fun: Fun, lanes: &[Shape]) -> Result<Kind, NoMemory>
    requires data { IsShape (concat lanes.now) }
    requires whole { IsShape (concat lanes.now ++ 1 ∷ []) }
    ensures { IfOk result (λ kind. kind ≡ Pure fun (concat lanes.now ++ 1 ∷ [])) }
{
    let parts = pair(alloc, lanes)?;
    let whole = joined_shape(alloc, parts.as_slice())?;
    Ok(Kind::Pure(fun, whole))
}

/// A Fork of a bit.
fn bit_fork(alloc: Global, count: u8) -> Result<Kind, NoMemory>
    ensures { IfOk result (λ kind. kind ≡ Fork (field 1) count) }
{
    Ok(Kind::Fork(bit_shape(alloc)?, count))
}

/// The wires of the body.
pub(crate) fn left_wires(
    alloc: Global,
    inputs: &[Items<BodyPort>],
    next: &[BodyPort],
    conditions: &[BodyPort],
) -> Result<Vec<(End, End)>, NoMemory>
    requires nodes { length inputs.now ≤ 4096 }
    requires lanes { length next.now ≤ 63 }
    requires ways { length conditions.now ≤ 64 }
    requires few { AllByRecursion (λ ports. length ports ≤ 64) inputs.now }
    requires near_inputs { AllByRecursion AreNear inputs.now }
    requires near_next { AreNear next.now }
    requires near_conditions { AreNear conditions.now }
    ensures { IfOk result (λ wires. wires.items ≡ body_ends inputs.now next.now conditions.now) }
{
    let mut wires = vec![in alloc; (End::Fresh(0, 1), End::Fresh(1, 1))]?;
    push_inputs(&mut wires, inputs)?;
    let exits = 2 + inputs.len();
    push_exits(&mut wires, exits, next)?;
    push_exits(&mut wires, exits + next.len(), conditions)?;
    Ok(wires)
}

/// Appends the wires into the nodes of the body.
fn push_inputs(wires: &mut Vec<(End, End)>, inputs: &[Items<BodyPort>]) -> Result<(), NoMemory>
    requires nodes { length inputs.now ≤ 4096 }
    requires few { AllByRecursion (λ ports. length ports ≤ 64) inputs.now }
    requires near { AllByRecursion AreNear inputs.now }
    ensures { OnOk result (wires.new.items ≡ wires.old.items ++ inputs_ends 2 inputs.now) }
{
    for index in 0..inputs.len() {
        push_ports(wires, 2 + index, inputs[index].as_slice())?;
    }
    Ok(())
}

/// Appends the wires into the node at a place.
fn push_ports(wires: &mut Vec<(End, End)>, place: usize, ports: &[BodyPort]) -> Result<(), NoMemory>
    requires few { length ports.now ≤ 64 }
    requires near { AreNear ports.now }
    ensures { OnOk result (wires.new.items ≡ wires.old.items ++ ports_ends place ports.now) }
{
    for index in 0..ports.len() {
        let port = port_at(ports, index);
        wires.push((out_end(port), End::Fresh(place, index as u8 + 1)))?;
    }
    Ok(())
}

/// Appends the wires into the Exits from a place on.
fn push_exits(wires: &mut Vec<(End, End)>, place: usize, ports: &[BodyPort]) -> Result<(), NoMemory>
    requires place { place ≤ 5000 }
    requires few { length ports.now ≤ 64 }
    requires near { AreNear ports.now }
    ensures { OnOk result (wires.new.items ≡ wires.old.items ++ ways_ends place ports.now) }
{
    for index in 0..ports.len() {
        let port = port_at(ports, index);
        wires.push((out_end(port), End::Fresh(place + index, 1)))?;
    }
    Ok(())
}

/// The output at an index.
fn port_at(ports: &[BodyPort], index: usize) -> BodyPort
    requires { index < length ports.now }
    ensures { slice_get ports.now index ≡ Some result }
{
    ports[index]
}

/// The end of an output of a body, whose Split stands at place 1.
fn out_end(port: BodyPort) -> End
    requires { port.node ≤ 4096 }
    ensures { result ≡ out_end (numbered_port port) }
{
    End::Fresh(port.node + 1, port.port)
}

/// The wires of the Pure, for so many data wires.
pub(crate) fn right_wires(alloc: Global, lanes: usize) -> Result<Vec<(End, End)>, NoMemory>
    requires { lanes ≤ 63 }
    ensures { IfOk result (λ wires. wires.items ≡ right_ends lanes) }
{
    let mut wires = vec![in alloc;
        (End::Fresh(0, 1), End::Fresh(1, 1)),
        (End::Fresh(1, 1), End::Fresh(2, 1)),
        (End::Fresh(2, 1), End::Fresh(3, 1)),
        (End::Fresh(2, 2), End::Fresh(4, 1)),
    ]?;
    push_wires(&mut wires, lanes, Row::Ports(3), Row::Nodes(5, 1))?;
    push_wires(
        &mut wires,
        lanes + 1,
        Row::Ports(4),
        Row::Nodes(5 + lanes, 1),
    )?;
    Ok(wires)
}
