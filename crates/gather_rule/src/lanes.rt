//! The data wires of a body.
ghost use Rattle.std.specs.Prelude.{◌≡◌, ◌<◌, ◌∷◌, ◌↔◌, Some, IsTrue, IfOk, MatchOption, length, map, slice_get};
ghost use Rattle.std.specs.Option.{option_copied};
ghost use Rattle.components.specs.declared.kind.Kind.TheVariants.{Split};
ghost use Rattle.components.specs.Kind.{KindOk, outs};
ghost use Rattle.fun_expr.specs.Each.{Each};
ghost use Rattle.loop_body.specs.Body.{entry, IsBody};
ghost use Rattle.loop_body.specs.Laws.{next_shapes};
ghost use Rattle.gather_rule.specs.Gather.{CanGather};
ghost use Rattle.gather_rule.specs.GatherSides.{AreShapesAt, CanGatherLanes};

use components::{Kind, Node, has_port, kind_ok, port_shape};
use drawn_rules::joined_shape;
use loop_body::{Body, BodyPort};
use port_types::{Items, NoMemory, Shape, Side};
use std::alloc::Global;

/// The kind of the Split, for node 0, or of the node of this number.
fn kind_at<'a>(split: &'a Kind, nodes: &'a [Node], node: usize) -> Option<&'a Kind>
    ensures { option_copied result ≡ slice_get (split.now ∷ map (λ n. n.kind) nodes.now) node }
{
    if node == 0 {
        return Some(split);
    }
    Some(&node_at(nodes, node - 1)?.kind)
}

fn node_at(nodes: &[Node], index: usize) -> Option<&Node>
    ensures { option_copied result ≡ slice_get nodes.now index }
{
    nodes.get(index)
}

fn split_kind(vars: &Items<Shape>) -> Result<Kind, NoMemory>
    ensures { IfOk result (λ kind. kind ≡ Split vars.now) }
{
    Ok(Kind::Split(vars.clone()?))
}

/// The shape of an output of a Split, or of one of some nodes. `None` exactly where there is no such output.
fn shape_at(
    alloc: Global,
    split: &Kind,
    nodes: &[Node],
    port: BodyPort,
) -> Result<Option<Shape>, NoMemory>
    requires { Each KindOk (split.now ∷ map (λ n. n.kind) nodes.now) }
    ensures { IfOk result (λ shape. shape ≡ entry (map outs (split.now ∷ map (λ n. n.kind) nodes.now)) port) }
{
    let Some(kind) = kind_at(split, nodes, port.node) else {
        return Ok(None);
    };
    if !has_port(kind, Side::Outs, port.port) {
        return Ok(None);
    }
    let shape = port_shape(alloc, kind, Side::Outs, port.port)?;
    Ok(Some(shape))
}

/// The output at an index.
fn port_at(ports: &[BodyPort], index: usize) -> BodyPort
    requires { index < length ports.now }
    ensures { slice_get ports.now index ≡ Some result }
{
    ports[index]
}

/// The shapes of outputs. `None` only where there is no such output. The only error is want of memory.
fn shapes_at(
    alloc: Global,
    split: &Kind,
    nodes: &[Node],
    ports: &[BodyPort],
) -> Result<Option<Items<Shape>>, NoMemory>
    requires { Each KindOk (split.now ∷ map (λ n. n.kind) nodes.now) }
    ensures { IfOk result (λ found. AreShapesAt (split.now ∷ map (λ n. n.kind) nodes.now) ports.now found) }
{
    let mut shapes = Vec::new(alloc);
    for index in 0..ports.len() {
        let port = port_at(ports, index);
        let Some(shape) = shape_at(alloc, split, nodes, port)? else {
            return Ok(None);
        };
        shapes.push(shape)?;
    }
    Ok(Some(Items::new(shapes)))
}

/// The shapes of the data wires of a body. `None` only where there is one without a shape. The only error is want of memory.
pub(crate) fn lanes_of(alloc: Global, body: &Body) -> Result<Option<Items<Shape>>, NoMemory>
    requires { IsBody body.now }
    ensures { IfOk result (λ found. MatchOption found (¬ (CanGather body.now)) (λ lanes. lanes ≡ next_shapes body.now)) }
{
    let split = split_kind(&body.vars)?;
    let lanes = shapes_at(alloc, &split, body.nodes.as_slice(), body.next.as_slice())?;
    Ok(lanes)
}

/// Whether the Pure of a body with these data wires, and the nodes behind it, are within the limits. The only error is want of memory.
pub(crate) fn can_gather(alloc: Global, lanes: &Items<Shape>) -> Result<bool, NoMemory>
    ensures { IfOk result (λ can. IsTrue can ↔ CanGatherLanes lanes.now) }
{
    let join = Kind::Join(lanes.clone()?);
    if lanes.as_slice().len() > 63 || !kind_ok(&join) {
        return Ok(false);
    }
    let whole = joined_shape(alloc, lanes.as_slice())?;
    Ok(whole.widths().len() <= 127)
}
