//! Whether the nodes of a body fit together.
ghost use Rattle.std.specs.Prelude.{◌≡◌, ◌↔◌, ◌∷◌, ◌≤◌, ◌<◌, [], map, length, Some, IsTrue, IsSome, slice_get};
ghost use Rattle.std.specs.Option.{option_copied};
ghost use Rattle.components.specs.Kind.{KindOk, ins, outs};
ghost use Rattle.components.specs.Name.{port_get};
ghost use Rattle.fun_expr.specs.Each.{Each};
ghost use Rattle.loop_body.specs.BodyKind.{MayStand};
ghost use Rattle.loop_body.specs.Body.{entry, NodesFit};
ghost use Rattle.loop_body.specs.Judging.{kinds_of, rows_of};

use crate::body_port::BodyPort;
use crate::kinds::may_stand;
use components::{Kind, Node, has_port, have_one_shape, inputs};
use port_types::{Items, Side};

/// The kind of the Split, for node 0, or of the node of this number.
fn kind_at<'a>(split: &'a Kind, nodes: &'a [Node], node: usize) -> Option<&'a Kind>
    ensures { option_copied result ≡ slice_get (split.now ∷ kinds_of nodes.now) node }
{
    if node == 0 {
        return Some(split);
    }
    Some(&node_at(nodes, node - 1)?.kind)
}

/// The node at this index.
fn node_at(nodes: &[Node], index: usize) -> Option<&Node>
    ensures { option_copied result ≡ slice_get nodes.now index }
{
    nodes.get(index)
}

/// Whether the output is there and has the shape of this input of another kind.
pub(crate) fn has_shape_of(
    split: &Kind,
    nodes: &[Node],
    port: BodyPort,
    target: &Kind,
    input: u8,
) -> bool
    requires split_ok { KindOk split.now }
    requires nodes_ok { Each KindOk (kinds_of nodes.now) }
    requires target_ok { KindOk target.now }
    requires there { IsSome (port_get (ins target.now) input) }
    ensures { IsTrue result ↔ (entry (rows_of (split.now ∷ kinds_of nodes.now)) port ≡ port_get (ins target.now) input) }
{
    match kind_at(split, nodes, port.node) {
        Some(source) => {
            has_port(source, Side::Outs, port.port)
                && have_one_shape(source, port.port, target, input)
        }
        None => false,
    }
}

/// The output at an index.
fn port_at(ports: &[BodyPort], index: usize) -> BodyPort
    requires { index < length ports.now }
    ensures { slice_get ports.now index ≡ Some result }
{
    ports[index]
}

/// Whether the outputs of the Split and of these nodes have the shapes of the inputs of another kind, in order.
fn feed(split: &Kind, nodes: &[Node], ports: &[BodyPort], target: &Kind) -> bool
    requires split_ok { KindOk split.now }
    requires nodes_ok { Each KindOk (kinds_of nodes.now) }
    requires target_ok { KindOk target.now }
    ensures { IsTrue result ↔ (map (entry (rows_of (split.now ∷ kinds_of nodes.now))) ports.now ≡ map Some (ins target.now)) }
{
    let count = inputs(target);
    if ports.len() != count as usize {
        return false;
    }
    for i in 0..count {
        let port = port_at(ports, i as usize);
        if !has_shape_of(split, nodes, port, target, i + 1) {
            return false;
        }
    }
    true
}

/// Whether the node may stand in a body, and takes tokens of the shapes of its inputs from the Split and from these nodes.
fn node_fits(split: &Kind, before: &[Node], kind: &Kind, ports: &[BodyPort]) -> bool
    requires split_ok { KindOk split.now }
    requires nodes_ok { Each KindOk (kinds_of before.now) }
    ensures { IsTrue result ↔ MayStand kind.now × (map (entry (rows_of (split.now ∷ kinds_of before.now))) ports.now ≡ map Some (ins kind.now)) }
{
    may_stand(kind) && feed(split, before, ports, kind)
}

/// Whether the nodes may stand in a body, and each takes tokens of the shapes of its inputs from the Split and from the nodes before it.
pub(crate) fn nodes_fit(split: &Kind, nodes: &[Node], inputs: &[Items<BodyPort>]) -> bool
    requires { KindOk split.now }
    ensures { IsTrue result ↔ NodesFit (outs split.now ∷ []) (kinds_of nodes.now) inputs.now }
{
    if nodes.len() != inputs.len() {
        return false;
    }
    for (i, node) in nodes.iter().enumerate() {
        let ports = inputs[i].as_slice();
        if !node_fits(split, &nodes[..i], &node.kind, ports) {
            return false;
        }
    }
    true
}
