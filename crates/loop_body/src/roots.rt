//! Where the condition and the data of a body come from.
ghost use Rattle.std.specs.Prelude.{◌≡◌, ◌≤◌, ◌↔◌, ◌∷◌, [], length, true, Some, None, IsTrue, IfOk};
ghost use Rattle.std.specs.List.{list_any};
ghost use Rattle.fun_expr.specs.Each.{Each};
ghost use Rattle.loop_body.specs.Judging.{kinds_of, root_in, passed_root, roots_from, is_reached, reached_from, HaveOneRoot};

use crate::body_port::BodyPort;
use components::{Kind, Node};
use port_types::{Items, NoMemory};
use std::alloc::Global;

/// The root of an output, where these are the roots of the outputs of each row that passes on.
fn root_in(roots: &[Option<BodyPort>], port: BodyPort) -> BodyPort
    ensures { result ≡ root_in roots.now port }
{
    match roots.get(port.node) {
        Some(Some(root)) => *root,
        Some(None) => port,
        None => port,
    }
}

/// The root of the outputs of a node that passes on.
fn passed_root(roots: &[Option<BodyPort>], kind: &Kind, ports: &[BodyPort]) -> Option<BodyPort>
    ensures { result ≡ passed_root roots.now kind.now ports.now }
{
    match kind {
        Kind::Buffer(_) | Kind::Fork(..) => Some(root_in(roots, *ports.first()?)),
        Kind::Join(_)
        | Kind::Split(_)
        | Kind::Operator(..)
        | Kind::Constant(..)
        | Kind::Source0(_)
        | Kind::Sink0(_)
        | Kind::Pure(..)
        | Kind::Entry(_)
        | Kind::Exit(_)
        | Kind::Mux(_)
        | Kind::Branch(_)
        | Kind::Merge(..)
        | Kind::CtrlMerge(..)
        | Kind::Init(..)
        | Kind::Tagger(..) => None,
    }
}

/// For the Split and for each node the root of its outputs, where it passes on.
fn roots(
    alloc: Global,
    nodes: &[Node],
    inputs: &[Items<BodyPort>],
) -> Result<Vec<Option<BodyPort>>, NoMemory>
    requires { length nodes.now ≡ length inputs.now }
    ensures { IfOk result (λ roots. roots.items ≡ roots_from (None ∷ []) (kinds_of nodes.now) inputs.now) }
{
    let mut roots = Vec::new(alloc);
    roots.push(None)?;
    for (i, node) in nodes.iter().enumerate() {
        let root = passed_root(&roots, &node.kind, inputs[i].as_slice());
        roots.push(root)?;
    }
    Ok(roots)
}

/// Whether the lanes reach the row of an output.
fn is_reached(reached: &[bool], port: BodyPort) -> bool
    ensures { result ≡ is_reached reached.now port }
{
    match reached.get(port.node) {
        Some(is) => *is,
        None => false,
    }
}

/// Whether the lanes reach the row of one of the outputs.
fn is_any_reached(reached: &[bool], ports: &[BodyPort]) -> bool
    ensures { result ≡ list_any (is_reached reached.now) ports.now }
{
    ports.iter().any(|port| is_reached(reached, *port))
}

/// For the Split and for each node whether the lanes reach it.
fn reached(alloc: Global, inputs: &[Items<BodyPort>]) -> Result<Vec<bool>, NoMemory>
    ensures { IfOk result (λ reached. reached.items ≡ reached_from (true ∷ []) inputs.now) }
{
    let mut reached = Vec::new(alloc);
    reached.push(true)?;
    for ports in inputs {
        let is = is_any_reached(&reached, ports.as_slice());
        reached.push(is)?;
    }
    Ok(reached)
}

/// Whether the output has this root.
fn has_root(roots: &[Option<BodyPort>], port: BodyPort, root: BodyPort) -> bool
    ensures { IsTrue result ↔ (root_in roots.now port ≡ root) }
{
    root_in(roots, port) == root
}

/// Whether each output has this root.
fn share_root(roots: &[Option<BodyPort>], ports: &[BodyPort], root: BodyPort) -> bool
    ensures { IsTrue result ↔ Each (λ port. root_in roots.now port ≡ root) ports.now }
{
    ports.iter().all(|port| has_root(roots, *port, root))
}

/// Whether all outputs have one root, and the lanes reach it.
fn have_one_root(roots: &[Option<BodyPort>], reached: &[bool], ports: &[BodyPort]) -> bool
    ensures { IsTrue result ↔ HaveOneRoot roots.now reached.now ports.now }
{
    match ports.first() {
        Some(first) => {
            let root = root_in(roots, *first);
            is_reached(reached, root) && share_root(roots, ports, root)
        }
        None => false,
    }
}

/// Whether all conditions have one root that the lanes reach, and some data come from the lanes.
pub(crate) fn come_from_lanes(
    alloc: Global,
    nodes: &[Node],
    inputs: &[Items<BodyPort>],
    next: &[BodyPort],
    conditions: &[BodyPort],
) -> Result<bool, NoMemory>
    requires { length nodes.now ≡ length inputs.now }
    ensures { IfOk result (λ from. IsTrue from ↔ HaveOneRoot (roots_from (None ∷ []) (kinds_of nodes.now) inputs.now) (reached_from (true ∷ []) inputs.now) conditions.now × IsTrue (list_any (is_reached (reached_from (true ∷ []) inputs.now)) next.now)) }
{
    let roots = roots(alloc, nodes, inputs)?;
    let reached = reached(alloc, inputs)?;
    Ok(have_one_root(&roots, &reached, conditions) && is_any_reached(&reached, next))
}
