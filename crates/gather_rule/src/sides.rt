//! The two graphs of the rule `gather`.
ghost use Rattle.std.specs.Prelude.{◌≡◌, IfOk};
ghost use Rattle.gather_rule.specs.Gather.{gather};
ghost use Rattle.gather_rule.specs.GatherSides.{CanMakeSides};

use crate::laws::gather_is_sound;
use crate::lists::{left_nodes, left_wires, right_nodes, right_wires};
use components::ports_are_shapes;
use graph_core::Graph;
use loop_body::{Body, body_fun};
use port_types::{Items, NoMemory, Shape, Text};
use std::alloc::Global;
use subst_engine::rule_graph;

/// The Split and the nodes of the body. The only error is want of memory.
pub(crate) fn left_graph(
    alloc: Global,
    prefix: u64,
    ends: u64,
    split: &Text,
    body: &Body,
    lanes: &Items<Shape>,
) -> Result<Graph, NoMemory>
    requires { CanMakeSides prefix ends split.now body.now lanes.now }
    ensures { IfOk result (λ left. left.graph ≡ (gather prefix ends split.now body.now).left) }
{
    gather_is_sound();
    ports_are_shapes();
    let inputs = body.inputs.as_slice();
    let next = body.next.as_slice();
    let conditions = body.conditions.as_slice();
    let nodes = left_nodes(
        alloc,
        ends,
        split,
        &body.vars,
        body.nodes.as_slice(),
        lanes.as_slice(),
    )?;
    let wires = left_wires(alloc, inputs, next, conditions)?;
    let made = rule_graph(alloc, nodes, wires.as_slice())?;
    Ok(made)
}

/// The Pure in their place. The only error is want of memory.
pub(crate) fn right_graph(
    alloc: Global,
    prefix: u64,
    ends: u64,
    split: &Text,
    body: &Body,
    lanes: &Items<Shape>,
) -> Result<Graph, NoMemory>
    requires { CanMakeSides prefix ends split.now body.now lanes.now }
    ensures { IfOk result (λ right. right.graph ≡ (gather prefix ends split.now body.now).right) }
{
    gather_is_sound();
    let fun = body_fun(alloc, body)?;
    let nodes = right_nodes(alloc, prefix, ends, &body.vars, fun, lanes)?;
    let wires = right_wires(alloc, lanes.as_slice().len())?;
    let made = rule_graph(alloc, nodes, wires.as_slice())?;
    Ok(made)
}
