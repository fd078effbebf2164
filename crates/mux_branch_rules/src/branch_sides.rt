//! The two graphs of the rules `branch_combine` and `branch_combine0`.
ghost use Rattle.std.specs.Prelude.{◌≡◌, ◌∷◌, IfOk};
ghost use Rattle.lane_laws.specs.CombineBranches.{branches_graph, one_branch_graph};
ghost use Rattle.mux_branch_rules.specs.BranchCombine.{new_name, old_name};
ghost use Rattle.mux_branch_rules.specs.BranchSides.{CanBranchSides};

use crate::branch_lists::{left_nodes, left_wires, right_nodes, right_wires};
use graph_core::Graph;
use lane_laws::branch_combine_refines;
use port_types::{Items, NoMemory, Shape, Text};
use std::alloc::Global;
use subst_engine::rule_graph;

/// The Fork and the Branches. The only error is want of memory.
pub(crate) fn left_graph(
    alloc: Global,
    prefix: u64,
    ends: u64,
    fork: &Text,
    branches: &[Text],
    lanes: &Items<Shape>,
) -> Result<Graph, NoMemory>
    requires { CanBranchSides prefix ends fork.now branches.now lanes.now }
    ensures { IfOk result (λ left. left.graph ≡ branches_graph lanes.now (old_name prefix ends (fork.now ∷ branches.now) lanes.now)) }
{
    branch_combine_refines();
    let nodes = left_nodes(alloc, ends, fork, branches, lanes)?;
    let wires = left_wires(alloc, lanes.as_slice().len())?;
    let made = rule_graph(alloc, nodes, wires.as_slice())?;
    Ok(made)
}

/// The Branch in their place. The only error is want of memory.
pub(crate) fn right_graph(
    alloc: Global,
    prefix: u64,
    ends: u64,
    fork: &Text,
    branches: &[Text],
    lanes: &Items<Shape>,
    goes_back: bool,
) -> Result<Graph, NoMemory>
    requires { CanBranchSides prefix ends fork.now branches.now lanes.now }
    ensures { IfOk result (λ right. right.graph ≡ one_branch_graph lanes.now (new_name prefix ends (fork.now ∷ branches.now) goes_back lanes.now)) }
{
    branch_combine_refines();
    let nodes = right_nodes(alloc, prefix, ends, lanes, goes_back)?;
    let wires = right_wires(alloc, lanes.as_slice().len())?;
    let made = rule_graph(alloc, nodes, wires.as_slice())?;
    Ok(made)
}
