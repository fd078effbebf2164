//! The two graphs of the rules `mux_combine` and `mux_combine0`.
ghost use Rattle.std.specs.Prelude.{◌≡◌, IfOk};
ghost use Rattle.lane_laws.specs.CombineMuxes.{Tree, muxes_graph, one_mux_graph};
ghost use Rattle.mux_branch_rules.specs.MuxCombine.{mux_new_name, mux_old_name};
ghost use Rattle.mux_branch_rules.specs.MuxSides.{CanMuxSides, HasSources};

use crate::mux_lists::{MuxTree, left_nodes, left_wires, right_nodes, right_wires};
use graph_core::Graph;
use lane_laws::mux_combine_refines;
use port_types::NoMemory;
use std::alloc::Global;
use subst_engine::rule_graph;

/// The tree and the Muxes. The only error is want of memory.
pub(crate) fn left_graph(
    alloc: Global,
    prefix: u64,
    ends: u64,
    read: MuxTree<'_>,
) -> Result<Graph, NoMemory>
    requires { CanMuxSides prefix ends read.names.now read.kinds.now read.lanes.now read.sources.now }
    ensures { IfOk result (λ left. (tree : Tree read.entry.kinds.now read.entry.lanes.now) → HasSources tree read.entry.sources.now →
        left.graph ≡ muxes_graph read.entry.kinds.now read.entry.lanes.now tree (mux_old_name prefix ends read.entry.names.now read.entry.kinds.now read.entry.lanes.now)) }
{
    mux_combine_refines();
    let nodes = left_nodes(alloc, ends, read)?;
    let lanes = read.lanes.as_slice().len();
    let wires = left_wires(alloc, read.kinds.len(), lanes, read.sources)?;
    let made = rule_graph(alloc, nodes, wires.as_slice())?;
    Ok(made)
}

/// The Mux in their place. The only error is want of memory.
pub(crate) fn right_graph(
    alloc: Global,
    prefix: u64,
    ends: u64,
    read: MuxTree<'_>,
    goes_back: bool,
) -> Result<Graph, NoMemory>
    requires { CanMuxSides prefix ends read.names.now read.kinds.now read.lanes.now read.sources.now }
    ensures { IfOk result (λ right. right.graph ≡ one_mux_graph read.entry.lanes.now (mux_new_name prefix ends read.entry.names.now goes_back read.entry.lanes.now)) }
{
    mux_combine_refines();
    let nodes = right_nodes(alloc, prefix, ends, read.lanes, goes_back)?;
    let wires = right_wires(alloc, read.lanes.as_slice().len())?;
    let made = rule_graph(alloc, nodes, wires.as_slice())?;
    Ok(made)
}
