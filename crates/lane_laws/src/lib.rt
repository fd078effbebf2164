//! Parts of circuits with as many lanes as one likes, and what comes in their place: definitions and laws, and no calls.
//!
//! The definitions, in `specs/`: `SplitJoin`, a Split whose outputs are joined again, and a wire;
//! `TrimFork`, a Fork with a Sink at one of its outputs, and the Fork of the other outputs;
//! `CombineBranches`, the Branches of several lanes, and one Branch; `CombineMuxes`, the Muxes of several lanes with
//! the tree of Forks and Buffers that leads one select to them, and one Mux; `GraphTree`, such a tree
//! among listed nodes of a circuit; `Laws`: what the functions below prove.
//!
//! Each function is a law: its contract cites `Laws`, and its body names the laws of lower crates that the proof needs.
#![tactic(auto)]

ghost use Rattle.lane_laws.specs.Laws.{CombinedBranchesRefine, CombinedMuxesRefine, CombiningBranchesIsRule, CombiningMuxesIsRule, ListedNodesMakeTree, SplitJoinIsRule, SplitJoinRefines, TrimForkIsRule, TrimForkRefines, TreesAreFound};

use circuits::graph_typed_as_circuit;
use fun_expr::fun_value_fits;
use op_table::value_fits;

/// For every list of shapes, a wire may come in the place of a Split whose outputs are joined again, and shows nothing that the two do
/// not show, in no surrounding circuit.
pub fn split_join_refines()
    ensures rule { SplitJoinIsRule }
    ensures refines { SplitJoinRefines }
{
    value_fits();
    fun_value_fits();
    graph_typed_as_circuit();
}

/// For every number of outputs, and whichever of them feeds the Sink, the Fork of the other outputs may come in the place of a Fork and
/// a Sink, and shows nothing that the two do not show, in no surrounding circuit.
pub fn trim_fork_refines()
    ensures rule { TrimForkIsRule }
    ensures refines { TrimForkRefines }
{
    value_fits();
    fun_value_fits();
    graph_typed_as_circuit();
}

/// For every list of lanes, one Branch between a Join and two Splits may come in the place of the lanes' Branches and the Fork that leads
/// the condition to them, and shows nothing that they do not show, in no surrounding circuit.
pub fn branch_combine_refines()
    ensures rule { CombiningBranchesIsRule }
    ensures refines { CombinedBranchesRefine }
{
    value_fits();
    fun_value_fits();
    graph_typed_as_circuit();
}

/// For every list of lanes and every tree of Forks and Buffers, one Mux between two Joins and a Split may come in the place of the lanes'
/// Muxes and the tree that leads one select to them, and shows nothing that they do not show, in no surrounding circuit.
pub fn mux_combine_refines()
    ensures rule { CombiningMuxesIsRule }
    ensures refines { CombinedMuxesRefine }
{
    value_fits();
    fun_value_fits();
    graph_typed_as_circuit();
}

/// Listed Forks, Buffers and Muxes of a typed circuit, of whose inputs and selects exactly one is fed from outside them, make a tree; and
/// each tree is found so in the graph of its Muxes.
pub fn listed_nodes_make_a_tree()
    ensures make { ListedNodesMakeTree }
    ensures found { TreesAreFound }
{}
