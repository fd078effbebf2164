//! Rows of the table of faults that are judged by what is behind a mark: each with the least node by name that it holds at.
ghost use Rattle.std.specs.Prelude.{◌≤◌, ◌≡◌, Bool, IfOk};
ghost use Rattle.circuits.specs.Circuit.{circuit_of};
ghost use Rattle.graph_core.specs.GraphValue.{name_by};
ghost use Rattle.loop_laws.specs.Reached.{OnTree, Reached};
ghost use Rattle.loop_laws.specs.Faults.{InBody, Inside, Row};
ghost use Rattle.loop_laws.specs.declared.fault.LoopFaultKind.TheVariants.{SelectLeaf, NotPure, ForeignInput};
ghost use Rattle.loop_find.specs.Judging.{IsJudged};
ghost use Rattle.loop_find.specs.Walks.{AreAll};

use crate::choose::{Test, choose};
use crate::least::least;
use crate::node_set::NodeSet;
use crate::tree::find_leaves;
use graph_core::{Graph, NodeId};
use port_types::NoMemory;

/// The least node by name that a wire from the mark or its tree enters and should not. `None` exactly where there is none. The only
/// error is want of memory.
pub(crate) fn select_leaf(
    g: &Graph,
    mark: NodeId,
    tree: &NodeSet,
    found: &mut NodeSet,
) -> Result<Option<NodeId>, NoMemory>
    requires tree { AreAll g.now (OnTree (circuit_of g.now.graph) (name_by g.now.ids mark)) tree.now.ids }
    requires room { g.now.slots ≤ found.old.room }
    ensures node { (goes_back : Bool) → IfOk result (IsJudged g.now (Row (circuit_of g.now.graph) (name_by g.now.ids mark) goes_back SelectLeaf)) }
    ensures room { found.new.room ≡ found.old.room }
{
    g.is_graph();
    find_leaves(g, mark, tree, found)?;
    Ok(least(g, found))
}

/// The least reached node by name whose kind is not pure. `None` exactly where there is none. The only error is want of memory.
pub(crate) fn not_pure(
    g: &Graph,
    mark: NodeId,
    reached: &NodeSet,
    found: &mut NodeSet,
) -> Result<Option<NodeId>, NoMemory>
    requires reached { AreAll g.now (Reached (circuit_of g.now.graph) (name_by g.now.ids mark)) reached.now.ids }
    requires room { g.now.slots ≤ found.old.room }
    ensures node { (goes_back : Bool) → IfOk result (IsJudged g.now (Row (circuit_of g.now.graph) (name_by g.now.ids mark) goes_back NotPure)) }
    ensures room { found.new.room ≡ found.old.room }
{
    g.is_graph();
    let _ = mark;
    choose(g, Test::Impure, reached, reached, found)?;
    Ok(least(g, found))
}

/// The least body node by name with an input that comes neither from a lane nor from the body. `None` exactly where there is none.
/// The only error is want of memory.
pub(crate) fn foreign_input(
    g: &Graph,
    mark: NodeId,
    goes_back: bool,
    body: &NodeSet,
    inside: &NodeSet,
    found: &mut NodeSet,
) -> Result<Option<NodeId>, NoMemory>
    requires body { AreAll g.now (InBody (circuit_of g.now.graph) (name_by g.now.ids mark) goes_back) body.now.ids }
    requires inside { AreAll g.now (Inside (circuit_of g.now.graph) (name_by g.now.ids mark) goes_back) inside.now.ids }
    requires room { g.now.slots ≤ found.old.room }
    ensures node { IfOk result (IsJudged g.now (Row (circuit_of g.now.graph) (name_by g.now.ids mark) goes_back ForeignInput)) }
    ensures room { found.new.room ≡ found.old.room }
{
    g.is_graph();
    let _ = (mark, goes_back);
    choose(g, Test::Foreign, inside, body, found)?;
    Ok(least(g, found))
}
