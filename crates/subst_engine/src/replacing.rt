//! One part of a graph in the place of another.
ghost use Rattle.std.specs.Prelude.{OnOk, OnErr, IfErr, ◌≡◌};
ghost use Rattle.circuits.specs.Circuit.{circuit_of};
ghost use Rattle.circuits.specs.Refines.{Refines};
ghost use Rattle.circuits.specs.ReplacedGraph.{IsRule};
ghost use Rattle.components.specs.NamedGraph.{IsTyped};
ghost use Rattle.subst_engine.specs.NewWires.{CanReplace};
ghost use Rattle.subst_engine.specs.Replaced.{IsExchangedPart, IsReplaced, Refuses};

use crate::fresh::fresh_nodes;
use crate::gone::gone_ids;
use crate::matching::graphs_match;
use crate::rule::Rule;
use crate::wires::new_wires;
use circuits::{graph_replacement_refines, replaced_graph_as_circuit};
use graph_core::Graph;
use port_types::NoMemory;
use std::alloc::Global;

/// Why a rule was not applied.
#[derive(Clone, Copy, Debug, PartialEq, Eq)]
pub enum ReplaceFault {
    /// The rule does not match.
    NoMatch,
    NoMemory,
}

/// Applies a rule to a typed graph: the inner nodes of its left graph go, and those of its right graph come in their places, with the wires of
/// the right graph. The graph is typed then, and in no surrounding circuit shows anything that it did not show before. The ids of nodes that
/// stay stay. An error leaves the graph as it was: `NoMatch` exactly where the rule does not match (`matches`), and `NoMemory`.
pub fn replace<R: Rule>(alloc: Global, g: &mut Graph, rule: &R) -> Result<(), ReplaceFault>
    requires { IsTyped g.old.graph }
    ensures ok { OnOk result (IsReplaced g.old (R.named rule.now).left (R.named rule.now).right g.new) }
    ensures refused { IfErr result (Refuses g.old.graph (R.named rule.now).left (R.named rule.now).right) }
    ensures err { OnErr result (g.new ≡ g.old) }
{
    replace_part(alloc, g, rule.left(), rule.right())
}

/// Puts `right` in the place of `left`, where the rule of these graphs matches.
fn replace_part(
    alloc: Global,
    g: &mut Graph,
    left: &Graph,
    right: &Graph,
) -> Result<(), ReplaceFault>
    requires typed { IsTyped g.old.graph }
    requires rule { IsRule left.now.graph right.now.graph }
    requires refines { Refines (circuit_of right.now.graph) (circuit_of left.now.graph) }
    ensures ok { OnOk result (IsReplaced g.old left.now.graph right.now.graph g.new) }
    ensures refused { IfErr result (Refuses g.old.graph left.now.graph right.now.graph) }
    ensures err { OnErr result (g.new ≡ g.old) }
{
    graph_replacement_refines();
    if !graphs_match(g, left, right) {
        return Err(ReplaceFault::NoMatch);
    }
    match exchange_part(alloc, g, left, right) {
        Ok(()) => Ok(()),
        Err(NoMemory) => Err(ReplaceFault::NoMemory),
    }
}

/// Exchanges the inner nodes of `left` for those of `right`. The only error is want of memory, and leaves the graph as it was.
fn exchange_part(alloc: Global, g: &mut Graph, left: &Graph, right: &Graph) -> Result<(), NoMemory>
    requires { CanReplace g.old.graph left.now.graph right.now.graph }
    ensures ok { OnOk result (IsExchangedPart g.old left.now.graph right.now.graph g.new) }
    ensures err { OnErr result (g.new ≡ g.old) }
{
    g.is_graph();
    right.is_graph();
    replaced_graph_as_circuit();
    graph_replacement_refines();
    let gone = gone_ids(alloc, g, left)?;
    let fresh = fresh_nodes(alloc, right)?;
    let wires = new_wires(alloc, g, left, right, &fresh)?;
    g.exchange(&gone, fresh.nodes, &wires)
}
