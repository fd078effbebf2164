//! What is read of the nodes that a use of a rule lists.
ghost use Rattle.std.specs.Prelude.{◌≡◌, ◌≢◌, ◌↔◌, None, IsTrue, MatchOption};
ghost use Rattle.std.specs.List.{AllByRecursion};
ghost use Rattle.std.specs.Option.{option_copied};
ghost use Rattle.circuits.specs.Circuit.{circuit_of};
ghost use Rattle.circuits.specs.Replacing.{NoneTwice};
ghost use Rattle.drawn_rules.specs.Listed.{AreNodes, IsNamed, IsNodeOf};

use components::{Kind, Node};
use graph_core::Graph;
use port_types::Text;

/// Whether these are different names of nodes of the graph.
pub fn are_nodes(g: &Graph, names: &[Text]) -> bool
    ensures { IsTrue result ↔ AreNodes g.now.graph names.now }
{
    all_differ(names) && are_there(g, names)
}

/// Whether no two names are equal.
fn all_differ(names: &[Text]) -> bool
    ensures { IsTrue result ↔ NoneTwice names.now }
{
    match names {
        [] => true,
        [first, rest @ ..] => are_other(rest, first) && all_differ(rest),
    }
}

/// Whether none of them is this name.
fn are_other(names: &[Text], name: &Text) -> bool
    ensures { IsTrue result ↔ AllByRecursion (λ n. name.now ≢ n) names.now }
{
    match names {
        [] => true,
        [first, rest @ ..] => !same_name(first, name) && are_other(rest, name),
    }
}

fn same_name(a: &Text, b: &Text) -> bool
    ensures { IsTrue result ↔ (a.now ≡ b.now) }
{
    a.bytes() == b.bytes()
}

/// Whether each of them is the name of a node.
fn are_there(g: &Graph, names: &[Text]) -> bool
    ensures { IsTrue result ↔ AllByRecursion (IsNodeOf g.now.graph) names.now }
{
    names.iter().all(|name| is_node(g, name))
}

fn is_node(g: &Graph, name: &Text) -> bool
    ensures { IsTrue result ↔ IsNodeOf g.now.graph name.now }
{
    kind_at(g, name.bytes()).is_some()
}

/// The kind of the node of this name. `None` exactly where there is none.
pub fn kind_at<'a>(g: &'a Graph, name: &[u8]) -> Option<&'a Kind>
    ensures { option_copied result ≡ (circuit_of g.now.graph).kind_at name.now }
{
    Some(&g.node(g.find(name)?)?.kind)
}

/// The node of this name. `None` exactly where there is none.
pub fn node_at<'a>(g: &'a Graph, name: &[u8]) -> Option<&'a Node>
    ensures { MatchOption (option_copied result)
        ((circuit_of g.now.graph).kind_at name.now ≡ None)
        (IsNamed g.now.graph name.now) }
{
    g.node(g.find(name)?)
}
