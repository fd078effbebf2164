//! A graph plugged into a surrounding one.
ghost use Rattle.std.specs.Prelude.{◌≡◌, map, IfOk, OnOk};
ghost use Rattle.components.specs.NamedGraph.{IsTyped};
ghost use Rattle.circuits.specs.PluggedGraph.{link_graph, plugged_graph};
ghost use Rattle.module_sem.specs.GraphLinks.{CanPlugGraphs, by_names};
ghost use Rattle.module_sem.specs.Linking.{CanJoin};

use crate::beside::beside;
use crate::laws::circuits_can_plug;
use crate::link::Link;
use crate::linking::link;
use crate::standing::twin;
use circuits::plugged_graph_as_circuit;
use graph_core::Graph;
use port_types::NoMemory;
use std::alloc::Global;

/// The graph `g` in the surrounding graph `c`: all nodes and wires of both, and per link, in order, the Exit as a Buffer of its name and
/// shape, with its kept attributes, which feeds what the Entry fed, and no Entry. The only error is want of memory.
pub fn plug(alloc: Global, c: &Graph, links: &[Link], g: &Graph) -> Result<Graph, NoMemory>
    requires { CanPlugGraphs c.now links.now g.now }
    ensures plugged { IfOk result (λ h. h.graph ≡ plugged_graph c.now.graph (map (by_names c.now g.now) links.now) g.now.graph) }
    ensures typed { IfOk result (λ h. IsTyped h.graph) }
{
    plugged_graph_as_circuit();
    circuits_can_plug();
    c.is_graph();
    g.is_graph();
    let mut both = beside(alloc, c, g)?;
    for link in links {
        join(&mut both, c, link, g)?;
    }
    Ok(both)
}

/// Makes one link. The only error is want of memory.
fn join(h: &mut Graph, c: &Graph, l: &Link, g: &Graph) -> Result<(), NoMemory>
    requires typed { IsTyped h.old.graph }
    requires can { CanJoin h.old.graph (by_names c.now g.now l.now) }
    ensures { OnOk result (h.new.graph ≡ link_graph (by_names c.now g.now l.now) h.old.graph) }
{
    let (from, to) = if l.outer_exit { (c, g) } else { (g, c) };
    let exit = twin(h, from, l.exit);
    let entry = twin(h, to, l.entry);
    link(h, exit, entry)
}
