//! The texts of the ports of a side. The only error of each call is want of memory.

ghost use Rattle.std.specs.Prelude.{◌≡◌, ◌++◌, IfOk, IsTrue, OnOk};
ghost use Rattle.port_types.specs.PortGrammar.{are_marked};
ghost use Rattle.components.specs.Kind.{KindOk};
ghost use Rattle.graph_print.specs.CanonicalText.{side_pairs, marked_ports};

use crate::kinds::marker;
use crate::texts::push_pair;
use components::{Kind, port_count, port_shape};
use port_types::{NoMemory, Port, Side, Text, print_ports};
use std::alloc::Global;

/// Appends the pair of a side, as `in = "in1:8"`, and nothing where the side has no ports.
pub(crate) fn push_side(
    alloc: Global,
    pairs: &mut Vec<(Text, Text)>,
    kind: &Kind,
    side: Side,
) -> Result<(), NoMemory>
    requires { KindOk kind.now }
    ensures { OnOk result (pairs.new.items ≡ pairs.old.items ++ side_pairs kind.now side) }
{
    let ports = marked_ports(alloc, kind, side)?;
    if !ports.is_empty() {
        push_pair(alloc, pairs, side.word(), print_ports(alloc, &ports, side)?)?;
    }
    Ok(())
}

/// The ports of a side with their markers.
fn marked_ports(alloc: Global, kind: &Kind, side: Side) -> Result<Vec<Port>, NoMemory>
    requires { KindOk kind.now }
    ensures ports { IfOk result (λ ports. ports.items ≡ marked_ports kind.now side) }
    ensures marked { IfOk result (λ ports. IsTrue (are_marked ports.items)) }
{
    let mut ports = Vec::new(alloc);
    for number in 1..=port_count(kind, side) {
        let shape = port_shape(alloc, kind, side, number)?;
        let marker = marker(kind, side, number);
        ports.push(Port { marker, shape })?;
    }
    Ok(ports)
}
