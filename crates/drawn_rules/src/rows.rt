//! Wires that come in rows, one for each lane.
ghost use Rattle.std.specs.Prelude.{◌≡◌, ◌≤◌, ◌+◌, ◌++◌, OnOk};
ghost use Rattle.drawn_rules.specs.Rows.{Reaches, port_but, row_end, row_wires};

use graph_core::End;
use port_types::NoMemory;

/// The ends of wires, one for each lane.
#[derive(Clone, Copy, Debug)]
pub enum Row {
    /// One port of the nodes from a place on: the place, the port.
    Nodes(usize, u8),
    /// The ports from 1 on of the node at a place.
    Ports(usize),
    /// The ports but one of the node at a place: the place, the port that is left out.
    PortsBut(usize, u8),
}

impl Row {
    /// The end for the lane of this index, counted from 0.
    fn end(self, index: usize) -> End
        requires { Reaches self (index + 1) }
        ensures { result ≡ row_end self index }
    {
        match self {
            Row::Nodes(first, port) => End::Fresh(first + index, port),
            Row::Ports(node) => End::Fresh(node, index as u8 + 1),
            Row::PortsBut(node, port) => End::Fresh(node, port_but(port, index as u8)),
        }
    }
}

/// The port of this index, counted from 0, where one is left out.
fn port_but(left_out: u8, index: u8) -> u8
    requires { index ≤ 253 }
    ensures { result ≡ port_but left_out index }
{
    if index + 1 < left_out {
        index + 1
    } else {
        index + 2
    }
}

/// Appends a wire for each of so many lanes, from one row to another. The only error is want of memory.
pub fn push_wires(
    wires: &mut Vec<(End, End)>,
    lanes: usize,
    from: Row,
    to: Row,
) -> Result<(), NoMemory>
    requires from { Reaches from lanes }
    requires to { Reaches to lanes }
    ensures { OnOk result (wires.new.items ≡ wires.old.items ++ row_wires from to 0 lanes) }
{
    for index in 0..lanes {
        wires.push((from.end(index), to.end(index)))?;
    }
    Ok(())
}
