//! Lists of which bodies are made.
use components::{Kind, Node};
use loop_body::{Body, BodyFault, BodyPort};
use port_types::{Items, NoMemory, Shape, Text};
use std::alloc::Global;

/// The five lists of a body.
#[derive(Drop)]
pub(crate) struct Lists {
    pub(crate) vars: Vec<Shape>,
    pub(crate) nodes: Vec<Node>,
    pub(crate) inputs: Vec<Items<BodyPort>>,
    pub(crate) next: Vec<BodyPort>,
    pub(crate) conditions: Vec<BodyPort>,
}

pub(crate) const fn port(node: usize, port: u8) -> BodyPort {
    BodyPort { node, port }
}

/// A shape of these widths.
pub(crate) fn shape(alloc: Global, widths: &[u8]) -> Result<Shape, NoMemory> {
    Shape::new(Vec::from_slice(alloc, widths)?).ok_or(NoMemory)
}

/// A node without kept attributes.
pub(crate) fn node(alloc: Global, name: &str, kind: Kind) -> Result<Node, NoMemory> {
    Ok(Node {
        name: Text::new(Vec::from_slice(alloc, name.as_bytes())?).ok_or(NoMemory)?,
        kind,
        kept: Items::new(Vec::new(alloc)),
    })
}

pub(crate) fn fork(alloc: Global, name: &str, width: u8, count: u8) -> Result<Node, NoMemory> {
    node(alloc, name, Kind::Fork(shape(alloc, &[width])?, count))
}

/// Lanes of these widths and these wires, and no nodes yet.
pub(crate) fn no_nodes(
    alloc: Global,
    widths: &[u8],
    next: &[BodyPort],
    conditions: &[BodyPort],
) -> Result<Lists, NoMemory> {
    let mut vars = Vec::new(alloc);
    for width in widths {
        vars.push(shape(alloc, &[*width])?)?;
    }
    Ok(Lists {
        vars,
        nodes: Vec::new(alloc),
        inputs: Vec::new(alloc),
        next: Vec::from_slice(alloc, next)?,
        conditions: Vec::from_slice(alloc, conditions)?,
    })
}

/// The data wire and the two condition wires of a Fork of three outputs, the first node.
pub(crate) fn of_fork(alloc: Global, widths: &[u8]) -> Result<Lists, NoMemory> {
    no_nodes(alloc, widths, &[port(1, 1)], &[port(1, 2), port(1, 3)])?.with(
        alloc,
        fork(alloc, "f", 1, 3)?,
        &[port(0, 1)],
    )
}

/// A Sink of a lane of this width.
pub(crate) fn sink(alloc: Global, name: &str, width: u8) -> Result<Node, NoMemory> {
    node(alloc, name, Kind::Sink0(shape(alloc, &[width])?))
}

impl Lists {
    /// With this node behind the others.
    pub(crate) fn with(
        self,
        alloc: Global,
        node: Node,
        inputs: &[BodyPort],
    ) -> Result<Lists, NoMemory> {
        let mut lists = self;
        lists.nodes.push(node)?;
        lists
            .inputs
            .push(Items::new(Vec::from_slice(alloc, inputs)?))?;
        Ok(lists)
    }

    pub(crate) fn body(self, alloc: Global) -> Result<Body, BodyFault> {
        Body::new(
            alloc,
            Items::new(self.vars),
            Items::new(self.nodes),
            Items::new(self.inputs),
            Items::new(self.next),
            Items::new(self.conditions),
        )
    }

    /// Whether they are a body.
    pub(crate) fn are_body(self, alloc: Global) -> bool {
        matches!(self.body(alloc), Ok(_))
    }

    /// Whether they are refused as none.
    pub(crate) fn are_refused(self, alloc: Global) -> bool {
        matches!(self.body(alloc), Err(BodyFault::NoBody))
    }
}
