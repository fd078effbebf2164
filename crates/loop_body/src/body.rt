//! Bodies of loops.
ghost use Rattle.std.specs.Prelude.{◌≡◌, IfOk, MatchResult};
ghost use Rattle.components.specs.declared.kind.Kind.TheVariants.{Split};
ghost use Rattle.loop_body.specs.Body.{IsBody};
ghost use Rattle.loop_body.specs.declared.body.BodyFault.TheVariants as faults;

use crate::body_port::BodyPort;
use crate::judging::are_body;
use components::{Kind, Node};
use port_types::{Items, NoMemory, Shape};
use std::alloc::Global;
use std::marker::Model;

/// A body of a loop: a Split of the lanes, nodes that take from it and from earlier nodes, data wires and condition wires.
/// Contracts see the five lists, and know that they are a body.
#[derive(Debug, Drop)]
pub struct Body {
    /// The shapes of the outputs of the Split.
    pub vars: Items<Shape>,
    /// The nodes in order.
    pub nodes: Items<Node>,
    /// For each node the producer of each of its inputs.
    pub inputs: Items<Items<BodyPort>>,
    /// The producers of the data wires.
    pub next: Items<BodyPort>,
    /// The producers of the condition wires.
    pub conditions: Items<BodyPort>,
}

impl Model for Body {
    ghost use Rattle.loop_body.specs.Body.{Body, IsBody};
    ghost use Rattle.std.specs.Coded.{codes};
    ghost use Rattle.components.specs.contracts.node.Node as n;
    ghost use Rattle.loop_body.specs.contracts.body_port.BodyPort as p;

    ghost Value = { Body };

    ghost coded = { Prim.hlevel (codes, n.the_row.coded, p.the_row.coded) };

    ghost view = { λ b. record { vars = b.vars; nodes = b.nodes; inputs = b.inputs; next = b.next; conditions = b.conditions } };

    ghost invariant = { λ b. IsBody (record { vars = b.vars; nodes = b.nodes; inputs = b.inputs; next = b.next; conditions = b.conditions }) };
}

/// Why there is no body of some lists.
#[derive(Clone, Copy, Debug, PartialEq, Eq)]
pub enum BodyFault {
    /// They are no body.
    NoBody,
    NoMemory,
}

impl From<NoMemory> for BodyFault {
    ghost use Rattle.std.specs.Prelude.{◌≡◌};
    ghost use Rattle.loop_body.specs.declared.body.BodyFault.TheVariants as faults;

    ghost from_gives = { λ _ given. given ≡ faults.NoMemory };

    fn from(_: NoMemory) -> BodyFault {
        BodyFault::NoMemory
    }
}

impl Body {
    /// The body with these lists. NoBody exactly where they are none, unless memory runs out before this shows.
    pub fn new(
        alloc: Global,
        vars: Items<Shape>,
        nodes: Items<Node>,
        inputs: Items<Items<BodyPort>>,
        next: Items<BodyPort>,
        conditions: Items<BodyPort>,
    ) -> Result<Body, BodyFault>
        ensures { MatchResult result (λ body. (body ≡ record { vars = vars; nodes = nodes; inputs = inputs; next = next; conditions = conditions }) × IsBody body)
            (λ fault. fault ≡ faults.NoBody → IsBody (record { vars = vars; nodes = nodes; inputs = inputs; next = next; conditions = conditions }) → ⊥) }
    {
        let split = split_of(&vars)?;
        if !are_body(
            alloc,
            &split,
            nodes.as_slice(),
            inputs.as_slice(),
            next.as_slice(),
            conditions.as_slice(),
        )? {
            return Err(BodyFault::NoBody);
        }
        Ok(Body {
            vars,
            nodes,
            inputs,
            next,
            conditions,
        })
    }
}

/// The Split of these shapes.
fn split_of(vars: &Items<Shape>) -> Result<Kind, NoMemory>
    ensures { IfOk result (λ kind. kind ≡ Split vars.now) }
{
    Ok(Kind::Split(vars.clone()?))
}
