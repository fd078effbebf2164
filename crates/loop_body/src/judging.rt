//! Whether five lists are a body.
ghost use Rattle.std.specs.Prelude.{◌≡◌, ◌↔◌, ◌+◌, ◌∷◌, ◌≤◌, [], length, Some, IsTrue, IfOk};
ghost use Rattle.components.specs.declared.kind.Kind.TheVariants.{Sink0};
ghost use Rattle.components.specs.Kind.{KindOk, outs};
ghost use Rattle.fun_expr.specs.Each.{Each};
ghost use Rattle.loop_body.specs.Body.{entry, IsBody};
ghost use Rattle.loop_body.specs.Judging.{kinds_of, rows_of, IsSplit, FitTogether};

use crate::body_port::BodyPort;
use crate::different::have_different_names;
use crate::fitting::{has_shape_of, nodes_fit};
use crate::kinds::{MAX_NODES, are_light};
use crate::marks::are_used_once;
use crate::named::are_named;
use crate::roots::come_from_lanes;
use components::{Kind, Node, kind_ok};
use port_types::{Items, NoMemory, Shape};
use std::alloc::Global;

/// Whether the Split is right, the nodes fit together within the limits, and there is one condition wire more than data wires.
fn fit_together(
    split: &Kind,
    nodes: &[Node],
    inputs: &[Items<BodyPort>],
    next: &[BodyPort],
    conditions: &[BodyPort],
) -> bool
    requires { IsSplit split.now }
    ensures { IsTrue result ↔ FitTogether (record { vars = outs split.now; nodes = nodes.now; inputs = inputs.now; next = next.now; conditions = conditions.now }) }
{
    kind_ok(split)
        && nodes.len() <= MAX_NODES
        && conditions.len() == next.len() + 1
        && are_light(nodes)
        && nodes_fit(split, nodes, inputs)
}

/// A Sink of bits.
fn bit_sink(alloc: Global) -> Result<Kind, NoMemory>
    ensures { IfOk result (λ kind. kind ≡ Sink0 (1 ∷ [])) }
{
    let bit = Shape::new(vec![in alloc; 1]?).ok_or(NoMemory)?;
    Ok(Kind::Sink0(bit))
}

/// Whether each of the outputs is there and has a bit.
fn are_bits(
    alloc: Global,
    split: &Kind,
    nodes: &[Node],
    ports: &[BodyPort],
) -> Result<bool, NoMemory>
    requires split_ok { KindOk split.now }
    requires nodes_ok { Each KindOk (kinds_of nodes.now) }
    ensures { IfOk result (λ are. IsTrue are ↔ Each (λ p. entry (rows_of (split.now ∷ kinds_of nodes.now)) p ≡ Some (1 ∷ [])) ports.now) }
{
    let sink = bit_sink(alloc)?;
    Ok(
        ports
            .iter()
            .all(|port| has_shape_of(split, nodes, *port, &sink, 1)),
    )
}

/// Whether the lists are a body.
pub(crate) fn are_body(
    alloc: Global,
    split: &Kind,
    nodes: &[Node],
    inputs: &[Items<BodyPort>],
    next: &[BodyPort],
    conditions: &[BodyPort],
) -> Result<bool, NoMemory>
    requires { IsSplit split.now }
    ensures { IfOk result (λ are. IsTrue are ↔ IsBody (record { vars = outs split.now; nodes = nodes.now; inputs = inputs.now; next = next.now; conditions = conditions.now })) }
{
    if !fit_together(split, nodes, inputs, next, conditions) {
        return Ok(false);
    }
    if !are_bits(alloc, split, nodes, conditions)? {
        return Ok(false);
    }
    if !are_used_once(alloc, split, nodes, inputs, next, conditions)? {
        return Ok(false);
    }
    if !come_from_lanes(alloc, nodes, inputs, next, conditions)? {
        return Ok(false);
    }
    if !are_named(alloc, nodes)? {
        return Ok(false);
    }
    have_different_names(alloc, nodes)
}
