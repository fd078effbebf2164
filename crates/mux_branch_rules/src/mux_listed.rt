//! What is read of the listed nodes of `mux_combine` and `mux_combine0`.
ghost use Rattle.std.specs.Prelude.{◌≡◌, ◌≢◌, ◌≤◌, ◌↔◌, ◌∷◌, [], List, length, Some, IsTrue, IfOk, MatchOption};
ghost use Rattle.std.specs.Option.{option_copied};
ghost use Rattle.components.specs.declared.kind.Kind.{Kind};
ghost use Rattle.components.specs.declared.kind.Kind.TheVariants.{Mux};
ghost use Rattle.components.specs.Kind.{AreParts, Shape};
ghost use Rattle.circuits.specs.Circuit.{circuit_of};
ghost use Rattle.mux_branch_rules.specs.MuxSides.{AreMuxes, kind_before, mux_lanes, tree_kinds};

use crate::lanes::copy_shape;
use crate::mux_lists::copy_kind;
use components::{Kind, kind_ok};
use drawn_rules::kind_at;
use graph_core::Graph;
use port_types::{Items, NoMemory, Shape, Text};
use std::alloc::Global;

/// The kinds of the Forks and the Buffers at the front of the list. The only error is want of memory.
pub(crate) fn tree_kinds(alloc: Global, g: &Graph, names: &[Text]) -> Result<Vec<Kind>, NoMemory>
    ensures is { IfOk result (λ kinds. kinds.items ≡ tree_kinds g.now.graph names.now) }
    ensures few { IfOk result (λ kinds. length kinds.items ≤ length names.now) }
{
    let mut kinds = Vec::new(alloc);
    for index in 0..names.len() {
        let Some(kind) = passing_at(g, &names[index]) else {
            return Ok(kinds);
        };
        kinds.push(copy_kind(kind)?)?;
    }
    Ok(kinds)
}

/// The kind of the node of this name, if it is a Fork or a Buffer.
fn passing_at<'a>(g: &'a Graph, name: &Text) -> Option<&'a Kind>
    ensures { MatchOption (option_copied result)
        ((kinds : List Kind) → kind_before ((circuit_of g.now.graph).kind_at name.now) kinds ≡ [])
        (λ kind. (kinds : List Kind) → kind_before ((circuit_of g.now.graph).kind_at name.now) kinds ≡ kind ∷ kinds) }
{
    let kind = kind_at(g, name.bytes())?;
    match kind {
        Kind::Buffer(_) | Kind::Fork(..) => Some(kind),
        _ => None,
    }
}

/// The shapes of the Muxes of these names, if they are all Muxes. The only error is want of memory.
pub(crate) fn mux_lanes(
    alloc: Global,
    g: &Graph,
    muxes: &[Text],
) -> Result<Option<Items<Shape>>, NoMemory>
    ensures { IfOk result (λ found. MatchOption found
        (¬ (AreMuxes g.now.graph muxes.now))
        (λ lanes. (lanes ≡ mux_lanes g.now.graph muxes.now) × AreMuxes g.now.graph muxes.now)) }
{
    let mut lanes = Vec::new(alloc);
    for index in 0..muxes.len() {
        let Some(shape) = mux_at(g, &muxes[index]) else {
            return Ok(None);
        };
        lanes.push(copy_shape(shape)?)?;
    }
    Ok(Some(Items::new(lanes)))
}

/// The shape of the Mux of this name.
fn mux_at<'a>(g: &'a Graph, name: &Text) -> Option<&'a Shape>
    ensures { MatchOption (option_copied result)
        ((shape : Shape) → (circuit_of g.now.graph).kind_at name.now ≢ Some (Mux shape))
        (λ shape. (circuit_of g.now.graph).kind_at name.now ≡ Some (Mux shape)) }
{
    match kind_at(g, name.bytes())? {
        Kind::Mux(shape) => Some(shape),
        _ => None,
    }
}

/// Whether the lanes' values can be joined. The only error is want of memory.
pub(crate) fn can_join(lanes: &Items<Shape>) -> Result<bool, NoMemory>
    ensures { IfOk result (λ can. IsTrue can ↔ AreParts lanes.now) }
{
    let join = Kind::Join(lanes.clone()?);
    Ok(kind_ok(&join))
}
