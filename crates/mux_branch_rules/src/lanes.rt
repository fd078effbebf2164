//! What is read of the listed nodes.
ghost use Rattle.std.specs.Prelude.{◌≡◌, ◌≢◌, ◌↔◌, ◌∷◌, Some, IsTrue, IfOk, MatchOption};
ghost use Rattle.std.specs.Option.{option_copied};
ghost use Rattle.components.specs.declared.kind.Kind.TheVariants.{Branch};
ghost use Rattle.components.specs.Kind.{Shape};
ghost use Rattle.circuits.specs.Circuit.{circuit_of};
ghost use Rattle.lane_laws.specs.CombineBranches.{CanCombine};
ghost use Rattle.mux_branch_rules.specs.BranchCombine.{lanes_of};
ghost use Rattle.mux_branch_rules.specs.BranchSides.{AreBranches};

use components::{Kind, kind_ok};
use drawn_rules::kind_at;
use graph_core::Graph;
use port_types::{Items, NoMemory, Shape, Text};
use std::alloc::Global;

/// The names of a Fork and of Branches, in one list. The only error is want of memory.
pub(crate) fn listed_names(
    alloc: Global,
    fork: &Text,
    branches: &[Text],
) -> Result<Vec<Text>, NoMemory>
    ensures { IfOk result (λ names. names.items ≡ fork.now ∷ branches.now) }
{
    let mut names = vec![in alloc; copy_name(fork)?]?;
    for index in 0..branches.len() {
        names.push(copy_name(&branches[index])?)?;
    }
    Ok(names)
}

fn copy_name(name: &Text) -> Result<Text, NoMemory>
    ensures { IfOk result (λ copy. copy ≡ name.now) }
{
    Ok(name.clone()?)
}

/// The shapes of the Branches of these names, if they are all Branches. The only error is want of memory.
pub(crate) fn lanes_at(
    alloc: Global,
    g: &Graph,
    branches: &[Text],
) -> Result<Option<Items<Shape>>, NoMemory>
    ensures { IfOk result (λ found. MatchOption found
        (¬ (AreBranches g.now.graph branches.now))
        (λ lanes. lanes ≡ lanes_of g.now.graph branches.now)) }
{
    let mut lanes = Vec::new(alloc);
    for index in 0..branches.len() {
        let Some(shape) = lane_at(g, &branches[index]) else {
            return Ok(None);
        };
        lanes.push(copy_shape(shape)?)?;
    }
    Ok(Some(Items::new(lanes)))
}

pub(crate) fn copy_shape(shape: &Shape) -> Result<Shape, NoMemory>
    ensures { IfOk result (λ copy. copy ≡ shape.now) }
{
    Ok(shape.clone()?)
}

/// The shape of the Branch of this name.
fn lane_at<'a>(g: &'a Graph, name: &Text) -> Option<&'a Shape>
    ensures { MatchOption (option_copied result)
        ((shape : Shape) → (circuit_of g.now.graph).kind_at name.now ≢ Some (Branch shape))
        (λ shape. (circuit_of g.now.graph).kind_at name.now ≡ Some (Branch shape)) }
{
    match kind_at(g, name.bytes())? {
        Kind::Branch(shape) => Some(shape),
        _ => None,
    }
}

/// Whether the lanes' values can be joined, and a Fork can lead one condition to each of them and on. The only error is want of memory.
pub(crate) fn can_combine(lanes: &Items<Shape>) -> Result<bool, NoMemory>
    ensures { IfOk result (λ can. IsTrue can ↔ CanCombine lanes.now) }
{
    let join = Kind::Join(lanes.clone()?);
    Ok(lanes.as_slice().len() <= 63 && kind_ok(&join))
}
