//! The table of components: the kind of a component with ports of these shapes.
ghost use Rattle.std.specs.Prelude.{◌≤◌, length};
ghost use Rattle.graph_read.specs.Answers.{IsRead};
ghost use Rattle.graph_read.specs.Rows.{row_reading};

use crate::attribute_rows::{constant_at, init_at, operator_at, pure_at, tagger_at};
use crate::fault::StatementFault;
use crate::plain_rows::{
    branch_at, buffer_at, ctrl_merge_at, entry_at, exit_at, fork_at, join_at, merge_at, mux_at,
    sink_at, source_at, split_at,
};
use components::{Component, Kind};
use port_types::{Shape, Text};
use std::alloc::Global;

/// The kind of a component with ports of these shapes, at most 64 a side, and these attributes. Refused as `BadPorts`
/// where the ports are not those of the row, and then as `BadOp`, `BadValue`, `BadFun` or `BadTags` where an attribute is not.
pub(crate) fn kind_at(
    alloc: Global,
    component: Component,
    ins: &[Shape],
    outs: &[Shape],
    pairs: &[(Text, Text)],
) -> Result<Kind, StatementFault>
    requires few_ins { length ins.now ≤ 64 }
    requires few_outs { length outs.now ≤ 64 }
    ensures { IsRead (row_reading component ins.now outs.now pairs.now) result }
{
    match component {
        Component::Entry => entry_at(alloc, ins, outs),
        Component::Exit => exit_at(alloc, ins, outs),
        Component::Buffer => buffer_at(alloc, ins, outs),
        Component::Fork => fork_at(alloc, ins, outs),
        Component::Join => join_at(alloc, ins, outs),
        Component::Split => split_at(alloc, ins, outs),
        Component::Operator => operator_at(alloc, ins, outs, pairs),
        Component::Constant => constant_at(alloc, ins, outs, pairs),
        Component::Source => source_at(alloc, ins, outs),
        Component::Sink => sink_at(alloc, ins, outs),
        Component::Pure => pure_at(alloc, ins, outs, pairs),
        Component::Mux => mux_at(alloc, ins, outs),
        Component::Branch => branch_at(alloc, ins, outs),
        Component::Merge => merge_at(alloc, ins, outs),
        Component::CtrlMerge => ctrl_merge_at(alloc, ins, outs),
        Component::Init => init_at(ins, outs, pairs),
        Component::Tagger => tagger_at(alloc, ins, outs, pairs),
    }
}
