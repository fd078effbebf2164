//! The rows of the components without attributes of their own: the kind that ports of these shapes say.
ghost use Rattle.std.specs.Prelude.{◌≤◌, length};
ghost use Rattle.graph_read.specs.Answers.{IsRead};
ghost use Rattle.graph_read.specs.Rows.{entry_at, exit_at, buffer_at, fork_at, join_at, split_at, source_at, sink_at, mux_at, branch_at, merge_at, ctrl_merge_at};

use crate::fault::GraphFaultKind::BadPorts;
use crate::fault::StatementFault::{self, Refused};
use crate::shapes::{all_are, copies_of, copy_of, is_bit, is_same, joined, tells_apart};
use components::Kind;
use port_types::Shape;
use std::alloc::Global;

/// An Entry may also have its shape as an input.
pub(crate) fn entry_at(alloc: Global, ins: &[Shape], outs: &[Shape]) -> Result<Kind, StatementFault>
    ensures { IsRead (entry_at ins.now outs.now) result }
{
    match (ins, outs) {
        ([], [shape]) => Ok(Kind::Entry(copy_of(shape)?)),
        ([also], [shape]) if is_same(also, shape) => Ok(Kind::Entry(copy_of(shape)?)),
        _ => Err(Refused(BadPorts)),
    }
}

/// An Exit may also have its shape as an output.
pub(crate) fn exit_at(alloc: Global, ins: &[Shape], outs: &[Shape]) -> Result<Kind, StatementFault>
    ensures { IsRead (exit_at ins.now outs.now) result }
{
    match (ins, outs) {
        ([shape], []) => Ok(Kind::Exit(copy_of(shape)?)),
        ([shape], [also]) if is_same(also, shape) => Ok(Kind::Exit(copy_of(shape)?)),
        _ => Err(Refused(BadPorts)),
    }
}

pub(crate) fn buffer_at(
    alloc: Global,
    ins: &[Shape],
    outs: &[Shape],
) -> Result<Kind, StatementFault>
    ensures { IsRead (buffer_at ins.now outs.now) result }
{
    match (ins, outs) {
        ([shape], [out]) if is_same(out, shape) => Ok(Kind::Buffer(copy_of(shape)?)),
        _ => Err(Refused(BadPorts)),
    }
}

pub(crate) fn fork_at(alloc: Global, ins: &[Shape], outs: &[Shape]) -> Result<Kind, StatementFault>
    requires { length outs.now ≤ 64 }
    ensures { IsRead (fork_at ins.now outs.now) result }
{
    match (ins, outs) {
        ([shape], [_, ..]) if all_are(shape, outs) => {
            Ok(Kind::Fork(copy_of(shape)?, outs.len() as u8))
        }
        _ => Err(Refused(BadPorts)),
    }
}

pub(crate) fn join_at(alloc: Global, ins: &[Shape], outs: &[Shape]) -> Result<Kind, StatementFault>
    ensures { IsRead (join_at ins.now outs.now) result }
{
    match (ins, outs) {
        ([_, ..], [whole]) if whole.widths() == joined(alloc, ins)?.as_slice() => {
            Ok(Kind::Join(copies_of(alloc, ins)?))
        }
        _ => Err(Refused(BadPorts)),
    }
}

pub(crate) fn split_at(alloc: Global, ins: &[Shape], outs: &[Shape]) -> Result<Kind, StatementFault>
    ensures { IsRead (split_at ins.now outs.now) result }
{
    match (ins, outs) {
        ([whole], [_, ..]) if whole.widths() == joined(alloc, outs)?.as_slice() => {
            Ok(Kind::Split(copies_of(alloc, outs)?))
        }
        _ => Err(Refused(BadPorts)),
    }
}

pub(crate) fn source_at(
    alloc: Global,
    ins: &[Shape],
    outs: &[Shape],
) -> Result<Kind, StatementFault>
    ensures { IsRead (source_at ins.now outs.now) result }
{
    match (ins, outs) {
        ([], [shape]) => Ok(Kind::Source0(copy_of(shape)?)),
        _ => Err(Refused(BadPorts)),
    }
}

pub(crate) fn sink_at(alloc: Global, ins: &[Shape], outs: &[Shape]) -> Result<Kind, StatementFault>
    ensures { IsRead (sink_at ins.now outs.now) result }
{
    match (ins, outs) {
        ([shape], []) => Ok(Kind::Sink0(copy_of(shape)?)),
        _ => Err(Refused(BadPorts)),
    }
}

pub(crate) fn mux_at(alloc: Global, ins: &[Shape], outs: &[Shape]) -> Result<Kind, StatementFault>
    ensures { IsRead (mux_at ins.now outs.now) result }
{
    match (ins, outs) {
        ([select, first, second], [out])
            if is_bit(select) && is_same(first, out) && is_same(second, out) => {
            Ok(Kind::Mux(copy_of(out)?))
        }
        _ => Err(Refused(BadPorts)),
    }
}

pub(crate) fn branch_at(
    alloc: Global,
    ins: &[Shape],
    outs: &[Shape],
) -> Result<Kind, StatementFault>
    ensures { IsRead (branch_at ins.now outs.now) result }
{
    match (ins, outs) {
        ([shape, condition], [first, second])
            if is_bit(condition) && is_same(first, shape) && is_same(second, shape) => {
            Ok(Kind::Branch(copy_of(shape)?))
        }
        _ => Err(Refused(BadPorts)),
    }
}

pub(crate) fn merge_at(alloc: Global, ins: &[Shape], outs: &[Shape]) -> Result<Kind, StatementFault>
    requires { length ins.now ≤ 64 }
    ensures { IsRead (merge_at ins.now outs.now) result }
{
    match (ins, outs) {
        ([_, ..], [out]) if all_are(out, ins) => { Ok(Kind::Merge(copy_of(out)?, ins.len() as u8)) }
        _ => Err(Refused(BadPorts)),
    }
}

/// The second output tells the inputs apart.
pub(crate) fn ctrl_merge_at(
    alloc: Global,
    ins: &[Shape],
    outs: &[Shape],
) -> Result<Kind, StatementFault>
    requires { length ins.now ≤ 64 }
    ensures { IsRead (ctrl_merge_at ins.now outs.now) result }
{
    let [out, index] = outs else {
        return Err(Refused(BadPorts));
    };
    match index.widths() {
        [width] if !ins.is_empty() && all_are(out, ins) && tells_apart(*width, ins.len() as u8) => {
            Ok(Kind::CtrlMerge(copy_of(out)?, ins.len() as u8, *width))
        }
        _ => Err(Refused(BadPorts)),
    }
}
