//! Wires that leave a body, and outputs that are not used once.
use crate::lists::{fork, no_nodes, node, of_fork, port, shape};
use components::Kind;
use loop_body::BodyPort;
use port_types::NoMemory;
use std::alloc::Global;
use std::test::Fail;

/// Whether a Fork of so many outputs is refused, behind the first of lanes of these widths, with these wires behind it.
fn is_refused(
    alloc: Global,
    widths: &[u8],
    count: u8,
    next: BodyPort,
    conditions: &[BodyPort],
) -> Result<bool, NoMemory> {
    let lists = no_nodes(alloc, widths, &[next], conditions)?;
    let width = *widths.first().unwrap_or(&1);
    let lists = lists.with(alloc, fork(alloc, "f", width, count)?, &[port(0, 1)])?;
    Ok(lists.are_refused(alloc))
}

#[test]
fn each_lane_is_taken(rt: HostRuntime) -> Result<(), Fail> {
    assert!(rt; of_fork(rt.alloc(), &[1, 1])?.are_refused(rt.alloc()));
    Ok(())
}

#[test]
fn outputs_are_used_once(rt: HostRuntime) -> Result<(), Fail> {
    let alloc = rt.alloc();
    assert!(rt; is_refused(alloc, &[1], 2, port(1, 1), &[port(1, 2), port(1, 2)])?);
    Ok(())
}

#[test]
fn outputs_are_there(rt: HostRuntime) -> Result<(), Fail> {
    let alloc = rt.alloc();
    assert!(rt; is_refused(alloc, &[1], 2, port(1, 3), &[port(1, 1), port(1, 2)])?);
    assert!(rt; is_refused(alloc, &[1], 2, port(1, 0), &[port(1, 1), port(1, 2)])?);
    Ok(())
}

#[test]
fn there_is_a_condition_more_than_data(rt: HostRuntime) -> Result<(), Fail> {
    let alloc = rt.alloc();
    assert!(rt; is_refused(alloc, &[1], 2, port(1, 1), &[port(1, 2)])?);
    Ok(())
}

#[test]
fn conditions_are_bits(rt: HostRuntime) -> Result<(), Fail> {
    let alloc = rt.alloc();
    assert!(rt; is_refused(alloc, &[8], 3, port(1, 1), &[port(1, 2), port(1, 3)])?);
    Ok(())
}

#[test]
fn conditions_have_one_root(rt: HostRuntime) -> Result<(), Fail> {
    let alloc = rt.alloc();
    assert!(rt; is_refused(alloc, &[1, 1], 2, port(1, 1), &[port(1, 2), port(0, 2)])?);
    Ok(())
}

#[test]
fn a_root_is_seen_through_a_buffer(rt: HostRuntime) -> Result<(), Fail> {
    let alloc = rt.alloc();
    let one = no_nodes(alloc, &[1], &[port(1, 1)], &[port(1, 2), port(2, 1)])?;
    let one = one.with(alloc, fork(alloc, "f", 1, 3)?, &[port(0, 1)])?;
    let buffer = node(alloc, "b", Kind::Buffer(shape(alloc, &[1])?))?;
    assert!(rt; one.with(alloc, buffer, &[port(1, 3)])?.are_body(alloc));
    Ok(())
}

#[test]
fn the_condition_comes_from_the_lanes(rt: HostRuntime) -> Result<(), Fail> {
    let alloc = rt.alloc();
    let free = no_nodes(alloc, &[1], &[port(0, 1)], &[port(2, 1), port(2, 2)])?;
    let source = node(alloc, "w", Kind::Source0(shape(alloc, &[1])?))?;
    let free = free.with(alloc, source, &[])?;
    let free = free.with(alloc, fork(alloc, "h", 1, 2)?, &[port(1, 1)])?;
    assert!(rt; free.are_refused(alloc));
    Ok(())
}

#[test]
fn some_data_come_from_the_lanes(rt: HostRuntime) -> Result<(), Fail> {
    let alloc = rt.alloc();
    let source = node(alloc, "v", Kind::Source0(shape(alloc, &[1])?))?;
    let free = no_nodes(alloc, &[1], &[port(2, 1)], &[port(1, 1), port(1, 2)])?;
    let free = free.with(alloc, fork(alloc, "f", 1, 2)?, &[port(0, 1)])?;
    assert!(rt; free.with(alloc, source, &[])?.are_refused(alloc));
    Ok(())
}

#[test]
fn not_all_data_come_from_the_lanes(rt: HostRuntime) -> Result<(), Fail> {
    let alloc = rt.alloc();
    let source = node(alloc, "v", Kind::Source0(shape(alloc, &[1])?))?;
    let conditions = [port(1, 1), port(1, 2), port(1, 3)];
    let bound = no_nodes(alloc, &[1], &[port(2, 1), port(1, 4)], &conditions)?;
    let bound = bound.with(alloc, fork(alloc, "f", 1, 4)?, &[port(0, 1)])?;
    assert!(rt; bound.with(alloc, source, &[])?.are_body(alloc));
    Ok(())
}
