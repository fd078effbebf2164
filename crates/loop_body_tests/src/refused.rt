//! Lists that are a body, and lists that differ from one in one way.
use crate::lists::{Lists, fork, no_nodes, node, of_fork, port, shape, sink};
use components::Kind;
use port_types::NoMemory;
use std::alloc::Global;
use std::test::Fail;

/// A Fork as the last node, with a data wire and a condition wire more than lanes.
fn with_fork(alloc: Global, lists: Lists, count: u8, from: usize) -> Result<Lists, NoMemory> {
    lists.with(alloc, fork(alloc, "f", 1, count)?, &[port(from, 1)])
}

#[test]
fn a_forked_bit_is_a_body(rt: HostRuntime) -> Result<(), Fail> {
    assert!(rt; of_fork(rt.alloc(), &[1])?.are_body(rt.alloc()));
    Ok(())
}

#[test]
fn a_lane_may_go_into_a_sink(rt: HostRuntime) -> Result<(), Fail> {
    let alloc = rt.alloc();
    let lists = of_fork(alloc, &[1, 8])?.with(alloc, sink(alloc, "s", 8)?, &[port(0, 2)])?;
    assert!(rt; lists.are_body(alloc));
    Ok(())
}

#[test]
fn no_nodes_are_no_body(rt: HostRuntime) -> Result<(), Fail> {
    let alloc = rt.alloc();
    let none = no_nodes(alloc, &[1, 1, 1], &[port(0, 1)], &[port(0, 2), port(0, 3)])?;
    assert!(rt; none.are_refused(alloc));
    Ok(())
}

#[test]
fn a_body_has_a_lane(rt: HostRuntime) -> Result<(), Fail> {
    let alloc = rt.alloc();
    let none = no_nodes(alloc, &[], &[port(2, 1)], &[port(2, 2), port(2, 3)])?;
    let source = node(alloc, "v", Kind::Source0(shape(alloc, &[1])?))?;
    let none = with_fork(alloc, none.with(alloc, source, &[])?, 3, 1)?;
    assert!(rt; none.are_refused(alloc));
    Ok(())
}

#[test]
fn lanes_have_at_most_128_fields_together(rt: HostRuntime) -> Result<(), Fail> {
    let alloc = rt.alloc();
    let mut wide = of_fork(alloc, &[1])?;
    let fields = vec![in alloc; 8; 128]?;
    wide.vars.push(shape(alloc, &fields)?)?;
    let sink = node(alloc, "s", Kind::Sink0(shape(alloc, &fields)?))?;
    assert!(rt; wide.with(alloc, sink, &[port(0, 2)])?.are_refused(alloc));
    Ok(())
}

#[test]
fn an_init_is_in_no_body(rt: HostRuntime) -> Result<(), Fail> {
    let alloc = rt.alloc();
    let lists = no_nodes(alloc, &[1], &[port(2, 1)], &[port(2, 2), port(2, 3)])?;
    let init = node(alloc, "i", Kind::Init(0, 0))?;
    let lists = with_fork(alloc, lists.with(alloc, init, &[port(0, 1)])?, 3, 1)?;
    assert!(rt; lists.are_refused(alloc));
    Ok(())
}

#[test]
fn each_kind_meets_its_row(rt: HostRuntime) -> Result<(), Fail> {
    let alloc = rt.alloc();
    let none = fork(alloc, "g", 1, 0)?;
    assert!(rt;
        of_fork(alloc, &[1, 1])?
            .with(alloc, none, &[port(0, 2)])?
            .are_refused(alloc)
    );
    Ok(())
}

#[test]
fn wires_have_one_shape(rt: HostRuntime) -> Result<(), Fail> {
    let alloc = rt.alloc();
    let sink = sink(alloc, "s", 8)?;
    assert!(rt;
        of_fork(alloc, &[1, 1])?
            .with(alloc, sink, &[port(0, 2)])?
            .are_refused(alloc)
    );
    Ok(())
}

#[test]
fn a_node_takes_from_earlier_ones(rt: HostRuntime) -> Result<(), Fail> {
    let alloc = rt.alloc();
    let later = no_nodes(alloc, &[1], &[port(1, 1)], &[port(2, 2), port(2, 3)])?;
    let buffer = node(alloc, "b", Kind::Buffer(shape(alloc, &[1])?))?;
    let later = with_fork(alloc, later.with(alloc, buffer, &[port(2, 1)])?, 3, 0)?;
    assert!(rt; later.are_refused(alloc));
    Ok(())
}

#[test]
fn each_input_has_a_producer(rt: HostRuntime) -> Result<(), Fail> {
    let alloc = rt.alloc();
    let none = of_fork(alloc, &[1])?.with(alloc, sink(alloc, "s", 1)?, &[])?;
    assert!(rt; none.are_refused(alloc));
    Ok(())
}

#[test]
fn each_input_has_one_producer(rt: HostRuntime) -> Result<(), Fail> {
    let alloc = rt.alloc();
    let inputs = [port(0, 2), port(0, 3)];
    let two = of_fork(alloc, &[1, 1, 1])?.with(alloc, sink(alloc, "s", 1)?, &inputs)?;
    assert!(rt; two.are_refused(alloc));
    Ok(())
}

#[test]
fn each_node_has_a_list_of_inputs(rt: HostRuntime) -> Result<(), Fail> {
    let alloc = rt.alloc();
    let mut short = of_fork(alloc, &[1])?;
    short.inputs.clear();
    assert!(rt; short.are_refused(alloc));
    Ok(())
}
