//! Names, kept attributes and limits of bodies.
use crate::lists::{Lists, fork, no_nodes, node, of_fork, port, shape, sink};
use components::Kind;
use port_types::{Items, NoMemory, Text};
use std::alloc::Global;
use std::test::Fail;

/// A body with a Sink that has this name and keeps these pairs.
fn with_sink(alloc: Global, name: &str, pairs: &[(&str, &str)]) -> Result<Lists, NoMemory> {
    let mut sink = sink(alloc, name, 1)?;
    let mut kept = Vec::new(alloc);
    for (key, value) in pairs {
        kept.push((text(alloc, key)?, text(alloc, value)?))?;
    }
    sink.kept = Items::new(kept);
    of_fork(alloc, &[1, 1])?.with(alloc, sink, &[port(0, 2)])
}

fn text(alloc: Global, text: &str) -> Result<Text, NoMemory> {
    Text::new(Vec::from_slice(alloc, text.as_bytes())?).ok_or(NoMemory)
}

/// Whether it is refused with a Sink that has this name and keeps these pairs.
fn is_refused(alloc: Global, name: &str, pairs: &[(&str, &str)]) -> Result<bool, NoMemory> {
    Ok(with_sink(alloc, name, pairs)?.are_refused(alloc))
}

#[test]
fn names_are_those_of_nodes(rt: HostRuntime) -> Result<(), Fail> {
    let alloc = rt.alloc();
    // that of another node, and none
    assert!(rt; is_refused(alloc, "f", &[])?);
    assert!(rt; is_refused(alloc, "", &[])?);
    assert!(rt; is_refused(alloc, "a b", &[])?);
    Ok(())
}

#[test]
fn attributes_are_kept(rt: HostRuntime) -> Result<(), Fail> {
    let alloc = rt.alloc();
    assert!(rt; !is_refused(alloc, "s", &[("color", "red"), ("label", "s")])?);
    // a key twice, and one that the kind owns
    assert!(rt; is_refused(alloc, "s", &[("color", "red"), ("color", "red")])?);
    assert!(rt; is_refused(alloc, "s", &[("in", "in1:1")])?);
    Ok(())
}

/// A body with so many Buffers in a row in front of the Fork.
fn with_buffers(alloc: Global, count: u16) -> Result<Lists, NoMemory> {
    let count = usize::from(count);
    let last = count + 1;
    let mut made = no_nodes(
        alloc,
        &[1],
        &[port(last, 1)],
        &[port(last, 2), port(last, 3)],
    )?;
    for i in 0..count {
        made = with_buffer(alloc, made, i)?;
    }
    made.with(alloc, fork(alloc, "f", 1, 3)?, &[port(count, 1)])
}

/// With a Buffer more, the one after so many.
fn with_buffer(alloc: Global, made: Lists, before: usize) -> Result<Lists, NoMemory> {
    let name = format!(in alloc; "b{before}")?;
    let buffer = node(alloc, name.as_str(), Kind::Buffer(shape(alloc, &[1])?))?;
    made.with(alloc, buffer, &[port(before, 1)])
}

/// A body with so many Sources of 128 fields, each before a Sink.
fn with_sources(alloc: Global, count: u16) -> Result<Lists, NoMemory> {
    let mut made = of_fork(alloc, &[1])?;
    for i in 0..count {
        made = with_source(alloc, made, 2 * usize::from(i) + 2)?;
    }
    Ok(made)
}

/// With a Source of 128 fields more, at this place, and a Sink behind it.
fn with_source(alloc: Global, made: Lists, place: usize) -> Result<Lists, NoMemory> {
    let fields = vec![in alloc; 8; 128]?;
    let name = format!(in alloc; "v{place}")?;
    let source = node(alloc, name.as_str(), Kind::Source0(shape(alloc, &fields)?))?;
    let made = made.with(alloc, source, &[])?;
    let name = format!(in alloc; "s{place}")?;
    let sink = node(alloc, name.as_str(), Kind::Sink0(shape(alloc, &fields)?))?;
    made.with(alloc, sink, &[port(place, 1)])
}

#[test]
fn a_body_has_at_most_4096_nodes(rt: HostRuntime) -> Result<(), Fail> {
    let alloc = rt.alloc();
    assert!(rt; with_buffers(alloc, 4_095)?.are_body(alloc));
    assert!(rt; with_buffers(alloc, 4_096)?.are_refused(alloc));
    Ok(())
}

#[test]
fn a_body_weighs_at_most_16384(rt: HostRuntime) -> Result<(), Fail> {
    let alloc = rt.alloc();
    assert!(rt; with_sources(alloc, 128)?.are_body(alloc));
    assert!(rt; with_sources(alloc, 129)?.are_refused(alloc));
    Ok(())
}
