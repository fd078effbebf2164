//! Large graphs and inputs.
use super::{CALM, Wanted, check_refused, check_run};
use std::alloc::{AllocError, Global};
use std::fmt::Write;
use std::process::Abort;
use std::test::Fail;

fn push_wire(text: &mut String, source: &str, output: u32, target: &str) -> Result<(), AllocError> {
    write!(
        text,
        "  \"{source}\" -> \"{target}\" [from = \"out{output}\", to = \"in1\"];\n"
    )
}

/// A document of a chain of Buffers between an Entry and an Exit.
fn chain_text(alloc: Global, buffers: u32) -> Result<String, AllocError> {
    let mut text = String::from_str(
        alloc,
        "digraph { b0 [type=Entry, out=\"out1:0\"] z [type=Exit, in=\"in1:0\"] ",
    )?;
    for number in 0..buffers {
        write!(
            text,
            "b{} [type=Buffer, in=\"in1:0\", out=\"out1:0\"] b{number} -> b{} [from=out1, to=in1] ",
            number + 1,
            number + 1
        )?;
    }
    write!(text, "b{buffers} -> z [from=out1, to=in1] }}")?;
    Ok(text)
}

const BARE_CHAIN: &str = r#"digraph G {
  "b0" [type = "Entry", out = "out1:0"];
  "z" [type = "Exit", in = "in1:0"];
  "b0" -> "z" [from = "out1", to = "in1"];
}
"#;

/// The text of an Entry, a Fork and an Exit at each of its outputs.
fn fork_text(alloc: Global, outputs: u32) -> Result<String, AllocError> {
    let mut text = String::from_str(alloc, "digraph G {\n")?;
    let mut ports = String::from_str(alloc, "out1:0")?;
    let mut wires = String::new(alloc);
    for number in 1..=outputs {
        let name = format!(in alloc; "e{number:02}")?;
        write!(text, "  \"{name}\" [type = \"Exit\", in = \"in1:0\"];\n")?;
        push_wire(&mut wires, "f", number, name.as_str())?;
        if number > 1 {
            write!(ports, " out{number}:0")?;
        }
    }
    push_wire(&mut wires, "x", 1, "f")?;
    write!(
        text,
        "  \"f\" [type = \"Fork\", in = \"in1:0\", out = \"{ports}\"];\n"
    )?;
    text.push_str("  \"x\" [type = \"Entry\", out = \"out1:0\"];\n")?;
    text.push_str(wires.as_str())?;
    text.push_str("}\n")?;
    Ok(text)
}

/// A document of Sources without wires, named by their numbers from 1 on.
fn sources_text(alloc: Global, sources: u32) -> Result<String, AllocError> {
    let mut text = String::from_str(alloc, "digraph {\n")?;
    for number in 1..=sources {
        write!(text, "_{number:05}[type=Source out=\"out1:0\"]\n")?;
    }
    text.push('}')?;
    Ok(text)
}

fn check_strip(rt: &(impl Abort + AllocGlobal), input: &str, answer: &str) -> Result<(), Fail> {
    check_run(rt, CALM, &["strip"], input.as_bytes(), Wanted::done(answer))
}

#[test]
fn a_long_chain_is_stripped(rt: HostRuntime) -> Result<(), Fail> {
    let chain = chain_text(rt.alloc(), 2000)?;
    check_strip(&rt, chain.as_str(), BARE_CHAIN)
}

#[test]
fn a_fork_has_at_most_64_outputs(rt: HostRuntime) -> Result<(), Fail> {
    let alloc = rt.alloc();
    for outputs in [1, 64] {
        let fork = fork_text(alloc, outputs)?;
        check_strip(&rt, fork.as_str(), fork.as_str())?;
    }
    let fork = fork_text(alloc, 65)?;
    check_refused(&rt, fork.as_bytes(), 3, "graphiti: BadPorts \"f\"\n")
}

/// The text of a Pure that gives the first of so many bits to each of them.
fn pure_text(alloc: Global, bits: u32) -> Result<String, AllocError> {
    let mut shape = String::from_str(alloc, "1")?;
    let mut outs = String::from_str(alloc, "#0")?;
    for _ in 1..bits {
        shape.push_str(".1")?;
        outs.push_str(" #0")?;
    }
    let mut text = format!(in alloc;
        "digraph G {{\n  \"p\" [type = \"Pure\", in = \"in1:{shape}\", out = \"out1:{shape}\", fun = \"-> {outs}\"];\n"
    )?;
    push_wire(&mut text, "p", 1, "p")?;
    text.push_str("}\n")?;
    Ok(text)
}

#[test]
fn a_pure_gives_at_most_128_fields(rt: HostRuntime) -> Result<(), Fail> {
    let alloc = rt.alloc();
    for bits in [1, 128] {
        let pure = pure_text(alloc, bits)?;
        check_strip(&rt, pure.as_str(), pure.as_str())?;
    }
    let pure = pure_text(alloc, 129)?;
    check_refused(&rt, pure.as_bytes(), 3, "graphiti: BadPorts \"p\"\n")
}

#[test]
fn the_node_at_place_65536_is_taken(rt: HostRuntime) -> Result<(), Fail> {
    let text = sources_text(rt.alloc(), 65_536)?;
    let wanted = Wanted::refused(3, "graphiti: PortOpen \"_00001\" out1\n");
    check_run(&rt, CALM, &["print"], text.as_bytes(), wanted)
}

#[test]
fn the_node_at_place_65537_is_one_too_many(rt: HostRuntime) -> Result<(), Fail> {
    let text = sources_text(rt.alloc(), 65_537)?;
    let wanted = Wanted::refused(3, "graphiti: TooMany \"_65537\"\n");
    check_run(&rt, CALM, &["print"], text.as_bytes(), wanted)
}

#[test]
fn an_input_past_the_limit_is_too_long(rt: HostRuntime) -> Result<(), Fail> {
    let input = vec![in rt.alloc(); b' '; 16_777_217]?;
    let wanted = Wanted::refused(2, "graphiti: input longer than 16777216 bytes\n");
    check_run(&rt, CALM, &["strip"], &input, wanted)
}
