//! The rule `tag_loop` at the nodes of small graphs.
ghost use Rattle.std.specs.Prelude.{IfOk};
ghost use Rattle.components.specs.NamedGraph.{IsTyped};

use crate::graphs::{GATHERED, OTHER_WAY, TAGGED, WITH_BUFFER, graph};
use components::Kind;
use graph_core::{Graph, PortAt, same_graph};
use loop_rule::{AtFault, TagLoop};
use port_types::Text;
use std::alloc::Global;
use std::test::Fail;
use subst_engine::{Rule, RuleWord, matches, replace};

const IN_ORDER: [&str; 6] = ["i", "m", "f", "p", "c", "b"];

fn names(alloc: Global, words: &[&str]) -> Result<Vec<Text>, Fail> {
    let mut names = Vec::new(alloc);
    for word in words {
        names.push(Text::from_string(String::from_str(alloc, word)?))?;
    }
    Ok(names)
}

fn rule_at(alloc: Global, g: &Graph, tags: u16, words: &[&str]) -> Result<TagLoop, Fail>
    requires { IsTyped g.now.graph }
{
    let names = names(alloc, words)?;
    Ok(
        TagLoop::at(alloc, g, 0, tags, names.as_slice())
            .ok()
            .ok_or("no instance")?,
    )
}

/// Whether the graph of the text has no instance there, with two tags and new names of this prefix.
fn is_refused(alloc: Global, text: &str, prefix: u64) -> Result<bool, Fail> {
    is_no_instance(alloc, text, prefix, 2, &IN_ORDER)
}

/// Whether the graph of the text has no instance there.
fn is_no_instance(
    alloc: Global,
    text: &str,
    prefix: u64,
    tags: u16,
    words: &[&str],
) -> Result<bool, Fail> {
    let g = graph(alloc, text)?;
    let names = names(alloc, words)?;
    let refused = TagLoop::at(alloc, &g, prefix, tags, names.as_slice()).err();
    Ok(refused == Some(AtFault::NoInstance))
}

/// The graph of the text with a tagged loop in the place of its loop.
fn tagged(alloc: Global, text: &str, tags: u16) -> Result<Graph, Fail> {
    let mut g = graph(alloc, text)?;
    let rule = rule_at(alloc, &g, tags, &IN_ORDER)?;
    if !matches(&g, &rule) || rule.word() != RuleWord::TagLoop {
        return Err("no match".into());
    }
    replace(alloc, &mut g, &rule).ok().ok_or("not replaced")?;
    Ok(g)
}

#[test]
fn a_gathered_loop_is_tagged(rt: HostRuntime) -> Result<(), Fail> {
    let g = tagged(rt.alloc(), GATHERED, 4)?;
    let wanted = graph(rt.alloc(), TAGGED)?;
    assert!(rt; same_graph(&g, &wanted));
    let nodes = g.by_name(rt.alloc())?;
    assert_eq!(rt; nodes.len(), 13);
    Ok(())
}

/// The width of the tags on the ring.
fn width(g: &Graph) -> Option<u8> {
    match &g.node(g.find(b"ooo_0_merge")?)?.kind {
        Kind::Merge(shape, 2) => shape.widths().first().copied(),
        _ => None,
    }
}

#[test]
fn tags_have_the_least_width(rt: HostRuntime) -> Result<(), Fail> {
    for (tags, wanted) in [(1, 1), (2, 1), (3, 2), (255, 8), (256, 8)] {
        let g = tagged(rt.alloc(), GATHERED, tags)?;
        assert_eq!(rt; width(&g), Some(wanted));
    }
    Ok(())
}

/// Whether the output of the new Branch feeds the input of the new node.
fn feeds(g: &Graph, output: u8, target: &str, input: u8) -> bool {
    match (g.find(b"ooo_0_branch"), g.find(target.as_bytes())) {
        (Some(branch), Some(node)) => {
            g.wire_into(PortAt { node, port: input })
                == Some(PortAt {
                    node: branch,
                    port: output,
                })
        }
        _ => false,
    }
}

#[test]
fn a_loop_may_go_back_on_condition_0(rt: HostRuntime) -> Result<(), Fail> {
    let g = tagged(rt.alloc(), OTHER_WAY, 2)?;
    assert!(rt; feeds(&g, 2, "ooo_0_merge", 2) && feeds(&g, 1, "ooo_0_tagger", 2));
    Ok(())
}

#[test]
fn other_names_are_no_instance(rt: HostRuntime) -> Result<(), Fail> {
    let rows: [(u16, &[&str]); 6] = [
        (0, &IN_ORDER),
        (257, &IN_ORDER),
        (4, &["i", "m", "f", "p", "b", "c"]),
        (4, &["i", "m", "f", "out", "c", "b"]),
        (4, &["i", "m", "f", "p", "c"]),
        (4, &["i", "m", "f", "p", "c", "c"]),
    ];
    for (tags, words) in rows {
        assert!(rt; is_no_instance(rt.alloc(), GATHERED, 0, tags, words)?);
    }
    Ok(())
}

#[test]
fn a_name_that_is_taken_and_a_wire_that_is_not_there(rt: HostRuntime) -> Result<(), Fail> {
    assert!(rt; is_refused(rt.alloc(), OTHER_WAY, 1)?);
    assert!(rt; !is_refused(rt.alloc(), OTHER_WAY, 2)?);
    assert!(rt; is_refused(rt.alloc(), WITH_BUFFER, 0)?);
    Ok(())
}
