//! Fronts for new names.
ghost use Rattle.std.specs.Prelude.{IfOk};
ghost use Rattle.components.specs.Node.{NodeOk};

use components::{Kind, Node, is_name, kind_ok};
use graph_core::Graph;
use port_types::{Items, Shape, Text};
use std::alloc::Global;
use std::process::Abort;
use std::test::Fail;
use subst_engine::fresh_prefix;

/// A Buffer without kept attributes.
fn buffer(alloc: Global, name: &str) -> Result<Node, Fail>
    ensures { IfOk result NodeOk }
{
    let name = Text::from_string(String::from_str(alloc, name)?);
    let kind = Kind::Buffer(Shape::new(vec![in alloc; 8]?).ok_or("no shape")?);
    if !is_name(&name) || !kind_ok(&kind) {
        return Err("no node".into());
    }
    let kept = Items::new(Vec::new(alloc));
    Ok(Node { name, kind, kept })
}

fn graph(alloc: Global, names: &[&str]) -> Result<Graph, Fail> {
    let mut g = Graph::new(alloc);
    for name in names {
        g.add_node(buffer(alloc, name)?).ok().ok_or("not added")?;
    }
    Ok(g)
}

/// Checks the least number that stands in no name.
fn check(rt: &(impl Abort + AllocGlobal), names: &[&str], number: u64) -> Result<(), Fail> {
    let g = graph(rt.alloc(), names)?;
    assert!(rt; fresh_prefix(&g) == number);
    Ok(())
}

#[test]
fn the_least_number_is_taken(rt: HostRuntime) -> Result<(), Fail> {
    check(&rt, &[], 0)?;
    check(&rt, &["ooo_1_x"], 0)?;
    check(&rt, &["ooo_0_in"], 1)?;
    check(&rt, &["ooo_1__a", "b", "ooo_0_", "ooo_3_b"], 2)
}

#[test]
fn other_names_take_no_number(rt: HostRuntime) -> Result<(), Fail> {
    check(
        &rt,
        &["ooo_00_x", "ooo_0", "oo_0_x", "ooo__0_x", "ooo_0x_0"],
        0,
    )
}
