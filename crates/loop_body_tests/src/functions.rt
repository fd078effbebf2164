//! The function of a body.
ghost use Rattle.std.specs.Prelude.{◌≡◌, [], ◌∷◌, map, IfOk};
ghost use Rattle.components.specs.Kind.{field};
ghost use Rattle.components.specs.declared.kind.Kind.TheVariants as kinds;
ghost use Rattle.loop_body.specs.Gcd.{bare, gcd_body};

use components::{Kind, Node};
use fun_expr::print_fun;
use loop_body::{Body, BodyPort, body_fun, gcd_has_its_function};
use op_table::Op;
use port_types::{Items, NoMemory, Shape, Text};
use std::alloc::Global;
use std::test::Fail;

/// A shape of one field.
fn field(alloc: Global, width: u8) -> Result<Shape, NoMemory>
    ensures { IfOk result (λ shape. shape ≡ field width) }
{
    Shape::new(vec![in alloc; width]?).ok_or(NoMemory)
}

/// A node without kept attributes.
fn node(alloc: Global, name: &str, kind: Kind) -> Result<Node, NoMemory>
    ensures { IfOk result (λ node. node ≡ bare name.now kind) }
{
    Ok(Node {
        name: Text::new(Vec::from_slice(alloc, name.as_bytes())?).ok_or(NoMemory)?,
        kind,
        kept: Items::new(Vec::new(alloc)),
    })
}

/// A Fork of so many outputs.
fn fork(alloc: Global, name: &str, width: u8, count: u8) -> Result<Node, NoMemory>
    ensures { IfOk result (λ node. node ≡ bare name.now (kinds.Fork (field width) count)) }
{
    node(alloc, name, Kind::Fork(field(alloc, width)?, count))
}

/// An Operator of two words.
fn operator(alloc: Global, name: &str, op: Op, width: u8) -> Result<Node, NoMemory>
    ensures { IfOk result (λ node. node ≡ bare name.now (kinds.Operator op (32 ∷ 32 ∷ []) width)) }
{
    node(
        alloc,
        name,
        Kind::Operator(op, Items::new(vec![in alloc; 32, 32]?), width),
    )
}

/// The list of what a slice holds.
fn ports(alloc: Global, ports: &[BodyPort]) -> Result<Items<BodyPort>, NoMemory>
    ensures { IfOk result (λ items. items ≡ ports.now) }
{
    Ok(Items::new(Vec::from_slice(alloc, ports)?))
}

const fn port(node: usize, port: u8) -> BodyPort
    ensures { result ≡ record { node = node; port = port } }
{
    BodyPort { node, port }
}

fn gcd_nodes(alloc: Global) -> Result<Items<Node>, NoMemory>
    ensures { IfOk result (λ nodes. nodes ≡ gcd_body.nodes) }
{
    let second = fork(alloc, "fb", 32, 2)?;
    let rest = operator(alloc, "rem", Op::Urem, 32)?;
    let third = fork(alloc, "fr", 32, 3)?;
    let zero = node(alloc, "z", Kind::Constant(field(alloc, 32)?, 32, 0))?;
    let differs = operator(alloc, "ne", Op::Ne, 1)?;
    let bits = fork(alloc, "fc", 1, 3)?;
    Ok(Items::new(vec![in alloc; second, rest, third, zero, differs, bits]?))
}

fn gcd_inputs(alloc: Global) -> Result<Items<Items<BodyPort>>, NoMemory>
    ensures { IfOk result (λ inputs. inputs ≡ gcd_body.inputs) }
{
    let second = ports(alloc, &[port(0, 2)])?;
    let rest = ports(alloc, &[port(0, 1), port(1, 2)])?;
    let third = ports(alloc, &[port(2, 1)])?;
    let zero = ports(alloc, &[port(3, 3)])?;
    let differs = ports(alloc, &[port(3, 2), port(4, 1)])?;
    let bits = ports(alloc, &[port(5, 1)])?;
    Ok(Items::new(vec![in alloc; second, rest, third, zero, differs, bits]?))
}

/// The body of the loop that computes greatest common divisors.
fn gcd(alloc: Global) -> Result<Body, NoMemory>
    ensures { IfOk result (λ body. body ≡ gcd_body) }
{
    gcd_has_its_function();
    let vars = Items::new(vec![in alloc; field(alloc, 32)?, field(alloc, 32)?]?);
    let nodes = gcd_nodes(alloc)?;
    let inputs = gcd_inputs(alloc)?;
    let next = ports(alloc, &[port(1, 1), port(3, 1)])?;
    let conditions = ports(alloc, &[port(6, 1), port(6, 2), port(6, 3)])?;
    Ok(Body {
        vars,
        nodes,
        inputs,
        next,
        conditions,
    })
}

#[test]
fn the_function_of_the_greatest_common_divisor(rt: HostRuntime) -> Result<(), Fail> {
    let fun = body_fun(rt.alloc(), &gcd(rt.alloc())?)?;
    let text = print_fun(rt.alloc(), &fun)?;
    assert_eq!(rt; text.as_str(), "urem:32(#0,#1);ne:1(#2,32'0) -> #1 #2 #3");
    Ok(())
}
