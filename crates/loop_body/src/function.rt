//! The function of a body.
ghost use Rattle.std.specs.Prelude.{◌≡◌, ◌≤◌, [], ◌∷◌, ◌++◌, length, map, take, IfOk, OnOk};
ghost use Rattle.std.specs.List.{concat};
ghost use Rattle.port_types.specs.Shape.{IsShape};
ghost use Rattle.loop_body.specs.Body.{flat};
ghost use Rattle.loop_body.specs.BodyFunction.{fields_from, at_start, ends, body_function};
ghost use Rattle.loop_body.specs.Laws.{next_shapes};
ghost use Rattle.loop_body.specs.Tables.{Differ, IsStep, IsBuilt};

use crate::binds::{parts, settle};
use crate::body::Body;
use crate::body_port::BodyPort;
use crate::laws::function_computes_turn;
use crate::node_row::node_row;
use crate::table::Table;
use crate::wired::Wired;
use components::{Kind, Node};
use fun_expr::{Expr, Fun};
use port_types::{Items, NoMemory, Shape};
use std::alloc::Global;

/// The widths of all fields of the shapes.
fn all_widths(alloc: Global, shapes: &[Shape]) -> Result<Vec<u8>, NoMemory>
    ensures { IfOk result (λ widths. widths.items ≡ concat shapes.now) }
{
    let mut widths = Vec::new(alloc);
    for shape in shapes {
        widths.extend_from_slice(shape.widths())?;
    }
    Ok(widths)
}

/// A field for each width.
fn input_fields(alloc: Global, widths: &[u8]) -> Result<Vec<Wired>, NoMemory>
    ensures { IfOk result (λ wire. wire.items ≡ fields_from 0 widths.now) }
{
    let mut wire = Vec::new(alloc);
    for place in 0..widths.len() {
        wire.push(Wired::field(place))?;
    }
    Ok(wire)
}

/// The table behind the Split.
fn first_table(alloc: Global, vars: &[Shape], widths: &[u8]) -> Result<Table, NoMemory>
    requires { widths.now ≡ concat vars.now }
    ensures { IfOk result (λ table. table ≡ (at_start vars.now).table) }
{
    let fields = input_fields(alloc, widths)?;
    let row = parts(alloc, vars, fields)?;
    let mut table = Table::new(alloc);
    table.push(row)?;
    Ok(table)
}

/// Takes what the inputs of a node stand for out of the table, and adds what its outputs stand for.
fn put_node(
    alloc: Global,
    fields: usize,
    kind: &Kind,
    ports: &[BodyPort],
    table: &mut Table,
    binds: &mut Vec<Expr>,
) -> Result<(), NoMemory>
    requires few { fields ≤ 128 }
    requires differ { Differ ports.now }
    ensures { OnOk result (IsStep fields kind.now ports.now table.old binds.old.items table.new binds.new.items) }
{
    let wires = table.take_all(alloc, ports)?;
    let row = node_row(alloc, fields, kind, wires, binds)?;
    table.push(row)?;
    Ok(())
}

/// The same for all nodes in order.
fn put_nodes(
    alloc: Global,
    fields: usize,
    nodes: &[Node],
    inputs: &[Items<BodyPort>],
    table: &mut Table,
    binds: &mut Vec<Expr>,
) -> Result<(), NoMemory>
    requires few { fields ≤ 128 }
    requires count { length nodes.now ≡ length inputs.now }
    requires differ { Differ (flat inputs.now) }
    ensures { OnOk result (IsBuilt fields (map (λ node. node.kind) nodes.now) inputs.now table.old binds.old.items table.new binds.new.items) }
{
    for (i, node) in nodes.iter().enumerate() {
        let ports = &inputs[i];
        put_node(alloc, fields, &node.kind, ports.as_slice(), table, binds)?;
    }
    Ok(())
}

/// The data wires and the first condition wire.
fn last_ports(
    alloc: Global,
    next: &[BodyPort],
    conditions: &[BodyPort],
) -> Result<Vec<BodyPort>, NoMemory>
    ensures { IfOk result (λ ports. ports.items ≡ next.now ++ take 1 conditions.now) }
{
    let mut ports = Vec::from_slice(alloc, next)?;
    if let Some(first) = conditions.first() {
        ports.push(*first)?;
    }
    Ok(ports)
}

/// The binds of the function of a body, and the places of the fields that it gives.
fn binds_and_outs(
    alloc: Global,
    body: &Body,
    widths: &[u8],
) -> Result<(Vec<Expr>, Vec<usize>), NoMemory>
    requires { widths.now ≡ concat body.now.vars }
    ensures { IfOk result (λ made. record { input = widths.now; binds = made.0.items; outs = made.1.items } ≡ body_function body.now) }
{
    let fields = widths.len();
    let mut table = first_table(alloc, body.vars.as_slice(), widths)?;
    let mut binds = Vec::new(alloc);
    let nodes = body.nodes.as_slice();
    let inputs = body.inputs.as_slice();
    put_nodes(alloc, fields, nodes, inputs, &mut table, &mut binds)?;
    let ports = last_ports(alloc, body.next.as_slice(), body.conditions.as_slice())?;
    let wires = table.take_all(alloc, &ports)?;
    let outs = settle(alloc, fields, wires, &mut binds)?;
    Ok((binds, outs))
}

/// The function of a body whose data wires have at most 127 fields: the nodes in order make of the expressions that their inputs
/// stand for those that their outputs stand for, from the fields of the input to the data wires and the first condition wire.
/// It takes time and memory in proportion to the fields of all outputs and the size of the function.
pub fn body_fun(alloc: Global, body: &Body) -> Result<Fun, NoMemory>
    requires few { length (concat (next_shapes body.now)) ≤ 127 }
    ensures function { IfOk result (λ fun. fun ≡ body_function body.now) }
{
    function_computes_turn();
    let widths = all_widths(alloc, body.vars.as_slice())?;
    let (binds, outs) = binds_and_outs(alloc, body, &widths)?;
    match Shape::new(widths) {
        Some(input) => Ok(Fun {
            input,
            binds: Items::new(binds),
            outs: Items::new(outs),
        }),
        None => unreachable!(),
    }
}
