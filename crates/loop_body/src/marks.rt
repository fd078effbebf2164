//! Whether each output of a body is used once.
ghost use Rattle.std.specs.Prelude.{◌≡◌, ◌↔◌, ◌∷◌, ◌≤◌, ◌++◌, [], true, false, length, replicate, IsTrue, IsPermutation, IfOk, slice_get, slice_set};
ghost use Rattle.components.specs.Kind.{KindOk};
ghost use Rattle.components.specs.Name.{port_get};
ghost use Rattle.fun_expr.specs.Each.{Each, total};
ghost use Rattle.loop_body.specs.Body.{entry, flat, table_ports};
ghost use Rattle.loop_body.specs.Judging.{kinds_of, rows_of, unmarked, is_fresh, mark_row, marked, all_fresh};

use crate::body_port::BodyPort;
use components::{Kind, Node, outputs};
use port_types::{Items, NoMemory};
use std::alloc::Global;
use std::marker::Model;
use std::mem;

/// A mark for each output of a node. Contracts see the list of them.
#[derive(Debug, Drop)]
struct MarkRow {
    marks: Vec<bool>,
}

impl Model for MarkRow {
    ghost use Rattle.std.specs.Prelude.{List, Bool};
    ghost use Rattle.std.specs.Coded.{codes};

    ghost Value = { List Bool };

    ghost coded = { Prim.hlevel codes };

    ghost view = { λ row. row.marks.items };
}

impl MarkRow {
    /// So many outputs without a mark.
    fn new(alloc: Global, count: u8) -> Result<MarkRow, NoMemory>
        ensures { IfOk result (λ row. row ≡ replicate count false) }
    {
        Ok(MarkRow {
            marks: vec![in alloc; false; count as usize]?,
        })
    }

    /// Marks an output, and answers whether it is there and had no mark.
    fn mark(&mut self, port: u8) -> bool
        ensures fresh { result ≡ is_fresh (port_get self.old port) }
        ensures marks { self.new ≡ mark_row port self.old }
    {
        if port == 0 {
            return false;
        }
        is_fresh(put_at(&mut self.marks, port as usize - 1))
    }
}

/// Whether what stood at an output says that it is there and had no mark.
fn is_fresh(mark: Option<bool>) -> bool
    ensures { result ≡ is_fresh mark }
{
    match mark {
        Some(mark) => !mark,
        None => false,
    }
}

/// Puts a mark at an index, and answers what stood there.
fn put_at(marks: &mut Vec<bool>, index: usize) -> Option<bool>
    ensures old { result ≡ slice_get marks.old.items index }
    ensures new { marks.new.items ≡ slice_set marks.old.items index true }
{
    Some(mem::replace(marks.get_mut(index)?, true))
}

/// Marks an output, and answers whether it is there and had no mark.
fn mark_at(rows: &mut Vec<MarkRow>, port: BodyPort) -> bool
    ensures fresh { result ≡ is_fresh (entry rows.old.items port) }
    ensures marks { rows.new.items ≡ marked rows.old.items port }
{
    match rows.get_mut(port.node) {
        Some(row) => row.mark(port.port),
        None => false,
    }
}

/// Whether each output is there and had no mark, when each gets one in turn.
fn mark_all(rows: &mut Vec<MarkRow>, ports: &[BodyPort]) -> bool
    ensures { result ≡ all_fresh ports.now rows.old.items }
{
    for port in ports {
        if !mark_at(rows, *port) {
            return false;
        }
    }
    true
}

/// A row for the Split and one for each node, without marks.
fn unmarked_rows(alloc: Global, split: &Kind, nodes: &[Node]) -> Result<Vec<MarkRow>, NoMemory>
    requires split_ok { KindOk split.now }
    requires nodes_ok { Each KindOk (kinds_of nodes.now) }
    ensures { IfOk result (λ rows. rows.items ≡ unmarked (rows_of (split.now ∷ kinds_of nodes.now))) }
{
    let mut rows = Vec::new(alloc);
    rows.push(MarkRow::new(alloc, outputs(split))?)?;
    for node in nodes {
        rows.push(MarkRow::new(alloc, outputs(&node.kind))?)?;
    }
    Ok(rows)
}

/// How many outputs there are.
fn output_count(split: &Kind, nodes: &[Node]) -> usize
    requires few { length nodes.now ≤ 4096 }
    requires split_ok { KindOk split.now }
    requires nodes_ok { Each KindOk (kinds_of nodes.now) }
    ensures { result ≡ total length (rows_of (split.now ∷ kinds_of nodes.now)) }
{
    let mut count = outputs(split) as usize;
    for node in nodes {
        count += outputs(&node.kind) as usize;
    }
    count
}

/// All places that name an output.
fn uses(
    alloc: Global,
    inputs: &[Items<BodyPort>],
    next: &[BodyPort],
    conditions: &[BodyPort],
) -> Result<Vec<BodyPort>, NoMemory>
    ensures { IfOk result (λ ports. ports.items ≡ flat inputs.now ++ next.now ++ conditions.now) }
{
    let mut ports = Vec::new(alloc);
    for of_node in inputs {
        ports.extend_from_slice(of_node.as_slice())?;
    }
    ports.extend_from_slice(next)?;
    ports.extend_from_slice(conditions)?;
    Ok(ports)
}

/// Whether each output of the Split and of the nodes stands once in these lists, and nothing else does.
pub(crate) fn are_used_once(
    alloc: Global,
    split: &Kind,
    nodes: &[Node],
    inputs: &[Items<BodyPort>],
    next: &[BodyPort],
    conditions: &[BodyPort],
) -> Result<bool, NoMemory>
    requires few { length nodes.now ≤ 4096 }
    requires split_ok { KindOk split.now }
    requires nodes_ok { Each KindOk (kinds_of nodes.now) }
    ensures { IfOk result (λ once. IsTrue once ↔ IsPermutation (flat inputs.now ++ next.now ++ conditions.now) (table_ports 0 (rows_of (split.now ∷ kinds_of nodes.now)))) }
{
    let ports = uses(alloc, inputs, next, conditions)?;
    if ports.len() != output_count(split, nodes) {
        return Ok(false);
    }
    let mut rows = unmarked_rows(alloc, split, nodes)?;
    Ok(mark_all(&mut rows, &ports))
}
