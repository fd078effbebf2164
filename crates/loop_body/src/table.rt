//! What the outputs of a body stand for.
ghost use Rattle.std.specs.Prelude.{◌≡◌, ◌≢◌, [], ◌∷◌, ◌++◌, length, map, unwrap_or, IfOk, OnOk};
ghost use Rattle.fun_expr.specs.Each.{Each};
ghost use Rattle.loop_body.specs.Body.{entry, flat};
ghost use Rattle.loop_body.specs.BodyFunction.{wire_at};
ghost use Rattle.loop_body.specs.Tables.{Differ, OthersStay};

use crate::body_port::BodyPort;
use crate::row::Row;
use crate::wired::Wired;
use port_types::{Items, NoMemory};
use std::alloc::Global;
use std::marker::Model;

/// A row for the Split of a body and one for each node so far. Contracts see the lists.
#[derive(Debug, Drop)]
pub(crate) struct Table {
    rows: Vec<Row>,
}

impl Model for Table {
    ghost use Rattle.std.specs.Prelude.{List};
    ghost use Rattle.std.specs.Coded.{coded_list};
    ghost use Rattle.fun_expr.specs.declared.expr.Expr.{Expr};
    ghost use Rattle.fun_expr.specs.contracts.expr.Expr as e;

    ghost Value = { List (List (List Expr)) };

    ghost coded = { coded_list (coded_list (coded_list e.the_row.coded)) };

    ghost view = { λ table. table.rows.items };
}

impl Table {
    /// No row.
    pub(crate) fn new(alloc: Global) -> Table
        ensures { result ≡ [] }
    {
        Table {
            rows: Vec::new(alloc),
        }
    }

    /// Adds a row behind the others.
    pub(crate) fn push(&mut self, row: Row) -> Result<(), NoMemory>
        ensures { OnOk result (self.new ≡ self.old ++ row ∷ []) }
    {
        self.rows.push(row)?;
        Ok(())
    }

    /// What an output stands for, or `None` where there is none. It is moved out, and what the others stand for stays.
    fn take(&mut self, alloc: Global, port: BodyPort) -> Option<Items<Wired>>
        ensures wire { result ≡ entry self.old port }
        ensures others { OthersStay self.old self.new port }
        ensures rows { length self.new ≡ length self.old }
    {
        take_in(&mut self.rows, alloc, port)
    }

    /// What these outputs stand for, one behind the other. It is moved out, and what the others stand for stays.
    pub(crate) fn take_all(
        &mut self,
        alloc: Global,
        ports: &[BodyPort],
    ) -> Result<Vec<Wired>, NoMemory>
        requires { Differ ports.now }
        ensures wires { IfOk result (λ wires. wires.items ≡ flat (map (wire_at self.old) ports.now)) }
        ensures others { OnOk result ((other : BodyPort) → Each (λ port. other ≢ port) ports.now → entry self.new other ≡ entry self.old other) }
        ensures rows { OnOk result (length self.new ≡ length self.old) }
    {
        let mut wires = Vec::new(alloc);
        for port in ports {
            let wire = self.take(alloc, *port);
            append(&mut wires, wire)?;
        }
        Ok(wires)
    }
}

/// What an output stands for in these rows, or `None` where there is none. It is moved out, and what the others stand for stays.
fn take_in(rows: &mut Vec<Row>, alloc: Global, port: BodyPort) -> Option<Items<Wired>>
    ensures wire { result ≡ entry rows.old.items port }
    ensures others { OthersStay rows.old.items rows.new.items port }
    ensures rows { length rows.new.items ≡ length rows.old.items }
{
    let row = rows.get_mut(port.node)?;
    row.take(alloc, port.port)
}

/// Adds what a wire stands for, if there is one.
fn append(wires: &mut Vec<Wired>, wire: Option<Items<Wired>>) -> Result<(), NoMemory>
    ensures { OnOk result (wires.new.items ≡ wires.old.items ++ unwrap_or wire []) }
{
    match wire {
        Some(wire) => {
            wires.append(&mut wire.into_vec())?;
            Ok(())
        }
        None => Ok(()),
    }
}
