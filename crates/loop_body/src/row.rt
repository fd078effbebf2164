//! What the outputs of one node stand for.
ghost use Rattle.std.specs.Prelude.{◌≡◌, ◌≢◌, ℕ, [], ◌∷◌, ◌++◌, OnOk, slice_get, slice_set};
ghost use Rattle.components.specs.Name.{port_get};

use crate::wired::Wired;
use port_types::{Items, NoMemory};
use std::alloc::Global;
use std::marker::Model;
use std::mem;

/// A wire for each output of a node, which stands for an expression for each field of its shape. Contracts see the lists.
#[derive(Debug, Drop)]
pub(crate) struct Row {
    wires: Vec<Items<Wired>>,
}

impl Model for Row {
    ghost use Rattle.std.specs.Prelude.{List};
    ghost use Rattle.std.specs.Coded.{coded_list};
    ghost use Rattle.fun_expr.specs.declared.expr.Expr.{Expr};
    ghost use Rattle.fun_expr.specs.contracts.expr.Expr as e;

    ghost Value = { List (List Expr) };

    ghost coded = { coded_list (coded_list e.the_row.coded) };

    ghost view = { λ row. row.wires.items };
}

impl Row {
    /// No wire.
    pub(crate) fn new(alloc: Global) -> Row
        ensures { result ≡ [] }
    {
        Row {
            wires: Vec::new(alloc),
        }
    }

    /// Adds a wire behind the others.
    pub(crate) fn push(&mut self, wire: Vec<Wired>) -> Result<(), NoMemory>
        ensures { OnOk result (self.new ≡ self.old ++ wire.items ∷ []) }
    {
        self.wires.push(Items::new(wire))?;
        Ok(())
    }

    /// What an output stands for, or `None` where there is none. It is moved out, and what the others stand for stays.
    pub(crate) fn take(&mut self, alloc: Global, port: u8) -> Option<Items<Wired>>
        ensures wire { result ≡ port_get self.old port }
        ensures others { (other : ℕ) → other ≢ port → port_get self.new other ≡ port_get self.old other }
    {
        if port == 0 {
            return None;
        }
        put_at(
            &mut self.wires,
            port as usize - 1,
            Items::new(Vec::new(alloc)),
        )
    }
}

/// Puts a wire at an index, and answers what stood there.
fn put_at(wires: &mut Vec<Items<Wired>>, index: usize, wire: Items<Wired>) -> Option<Items<Wired>>
    ensures old { result ≡ slice_get wires.old.items index }
    ensures new { wires.new.items ≡ slice_set wires.old.items index wire }
{
    Some(mem::replace(wires.get_mut(index)?, wire))
}
