ghost use Rattle.std.specs.Prelude.{◌≡◌, IfOk, None, replicate};
ghost use Rattle.graph_core.specs.Ends.{end_of, with_end_of};

use crate::place::PortAt;
use port_types::NoMemory;
use std::alloc::Global;
use std::marker::Model;

/// What stands at the other end of each port of one side of a node.
#[derive(Clone, Debug, Drop)]
pub(crate) struct Ends {
    ends: Vec<Option<PortAt>>,
}

impl Model for Ends {
    ghost use Rattle.graph_core.specs.Ends.{EndList};

    ghost Value = { EndList };

    ghost view = { λ e. e.ends.items };
}

impl Ends {
    /// So many ports that stand on no wire. The only error is want of memory.
    pub(crate) fn new(alloc: Global, count: u8) -> Result<Ends, NoMemory>
        ensures { IfOk result (λ ends. ends ≡ replicate count None) }
    {
        let ends = vec![in alloc; None; count as usize]?;
        Ok(Ends { ends })
    }

    /// The port at the other end of the wire at this port.
    pub(crate) fn get(&self, port: u8) -> Option<PortAt>
        ensures { result ≡ end_of self.now port }
    {
        if port == 0 {
            return None;
        }
        *self.ends.get(port as usize - 1)?
    }

    /// An equal list of its own. The only error is want of memory.
    pub(crate) fn copy(&self) -> Result<Ends, NoMemory>
        ensures { IfOk result (λ copy. copy ≡ self.now) }
    {
        Ok(self.clone()?)
    }

    /// The ends in the order of the ports.
    pub(crate) fn as_slice(&self) -> &[Option<PortAt>]
        ensures { result.now ≡ self.now }
    {
        self.ends.as_slice()
    }

    /// Puts a port at the other end of this one, or none.
    pub(crate) fn set(&mut self, port: u8, end: Option<PortAt>)
        ensures { self.new ≡ with_end_of self.old port end }
    {
        if port == 0 {
            return;
        }
        if let Some(here) = self.ends.get_mut(port as usize - 1) {
            *here = end;
        }
    }
}
