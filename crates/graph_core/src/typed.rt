//! The other ends of wires in typed graphs, where each port stands on one.
ghost use Rattle.std.specs.Prelude.{◌≡◌, Some};
ghost use Rattle.std.specs.FinMap as finite;
ghost use Rattle.components.specs.NamedGraph.{IsTyped};
ghost use Rattle.graph_core.specs.GraphValue.{port_of};
ghost use Rattle.graph_core.specs.Wiring.{HasPort};

use crate::graph::Graph;
use crate::place::PortAt;
use port_types::Side;

impl Graph {
    /// The output that feeds an input of a typed graph.
    pub fn source_of(&self, target: PortAt) -> PortAt
        requires typed { IsTyped self.now.graph }
        requires there { HasPort self.now.graph Side.Ins (port_of self.now target) }
        ensures { finite.get self.now.graph.feeders (port_of self.now target) ≡ Some (port_of self.now result) }
    {
        match self.wire_into(target) {
            Some(source) => source,
            None => unreachable!(),
        }
    }

    /// The input that an output of a typed graph feeds.
    pub fn target_of(&self, source: PortAt) -> PortAt
        requires typed { IsTyped self.now.graph }
        requires there { HasPort self.now.graph Side.Outs (port_of self.now source) }
        ensures { finite.get self.now.graph.feeders (port_of self.now result) ≡ Some (port_of self.now source) }
    {
        match self.wire_from(source) {
            Some(target) => target,
            None => unreachable!(),
        }
    }
}
