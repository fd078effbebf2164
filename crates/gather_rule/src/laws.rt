//! Laws of the rule `gather`.
ghost use Rattle.gather_rule.specs.Gather.{GatherIsSound};
ghost use Rattle.gather_rule.specs.GatherInstance.{GatherMatches};

use body_laws::gather_refines;
use circuits::graph_typed_as_circuit;
use loop_body::{function_computes_turn, one_turn};

/// The rule at a Split and nodes of different names, for any body whose Pure is within the limits of ports and fields, meets what a rule
/// owes: both its graphs are typed, with the same Entries and Exits, and the Pure shows nothing that the body does not.
pub fn gather_is_sound()
    ensures { GatherIsSound }
{
    one_turn();
    function_computes_turn();
    gather_refines();
    graph_typed_as_circuit();
}

/// Where the rule is an instance it matches.
pub fn gather_matches()
    ensures { GatherMatches }
{}
