//! Bodies of loops as parts of circuits, and the Pure that comes in the place of one: definitions and a law, and no calls.
//!
//! The definitions, in `specs/`: `Bodies`, a Split and nodes behind it, each of which takes from earlier ones; `BodyPlans`, the circuit
//! of a body between an Entry and an Exit for each leaving wire, and that of one Pure in its place; `Laws`: what is proved.
#![tactic(auto)]

ghost use Rattle.body_laws.specs.Laws.{GatherRefines};

use fun_expr::fun_value_fits;
use op_table::value_fits;

/// One Pure with the function of a body, behind it two Splits and a Fork, shows nothing that the body does not show, in no surrounding
/// circuit, where all condition wires of the body have one root and the new nodes meet their rows of the table of components.
pub fn gather_refines()
    ensures { GatherRefines }
{
    value_fits();
    fun_value_fits();
}
