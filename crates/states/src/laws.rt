//! Laws of states.
ghost use Rattle.states.specs.Laws.{StartIsIn, StepStaysIn};

use circuits::{graph_typed_as_circuit, states_fit};

/// What holds the same as the start of a graph is a state of it, and a step leads from a state of it to a state of it.
pub(crate) fn states_stay()
    ensures start { StartIsIn }
    ensures step { StepStaysIn }
{
    graph_typed_as_circuit();
    states_fit();
}
