//! Laws of bodies and their functions.
ghost use Rattle.loop_body.specs.Laws.{ValueIsOne, TurnIsOne, FunctionIsTyped, FunctionIsLight, FunctionTurns};
ghost use Rattle.loop_body.specs.Loops.{LoopIsOne, LoopsByFunction, LoopsOfFunction};
ghost use Rattle.loop_body.specs.Gcd.{GcdIsBody, GcdFunction};

use fun_expr::fun_value_fits;
use op_table::{tests_are_the_table, typed_widths_are_few, value_fits};

/// At a fitting tuple a body has exactly one assignment of a token to each output that agrees with one firing of each node, and so
/// exactly one turn: a next tuple, which fits the data wires, and a bit, which all condition wires carry.
pub fn one_turn()
    ensures value { ValueIsOne }
    ensures turn { TurnIsOne }
{
    tests_are_the_table();
    value_fits();
    fun_value_fits();
    typed_widths_are_few();
}

/// The function of a body is typed and within the limits, is no larger than the weight of the body, and gives at a tuple the next
/// tuple, followed by the condition.
pub fn function_computes_turn()
    ensures typed { FunctionIsTyped }
    ensures light { FunctionIsLight }
    ensures turns { FunctionTurns }
{
    tests_are_the_table();
    value_fits();
    fun_value_fits();
    typed_widths_are_few();
}

/// Where the data wires have the shapes of the lanes, a loop with the body makes at most one tuple of a tuple, by finitely many
/// turns, and the loop of its function makes just that, whichever bit it goes back on.
pub fn function_loops()
    ensures once { LoopIsOne }
    ensures loops { LoopsByFunction }
    ensures back { LoopsOfFunction }
{
    tests_are_the_table();
    value_fits();
    fun_value_fits();
    typed_widths_are_few();
}

/// The body of the loop that computes greatest common divisors is a body, and its function is the one of two binds.
pub fn gcd_has_its_function()
    ensures body { GcdIsBody }
    ensures function { GcdFunction }
{}
