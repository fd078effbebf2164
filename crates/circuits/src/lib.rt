//! What circuits do, as definitions, and laws about it. There are no calls here: a circuit is two functions, what node a
//! name is and what feeds an input, so a graph by names stands for one, and so does a part of it with a surrounding circuit.
//!
//! The definitions, in `specs/`:
//!
//! - `Circuit`: circuits, the circuit of a graph, and typed ones. `Plug`: a circuit in a surrounding one, by links.
//!   `PluggedGraph`: the same for graphs by names, with the attributes that they keep.
//! - `CircuitState`, `PortTokens`, `Firing`, `Run`: states and the start, the table of components by what a node does, steps,
//!   runs, and the trace that is seen of a run.
//! - `Refines`: in no surrounding circuit does the one show anything that the other does not.
//! - `Buffers`: a circuit, and a graph, without a Buffer or a Fork of one output, and a circuit without several.
//! - `Replacing`: a part of a circuit, and another circuit in its place. `ReplacedGraph`: the same for graphs by names, and when
//!   a rule matches there. `Renaming`: a circuit under other names.
//! - `Root`, `Drains`: where the tokens of an input come from, the state at rest, and what a circuit drains.
//! - `TaggerOrder`: what a Tagger gave out in a run. `Laws`: the laws that the functions below prove.
//!
//! Each function is a law: its contract cites `Laws`, and its body is empty or names the laws of lower crates that the proof
//! needs. A crate above calls it where a proof needs the law, which is then in that call's `ensures`:
//!
//! ```text
//! /// What a typed graph drains, its stripped graph drains.
//! pub fn stripped_drains()
//!     ensures { StrippedDrains }
//! {
//!     buffer_keeps_drains();
//! }
//! ```
//!
//! `proofs/` has the proof method for further rules, in public modules that `docs/PROOFS.md` explains: begin at `Matching`.
//! The crate `circuit_examples` tries the definitions out on small graphs.
#![tactic(auto)]

ghost use Rattle.circuits.specs.Laws.{StartIsState, StepKeepsState, RunReachesState, FiringIsOne, TaggerKeepsOrder, RefinesItself, RefinesInSteps, RefinesAlone, PlugIsTyped, PluggedGraphIsCircuit, PluggedGraphIsTyped, WholeRefines, ReplacementRefines, ConsumerIsFed, ReplacedNodes, ReplacedGraphIsCircuit, ReplacedGraphIsTyped, ReplacedGraphHasNames, GraphReplacementRefines, BufferRuleMatches, DropIsReplacement, RenamedRefines, RefinesRenamed, RenamingKeepsRefines, DropRefines, PutRefines, DropAllRefines, PutAllRefines, CircuitIsTyped, GraphIsTyped, GraphDropRefines, GraphPutRefines, RootIsOne, RingHasNoRoot, RestIsOne, GraphRests, RestsWithoutInit, DropDrains, PutDrains, GraphDropDrains, GraphPutDrains};

use fun_expr::fun_value_fits;
use op_table::value_fits;

/// In each state that a typed circuit reaches, tokens fit the shapes of their wires, what stands in the slots of Taggers
/// fits, and the tags of the slots of each differ.
pub fn states_fit()
    ensures start { StartIsState }
    ensures step { StepKeepsState }
    ensures run { RunReachesState }
{
    value_fits();
    fun_value_fits();
}

/// A node that fires with a choice in a state leads to one state: all that is open in a run is who goes next, and with
/// which choice.
pub fn one_firing()
    ensures { FiringIsOne }
{}

/// A Tagger gives results in the order in which it gave out their tags, whatever the order in which they came back.
pub fn tagger_keeps_order()
    ensures { TaggerKeepsOrder }
{}

/// A typed circuit refines itself.
pub fn refines_itself()
    ensures { RefinesItself }
{}

/// Refinement goes on from step to step.
pub fn refines_in_steps()
    ensures { RefinesInSteps }
{}

/// With no circuit around it, what refines another shows nothing that the other does not.
pub fn refines_alone()
    ensures { RefinesAlone }
{}

/// Two typed circuits that are plugged together make a typed one.
pub fn plugged_is_typed()
    ensures { PlugIsTyped }
{}

/// Two typed graphs that are plugged together make a typed one, whose circuit is that of the two, plugged together.
pub fn plugged_graph_as_circuit()
    ensures circuit { PluggedGraphIsCircuit }
    ensures typed { PluggedGraphIsTyped }
{}

/// A circuit with a part that refines another refines the circuit with the other, where names are apart.
pub fn whole_refines()
    ensures { WholeRefines }
{}

/// A circuit with another part in the place of one of its parts refines the circuit, if the new part refines the old one,
/// whatever stands around the part.
pub fn replacement_refines()
    ensures { ReplacementRefines }
{
    value_fits();
    fun_value_fits();
}

/// A graph with another graph in the place of a part, by look-ups: the node of each name, and what feeds each input.
pub fn replaced_graph_as_circuit()
    ensures consumer { ConsumerIsFed }
    ensures nodes { ReplacedNodes }
    ensures circuit { ReplacedGraphIsCircuit }
{}

/// A typed graph in which a rule matches stays typed, keeps allowed names, and refines what it was if the new part refines the
/// old one.
pub fn graph_replacement_refines()
    ensures typed { ReplacedGraphIsTyped }
    ensures names { ReplacedGraphHasNames }
    ensures refines { GraphReplacementRefines }
{
    value_fits();
    fun_value_fits();
}

/// To drop a Buffer, or a Fork of one output, is to replace a part: an Entry, this node and an Exit in a row become the Entry
/// wired to the Exit.
pub fn dropped_is_replaced()
    ensures matches { BufferRuleMatches }
    ensures graph { DropIsReplacement }
{}

/// A circuit shows the same whatever the names of its inner nodes, and what refines another circuit refines it where names
/// of Entries and Exits change in both, too.
pub fn names_show_nothing()
    ensures new { RenamedRefines }
    ensures old { RefinesRenamed }
    ensures both { RenamingKeepsRefines }
{
    value_fits();
    fun_value_fits();
}

/// A circuit shows the same with a Buffer on a wire, or a Fork of one output, and without it.
pub fn buffer_shows_nothing()
    ensures dropped { DropRefines }
    ensures put { PutRefines }
{
    value_fits();
    fun_value_fits();
}

/// A circuit shows the same with several Buffers, or Forks of one output, and without them.
pub fn buffers_show_nothing()
    ensures dropped { DropAllRefines }
    ensures put { PutAllRefines }
{
    value_fits();
    fun_value_fits();
}

/// A graph is typed exactly where its circuit is.
pub fn graph_typed_as_circuit()
    ensures circuit { CircuitIsTyped }
    ensures graph { GraphIsTyped }
{}

/// A graph shows the same with a Buffer on a wire, or a Fork of one output, and without it.
pub fn graph_buffer_shows_nothing()
    ensures dropped { GraphDropRefines }
    ensures put { GraphPutRefines }
{
    value_fits();
    fun_value_fits();
}

/// An input has at most one root, and that of a Buffer that is wired to itself has none.
pub fn one_root()
    ensures one { RootIsOne }
    ensures none { RingHasNoRoot }
{}

/// The Buffers and Forks that Inits lead to may fire in any order: a circuit has at most one rest state, a graph has one,
/// and with no Init it is the start.
pub fn one_rest()
    ensures one { RestIsOne }
    ensures graph { GraphRests }
    ensures without_init { RestsWithoutInit }
{}

/// What a circuit drains it drains without a Buffer, or without a Fork of one output.
pub fn buffer_keeps_drains()
    ensures circuit { DropDrains }
    ensures graph { GraphDropDrains }
{}

/// What a circuit drains without a Buffer, or without a Fork of one output, it drains with it.
pub fn buffer_put_keeps_drains()
    ensures circuit { PutDrains }
    ensures graph { GraphPutDrains }
{}
