//! A graph with one marked loop tagged, or gathered into one function, and marked loops one after the other: definitions and laws, and no
//! calls.
//!
//! The definitions, in `specs/`:
//!
//! - `Rebuilt`: a circuit without some nodes and with new ones, as a function of ports. `Lanes`: the nodes of a loop by lanes.
//! - `Tagged`, `Gathered`: the graph with one marked loop tagged, and with it gathered into one function.
//! - `NewNames`: the names of the new nodes, and marks one after the other, each under the least fresh prefix at its turn.
//! - `Uses`: uses of rules on a marked loop, when they are instances; `GatherChain`, `TagChain`: what they make, as functions of ports.
//! - `Laws`, `UseLaws`: what the functions below prove.
//!
//! Each function is a law: its contract cites `Laws` or `UseLaws`, and its body is empty.
#![tactic(auto)]

ghost use Rattle.loop_turns.specs.Laws.{GatheredAllHasLoops, GatheringLeavesLoops, GatheringLeavesMarks, GatheringLeavesOffCycle, PrefixNamesGathered, PrefixNamesTagged, TaggedAllHasLoops, TaggedAllHasMarks, TaggedAllOffCycle, TaggingLeavesLoops, TaggingLeavesMarks, TaggingLeavesOffCycle};
ghost use Rattle.loop_turns.specs.UseLaws.{BackBuffersDrop, BackBuffersLeaveGathered, BackBuffersLeaveLoops, BackBuffersLeaveTagged, BodyGathers, MuxesCombine, UsesGather, UsesTag};

/// A fresh prefix gives the new nodes of a tagged and of a gathered loop names that differ from each other and from all others.
pub fn fresh_prefix_gives_new_names()
    ensures tagged { PrefixNamesTagged }
    ensures gathered { PrefixNamesGathered }
{}

/// The turn of a mark, tagged, gives a typed graph whose marks are the other marks, each with the loop that it had, off cycle where it
/// was.
pub fn tagging_leaves_other_loops()
    ensures loops { TaggingLeavesLoops }
    ensures marks { TaggingLeavesMarks }
    ensures off_cycle { TaggingLeavesOffCycle }
{}

/// Marks tagged one after the other, each in the graph that those before it left: each of the others has the loop that it had in the
/// first graph, off cycle where it was.
pub fn tagging_one_after_the_other()
    ensures loops { TaggedAllHasLoops }
    ensures marks { TaggedAllHasMarks }
    ensures off_cycle { TaggedAllOffCycle }
{}

/// The turn of a mark, gathered, gives a typed graph with the same marks: its own has the gathered loop, of one lane, each other one the
/// loop that it had, off cycle where it was.
pub fn gathering_leaves_all_loops()
    ensures loops { GatheringLeavesLoops }
    ensures marks { GatheringLeavesMarks }
    ensures off_cycle { GatheringLeavesOffCycle }
{}

/// Marks gathered one after the other: each mark that was not gathered has the loop that it had in the first graph, each that was has a
/// loop of one lane, all off cycle where they were.
pub fn gathering_one_after_the_other()
    ensures { GatheredAllHasLoops }
{}

/// The Buffers on a loop's back paths can be left out one after another. That leaves the loop without them, the loops of other marks, and
/// the same tagged and the same gathered graph.
pub fn back_buffers_can_be_dropped()
    ensures can { BackBuffersDrop }
    ensures loops { BackBuffersLeaveLoops }
    ensures tagged { BackBuffersLeaveTagged }
    ensures gathered { BackBuffersLeaveGathered }
{}

/// The tree and the Muxes of a loop can be combined; and in the graph that this makes its body can be gathered.
pub fn first_uses_are_instances()
    ensures combine { MuxesCombine }
    ensures gather { BodyGathers }
{}

/// Of a loop without Buffers on its back paths, `mux_combine`, `gather`, `branch_combine` and two `split_join`s, each as a function of ports,
/// make the gathered graph.
pub fn rule_uses_gather()
    ensures { UsesGather }
{}

/// Of a gathered loop, `tag_loop`, and then `expand` with the body that was gathered, each as a function of ports, make the tagged graph.
pub fn rule_uses_tag()
    ensures { UsesTag }
{}
