//! The rules `mux_combine` and `mux_combine0`: one Mux in the place of the Muxes of several lanes.
ghost use Rattle.std.specs.Prelude.{◌≡◌, IfOk};
ghost use Rattle.lane_laws.specs.CombineMuxes.{Tree};
ghost use Rattle.mux_branch_rules.specs.MuxCombine.{MuxCombineIsSound, MuxCombineMatches, mux_combine, mux_word};
ghost use Rattle.mux_branch_rules.specs.MuxSides.{CanMuxSides, HasSources};

use crate::combined::Combined;
use crate::mux_lists::MuxTree;
use crate::mux_sides::{left_graph, right_graph};
use lane_laws::mux_combine_refines;
use port_types::NoMemory;
use std::alloc::Global;
use subst_engine::RuleWord;

/// The rule at nodes that were read.
pub(crate) fn combined(
    alloc: Global,
    prefix: u64,
    ends: u64,
    read: MuxTree<'_>,
    goes_back: bool,
) -> Result<Combined, NoMemory>
    requires { CanMuxSides prefix ends read.names.now read.kinds.now read.lanes.now read.sources.now }
    ensures { IfOk result (λ rule. (tree : Tree read.entry.kinds.now read.entry.lanes.now) → HasSources tree read.entry.sources.now →
        rule ≡ mux_combine prefix ends read.entry.names.now goes_back read.entry.kinds.now read.entry.lanes.now tree) }
{
    mux_combine_refines();
    let word = mux_word(goes_back);
    let left = left_graph(alloc, prefix, ends, read)?;
    let right = right_graph(alloc, prefix, ends, read, goes_back)?;
    Ok(Combined { word, left, right })
}

fn mux_word(goes_back: bool) -> RuleWord
    ensures { result ≡ mux_word goes_back }
{
    if goes_back {
        RuleWord::MuxCombine
    } else {
        RuleWord::MuxCombine0
    }
}

/// The rules at different names, for any tree and any lanes whose values can be joined, meet what a rule owes.
pub fn mux_combine_is_sound()
    ensures { MuxCombineIsSound }
{
    mux_combine_refines();
}

/// Where one of the rules was made it matches.
pub fn mux_combine_matches()
    ensures { MuxCombineMatches }
{}
