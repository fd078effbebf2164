//! The rules `branch_combine` and `branch_combine0`: one Branch in the place of the Branches of several lanes.
ghost use Rattle.std.specs.Prelude.{◌≡◌, ◌∷◌, true, false, Err, IfOk};
ghost use Rattle.components.specs.NamedGraph.{IsTyped};
ghost use Rattle.mux_branch_rules.specs.BranchCombine.{BranchCombineIsSound, BranchCombineMatches, HasBranchInstance, IsBranchCombine, branch_combine, branch_word};
ghost use Rattle.mux_branch_rules.specs.BranchSides.{CanBranchSides};

use crate::branch_sides::{left_graph, right_graph};
use crate::combined::Combined;
use crate::lanes::{can_combine, lanes_at, listed_names};
use drawn_rules::{are_nodes, node_at};
use graph_core::Graph;
use lane_laws::branch_combine_refines;
use port_types::{Items, NoMemory, Shape, Text};
use std::alloc::Global;
use std::marker::Model;
use subst_engine::{AtFault, Rule, RuleWord, fresh_prefix, matches};

/// The rule `branch_combine` at a Fork and Branches that it leads one condition to. In their place comes one Branch of the lanes' values
/// joined, with a Split behind each of its outputs.
#[derive(Debug, Drop)]
pub struct BranchCombine {
    rule: Combined,
}

impl Model for BranchCombine {
    ghost use Rattle.subst_engine.specs.Rule.{NamedRule, rule_code};

    ghost Value = { NamedRule };

    ghost coded = { rule_code };

    ghost view = { λ r. r.rule };
}

impl Rule for BranchCombine {
    ghost named = { λ r. r };

    fn word(&self) -> RuleWord {
        self.rule.word()
    }

    fn left(&self) -> &Graph {
        self.rule.left()
    }

    fn right(&self) -> &Graph {
        self.rule.right()
    }
}

impl BranchCombine {
    /// The rule at a Fork and Branches of these names; new nodes have names that begin with the prefix of this number. `NoInstance` only
    /// where there is no instance: the names are not those of a Fork and at least one Branch, all different; the outputs of the Fork do
    /// not feed the second inputs of the Branches in their order, or it has not just one more; there is another wire between the nodes;
    /// the lanes have more than 128 fields together; or a new node would have the name of a node that stays. Where there is none, the
    /// answer is `NoInstance` or `NoMemory`; else the only error is `NoMemory`.
    pub fn at(
        alloc: Global,
        g: &Graph,
        prefix: u64,
        fork: &[u8],
        branches: &[Text],
    ) -> Result<BranchCombine, AtFault>
        requires { IsTyped g.now.graph }
        ensures ok { IfOk result (IsBranchCombine g.now.graph prefix true fork.now branches.now) }
        ensures refused { result ≡ Err AtFault.NoInstance → ¬ (HasBranchInstance g.now.graph prefix true fork.now branches.now) }
    {
        let rule = combined_at(alloc, g, prefix, fork, branches, true)?;
        Ok(BranchCombine { rule })
    }
}

/// The rule `branch_combine0`: as `branch_combine`, for loops that go back on condition 0.
#[derive(Debug, Drop)]
pub struct BranchCombine0 {
    rule: Combined,
}

impl Model for BranchCombine0 {
    ghost use Rattle.subst_engine.specs.Rule.{NamedRule, rule_code};

    ghost Value = { NamedRule };

    ghost coded = { rule_code };

    ghost view = { λ r. r.rule };
}

impl Rule for BranchCombine0 {
    ghost named = { λ r. r };

    fn word(&self) -> RuleWord {
        self.rule.word()
    }

    fn left(&self) -> &Graph {
        self.rule.left()
    }

    fn right(&self) -> &Graph {
        self.rule.right()
    }
}

impl BranchCombine0 {
    /// The rule at a Fork and Branches of these names, with the cases of `BranchCombine::at`.
    pub fn at(
        alloc: Global,
        g: &Graph,
        prefix: u64,
        fork: &[u8],
        branches: &[Text],
    ) -> Result<BranchCombine0, AtFault>
        requires { IsTyped g.now.graph }
        ensures ok { IfOk result (IsBranchCombine g.now.graph prefix false fork.now branches.now) }
        ensures refused { result ≡ Err AtFault.NoInstance → ¬ (HasBranchInstance g.now.graph prefix false fork.now branches.now) }
    {
        let rule = combined_at(alloc, g, prefix, fork, branches, false)?;
        Ok(BranchCombine0 { rule })
    }
}

/// The rule at a Fork and Branches of these names, for loops that go back on condition 1, or for those that go back on 0.
fn combined_at(
    alloc: Global,
    g: &Graph,
    prefix: u64,
    fork: &[u8],
    branches: &[Text],
    goes_back: bool,
) -> Result<Combined, AtFault>
    requires { IsTyped g.now.graph }
    ensures ok { IfOk result (IsBranchCombine g.now.graph prefix goes_back fork.now branches.now) }
    ensures refused { result ≡ Err AtFault.NoInstance → ¬ (HasBranchInstance g.now.graph prefix goes_back fork.now branches.now) }
{
    g.is_graph();
    let Some(fork) = node_at(g, fork) else {
        return Err(AtFault::NoInstance);
    };
    let names = listed_names(alloc, &fork.name, branches)?;
    if !are_nodes(g, names.as_slice()) {
        return Err(AtFault::NoInstance);
    }
    let Some(lanes) = lanes_at(alloc, g, branches)? else {
        return Err(AtFault::NoInstance);
    };
    if !can_combine(&lanes)? {
        return Err(AtFault::NoInstance);
    }
    let rule = combined(
        alloc,
        prefix,
        fresh_prefix(g),
        &fork.name,
        branches,
        &lanes,
        goes_back,
    )?;
    if matches(g, &rule) {
        Ok(rule)
    } else {
        Err(AtFault::NoInstance)
    }
}

/// The rule at a Fork and Branches that were read.
fn combined(
    alloc: Global,
    prefix: u64,
    ends: u64,
    fork: &Text,
    branches: &[Text],
    lanes: &Items<Shape>,
    goes_back: bool,
) -> Result<Combined, NoMemory>
    requires { CanBranchSides prefix ends fork.now branches.now lanes.now }
    ensures { IfOk result (λ rule. rule ≡ branch_combine prefix ends (fork.now ∷ branches.now) goes_back lanes.now) }
{
    branch_combine_refines();
    let word = branch_word(goes_back);
    let left = left_graph(alloc, prefix, ends, fork, branches, lanes)?;
    let right = right_graph(alloc, prefix, ends, fork, branches, lanes, goes_back)?;
    Ok(Combined { word, left, right })
}

fn branch_word(goes_back: bool) -> RuleWord
    ensures { result ≡ branch_word goes_back }
{
    if goes_back {
        RuleWord::BranchCombine
    } else {
        RuleWord::BranchCombine0
    }
}

/// The rules at different names, for any lanes whose values can be joined, meet what a rule owes.
pub fn branch_combine_is_sound()
    ensures { BranchCombineIsSound }
{
    branch_combine_refines();
}

/// Where one of the rules was made it matches.
pub fn branch_combine_matches()
    ensures { BranchCombineMatches }
{}
