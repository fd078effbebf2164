//! The rule `tag_loop`: a tagged loop comes in the place of an in-order loop.
ghost use Rattle.std.specs.Prelude.{◌≡◌, Err, IfOk};
ghost use Rattle.components.specs.NamedGraph.{IsTyped};
ghost use Rattle.tagged_loop.specs.InOrderLoop.{LoopParts};
ghost use Rattle.tagged_loop.specs.LoopFunction.{with_bit};
ghost use Rattle.loop_rule.specs.Listed.{CanMakeSides};
ghost use Rattle.loop_rule.specs.TagLoop.{HasInstance, IsTagLoop, TagLoopMatches, tag_loop};

use crate::listed::{Parts, are_listed, loop_at};
use crate::sides::{left_graph, right_graph};
use graph_core::Graph;
use port_types::{NoMemory, Text};
use std::alloc::Global;
use std::marker::Model;
use subst_engine::{AtFault, Rule, RuleWord, matches};
use tagged_loop::tagged_loop_refines;

/// The rule `tag_loop` at an in-order loop: an Init, a Mux, a Pure with a Split of what it gives into a tuple and a bit, a Fork of the
/// bit, and a Branch, wired as a loop that takes one tuple after another. In its place comes a loop in which as many tuples are under
/// way at once as there are tags; a Tagger gives their results in order.
#[derive(Debug, Drop)]
pub struct TagLoop {
    left: Graph,
    right: Graph,
}

impl Model for TagLoop {
    ghost use Rattle.subst_engine.specs.declared.word.RuleWord.TheVariants as word;
    ghost use Rattle.subst_engine.specs.Rule.{NamedRule, IsSoundRule, rule_code};

    ghost Value = { NamedRule };

    ghost coded = { rule_code };

    ghost view = { λ r. record { word = word.TagLoop; left = r.left.graph; right = r.right.graph } };

    ghost invariant = { λ r. IsSoundRule (record { word = word.TagLoop; left = r.left.graph; right = r.right.graph }) };
}

impl Rule for TagLoop {
    ghost named = { λ r. r };

    fn word(&self) -> RuleWord {
        // A proof knows the word of the value once a field is read.
        let _ = &self.left;
        RuleWord::TagLoop
    }

    fn left(&self) -> &Graph {
        &self.left
    }

    fn right(&self) -> &Graph {
        &self.right
    }
}

impl TagLoop {
    /// The rule at the nodes of these names, in the order Init, Mux, Pure, Split, Fork, Branch, with so many tags; new nodes have names
    /// that begin with the prefix of this number. `NoInstance` only where there is no instance: there are not 1 to 256 tags or not six
    /// different names, the nodes make no in-order loop with exactly its wires between them, or a new node would have the name of a node
    /// that stays. Where there is none, the answer is `NoInstance` or `NoMemory`; else the only error is `NoMemory`.
    pub fn at(
        alloc: Global,
        g: &Graph,
        prefix: u64,
        tags: u16,
        nodes: &[Text],
    ) -> Result<TagLoop, AtFault>
        requires { IsTyped g.now.graph }
        ensures ok { IfOk result (IsTagLoop g.now.graph prefix tags nodes.now) }
        ensures refused { result ≡ Err AtFault.NoInstance → ¬ (HasInstance g.now.graph prefix tags nodes.now) }
    {
        g.is_graph();
        if !are_listed(g, tags, nodes) {
            return Err(AtFault::NoInstance);
        }
        let Some(parts) = loop_at(g, nodes) else {
            return Err(AtFault::NoInstance);
        };
        let rule = TagLoop::of(alloc, prefix, tags, nodes, parts)?;
        if matches(g, &rule) {
            Ok(rule)
        } else {
            Err(AtFault::NoInstance)
        }
    }

    /// The rule at a loop of these parts.
    fn of(
        alloc: Global,
        prefix: u64,
        tags: u16,
        names: &[Text],
        parts: Parts<'_>,
    ) -> Result<TagLoop, NoMemory>
        requires can { CanMakeSides prefix tags names.now (record { shape = parts.shape.now; fun = parts.fun.now; goes_back = parts.goes_back; mark = parts.mark }) }
        requires output { parts.output.now ≡ with_bit parts.shape.now }
        ensures { IfOk result (λ rule. rule ≡ tag_loop prefix tags names.now (record { shape = parts.entry.shape.now; fun = parts.entry.fun.now; goes_back = parts.entry.goes_back; mark = parts.entry.mark })) }
    {
        tagged_loop_refines();
        let left = left_graph(alloc, names, parts)?;
        let right = right_graph(alloc, prefix, tags, names, parts)?;
        Ok(TagLoop { left, right })
    }
}

/// Where a rule `tag_loop` was made it matches.
pub fn tag_loop_matches()
    ensures { TagLoopMatches }
{}
