//! The rule `gather`: one Pure in the place of the body of a loop.
ghost use Rattle.std.specs.Prelude.{◌≡◌, IfOk, MatchOption};
ghost use Rattle.drawn_rules.specs.Labels.{AreFree};
ghost use Rattle.gather_rule.specs.Gather.{gather, listed_names, CanGather};
ghost use Rattle.gather_rule.specs.GatherSides.{CanMakeSides};

use crate::lanes::{can_gather, lanes_of};
use crate::laws::gather_is_sound;
use crate::sides::{left_graph, right_graph};
use graph_core::Graph;
use loop_body::Body;
use port_types::{Items, NoMemory, Shape, Text};
use std::alloc::Global;
use std::marker::Model;
use subst_engine::{Rule, RuleWord};

/// The rule `gather` at a Split and the nodes of a body behind it. In their place comes one Pure with the function of the body, with two
/// Splits and a Fork behind it for the data wires and the condition wires.
#[derive(Debug, Drop)]
pub struct Gather {
    body: Body,
    left: Graph,
    right: Graph,
}

impl Model for Gather {
    ghost use Rattle.subst_engine.specs.declared.word.RuleWord.TheVariants as words;
    ghost use Rattle.subst_engine.specs.Rule.{IsSoundRule};
    ghost use Rattle.gather_rule.specs.BodyRule.{BodyRule, body_rule_code};

    ghost Value = { BodyRule };

    ghost coded = { body_rule_code };

    ghost view = { λ r. record { rule = record { word = words.Gather; left = r.left.graph; right = r.right.graph }; body = r.body } };

    ghost invariant = { λ r. IsSoundRule (record { word = words.Gather; left = r.left.graph; right = r.right.graph }) };
}

impl Rule for Gather {
    ghost named = { λ r. r.rule };

    fn word(&self) -> RuleWord {
        // A proof knows the word of the value once a field is read.
        let _ = &self.left;
        RuleWord::Gather
    }

    fn left(&self) -> &Graph {
        &self.left
    }

    fn right(&self) -> &Graph {
        &self.right
    }
}

impl Gather {
    /// The rule at a Split of this name and the nodes of this body, whatever graph they stand in. New nodes have names that begin with the
    /// prefix of the number `prefix`, and Entries and Exits those with the prefix of the number `ends`. `None` exactly where the Pure of
    /// the body, or a node behind it, is not within the limits of ports and fields. The only error is want of memory.
    pub fn of(
        alloc: Global,
        prefix: u64,
        ends: u64,
        split: &Text,
        body: Body,
    ) -> Result<Option<Gather>, NoMemory>
        requires { AreFree prefix ends (listed_names split.now body) }
        ensures { IfOk result (λ found. MatchOption found (¬ (CanGather body)) (λ made. (made ≡ record { rule = gather prefix ends split.now body; body = body }) × CanGather body)) }
    {
        let Some(lanes) = lanes_of(alloc, &body)? else {
            return Ok(None);
        };
        if !can_gather(alloc, &lanes)? {
            return Ok(None);
        }
        Ok(Some(with_lanes(alloc, prefix, ends, split, body, &lanes)?))
    }

    /// The body that the rule takes the place of.
    pub fn body(&self) -> &Body
        ensures { result.now ≡ self.now.body }
    {
        &self.body
    }
}

/// The rule at a body whose data wires have these shapes.
fn with_lanes(
    alloc: Global,
    prefix: u64,
    ends: u64,
    split: &Text,
    body: Body,
    lanes: &Items<Shape>,
) -> Result<Gather, NoMemory>
    requires { CanMakeSides prefix ends split.now body lanes.now }
    ensures { IfOk result (λ made. made ≡ record { rule = gather prefix ends split.now body; body = body }) }
{
    gather_is_sound();
    let left = left_graph(alloc, prefix, ends, split, &body, lanes)?;
    let right = right_graph(alloc, prefix, ends, split, &body, lanes)?;
    Ok(Gather { body, left, right })
}
