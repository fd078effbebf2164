//! The rule `split_join`: a Split whose outputs are joined again in their order gives way to a wire.
ghost use Rattle.std.specs.Prelude.{◌≡◌, ◌≢◌, ℕ, List, Err, Some, true, false, IfOk, MatchOption};
ghost use Rattle.std.specs.Option.{option_copied};
ghost use Rattle.components.specs.declared.kind.Kind.TheVariants.{Join, Split};
ghost use Rattle.components.specs.Kind.{Shape};
ghost use Rattle.components.specs.NamedGraph.{IsTyped};
ghost use Rattle.pure_extract.specs.SplitJoin.{CanSplitJoin, IsSplitJoin, SplitJoinIsSound, SplitJoinMatches, split_join};
ghost use Rattle.pure_extract.specs.SplitJoinSides.{CanSplitSides, ReadsSplit};

use crate::split_join_sides::{SplitAndJoin, left_graph, right_graph};
use components::Kind;
use drawn_rules::node_at;
use graph_core::Graph;
use lane_laws::split_join_refines;
use port_types::{Items, NoMemory, Shape};
use std::alloc::Global;
use std::marker::Model;
use subst_engine::{AtFault, Rule, RuleWord, matches};

/// The rule `split_join` at a Split and a Join of its outputs in their order. In their place comes a wire from what fed the one to what
/// the other fed.
#[derive(Debug, Drop)]
pub struct SplitJoin {
    left: Graph,
    right: Graph,
}

impl Model for SplitJoin {
    ghost use Rattle.subst_engine.specs.declared.word.RuleWord.TheVariants as word;
    ghost use Rattle.subst_engine.specs.Rule.{NamedRule, IsSoundRule, rule_code};

    ghost Value = { NamedRule };

    ghost coded = { rule_code };

    ghost view = { λ r. record { word = word.SplitJoin; left = r.left.graph; right = r.right.graph } };

    ghost invariant = { λ r. IsSoundRule (record { word = word.SplitJoin; left = r.left.graph; right = r.right.graph }) };
}

impl Rule for SplitJoin {
    ghost named = { λ r. r };

    fn word(&self) -> RuleWord {
        // A proof knows the word of the value once a field is read.
        let _ = &self.left;
        RuleWord::SplitJoin
    }

    fn left(&self) -> &Graph {
        &self.left
    }

    fn right(&self) -> &Graph {
        &self.right
    }
}

impl SplitJoin {
    /// The rule at the Split and the Join of these names. It names no new node, so it reads no prefix. `NoInstance` only where there is
    /// no instance: the names are not those of a Split and a Join, an output of the Split does not feed the input of the same number of
    /// the Join, the Join has more inputs, or it feeds the Split. Where there is none, the answer is `NoInstance` or `NoMemory`; else
    /// the only error is `NoMemory`.
    pub fn at(
        alloc: Global,
        g: &Graph,
        _prefix: u64,
        split: &[u8],
        join: &[u8],
    ) -> Result<SplitJoin, AtFault>
        requires { IsTyped g.now.graph }
        ensures ok { IfOk result (IsSplitJoin g.now.graph split.now join.now) }
        ensures refused { result ≡ Err AtFault.NoInstance → ¬ (CanSplitJoin g.now.graph split.now join.now) }
    {
        g.is_graph();
        let Some(found) = split_and_join(g, split, join) else {
            return Err(AtFault::NoInstance);
        };
        let rule = SplitJoin::of(alloc, found)?;
        if matches(g, &rule) {
            Ok(rule)
        } else {
            Err(AtFault::NoInstance)
        }
    }

    /// The rule at a Split and a Join that were read.
    fn of(alloc: Global, found: SplitAndJoin<'_>) -> Result<SplitJoin, NoMemory>
        requires { CanSplitSides found.split.now found.join.now found.parts.now }
        ensures { IfOk result (λ rule. rule ≡ split_join found.entry.split.now found.entry.join.now found.entry.parts.now) }
    {
        split_join_refines();
        let left = left_graph(alloc, found)?;
        let right = right_graph(alloc, found)?;
        Ok(SplitJoin { left, right })
    }
}

/// The rule `split_join` at two different names, for any list of shapes that a node may split into, meets what a rule owes.
pub fn split_join_is_sound()
    ensures { SplitJoinIsSound }
{
    split_join_refines();
}

/// Where a rule `split_join` was made it matches.
pub fn split_join_matches()
    ensures { SplitJoinMatches }
{}

/// The Split and the Join of these names, with the shapes of the outputs of the one.
fn split_and_join<'a>(g: &'a Graph, split: &[u8], join: &[u8]) -> Option<SplitAndJoin<'a>>
    ensures { MatchOption result
        ((parts : List Shape) → ¬ (ReadsSplit g.now.graph split.now join.now parts))
        (λ found. ReadsSplit g.now.graph split.now join.now found.parts.now × (found.split.now ≡ split.now) × (found.join.now ≡ join.now)) }
{
    let split = node_at(g, split)?;
    let join = node_at(g, join)?;
    let parts = split_parts(&split.kind)?;
    if !is_join(&join.kind) {
        return None;
    }
    Some(SplitAndJoin {
        split: &split.name,
        join: &join.name,
        parts,
    })
}

fn split_parts(kind: &Kind) -> Option<&Items<Shape>>
    ensures { MatchOption (option_copied result) ((parts : List Shape) → kind.now ≢ Split parts) (λ parts. kind.now ≡ Split parts) }
{
    match kind {
        Kind::Split(parts) => Some(parts),
        _ => None,
    }
}

fn is_join(kind: &Kind) -> bool
    ensures yes { result ≡ true → (parts : List Shape) × (kind.now ≡ Join parts) }
    ensures no { result ≡ false → (parts : List Shape) → kind.now ≢ Join parts }
{
    match kind {
        Kind::Join(_) => true,
        _ => false,
    }
}
