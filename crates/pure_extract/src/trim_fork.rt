//! The rule `trim_fork`: an output of a Fork that feeds a Sink is left out.
ghost use Rattle.std.specs.Prelude.{◌≡◌, ◌≢◌, ◌≤◌, ℕ, suc, Err, Some, true, false, IfOk, MatchOption, replicate};
ghost use Rattle.std.specs.FinMap as finite;
ghost use Rattle.components.specs.declared.kind.Kind.TheVariants.{Fork, Sink0};
ghost use Rattle.components.specs.Kind.{Shape};
ghost use Rattle.components.specs.NamedGraph.{IsTyped};
ghost use Rattle.circuits.specs.Buffers.{first_port};
ghost use Rattle.circuit_plans.specs.Places.{number};
ghost use Rattle.lane_laws.specs.TrimFork.{Output};
ghost use Rattle.pure_extract.specs.TrimFork.{HasTrimInstance, IsTrimFork, TrimForkIsSound, TrimForkMatches, trim_fork};
ghost use Rattle.pure_extract.specs.TrimForkSides.{CanTrimSides, ReadsTrim};

use crate::trim_fork_sides::{Sunk, left_graph, right_graph};
use components::Kind;
use drawn_rules::node_at;
use graph_core::{Graph, PortAt};
use lane_laws::trim_fork_refines;
use port_types::{NoMemory, Shape};
use std::alloc::Global;
use std::marker::Model;
use subst_engine::{AtFault, Rule, RuleWord, fresh_prefix, matches};

/// The rule `trim_fork` at a Fork and a Sink that one of its outputs feeds. In their place comes a Fork of the other outputs.
#[derive(Debug, Drop)]
pub struct TrimFork {
    left: Graph,
    right: Graph,
}

impl Model for TrimFork {
    ghost use Rattle.subst_engine.specs.declared.word.RuleWord.TheVariants as word;
    ghost use Rattle.subst_engine.specs.Rule.{NamedRule, IsSoundRule, rule_code};

    ghost Value = { NamedRule };

    ghost coded = { rule_code };

    ghost view = { λ r. record { word = word.TrimFork; left = r.left.graph; right = r.right.graph } };

    ghost invariant = { λ r. IsSoundRule (record { word = word.TrimFork; left = r.left.graph; right = r.right.graph }) };
}

impl Rule for TrimFork {
    ghost named = { λ r. r };

    fn word(&self) -> RuleWord {
        // A proof knows the word of the value once a field is read.
        let _ = &self.left;
        RuleWord::TrimFork
    }

    fn left(&self) -> &Graph {
        &self.left
    }

    fn right(&self) -> &Graph {
        &self.right
    }
}

impl TrimFork {
    /// The rule at the Fork and the Sink of these names; the new Fork has a name that begins with the prefix of this number.
    /// `NoInstance` only where there is no instance: the names are not those of a Fork of at least two outputs and a Sink that one of
    /// them feeds, another output feeds the Fork itself, or the new Fork would have the name of a node that stays. Where there is none,
    /// the answer is `NoInstance` or `NoMemory`; else the only error is `NoMemory`.
    pub fn at(
        alloc: Global,
        g: &Graph,
        prefix: u64,
        fork: &[u8],
        sink: &[u8],
    ) -> Result<TrimFork, AtFault>
        requires { IsTyped g.now.graph }
        ensures ok { IfOk result (IsTrimFork g.now.graph prefix fork.now sink.now) }
        ensures refused { result ≡ Err AtFault.NoInstance → ¬ (HasTrimInstance g.now.graph prefix fork.now sink.now) }
    {
        g.is_graph();
        let Some(sunk) = sunk_fork(g, fork, sink) else {
            return Err(AtFault::NoInstance);
        };
        let rule = TrimFork::of(alloc, prefix, fresh_prefix(g), sunk)?;
        if matches(g, &rule) {
            Ok(rule)
        } else {
            Err(AtFault::NoInstance)
        }
    }

    /// The rule at a Fork and a Sink that were read.
    fn of(alloc: Global, prefix: u64, ends: u64, sunk: Sunk<'_>) -> Result<TrimFork, NoMemory>
        requires { CanTrimSides prefix ends sunk.fork.now sunk.sink.now sunk.shape.now sunk.others sunk.port }
        ensures { IfOk result (λ rule. (output : Output sunk.entry.shape.now (suc sunk.entry.others)) →
            number (replicate (suc sunk.entry.others) sunk.entry.shape.now) output ≡ sunk.entry.port →
            rule ≡ trim_fork prefix ends sunk.entry.fork.now sunk.entry.sink.now sunk.entry.shape.now sunk.entry.others output) }
    {
        trim_fork_refines();
        let left = left_graph(alloc, prefix, ends, sunk)?;
        let right = right_graph(alloc, prefix, ends, sunk)?;
        Ok(TrimFork { left, right })
    }
}

/// The rule `trim_fork` at two different names, for any shape and number of outputs, meets what a rule owes.
pub fn trim_fork_is_sound()
    ensures { TrimForkIsSound }
{
    trim_fork_refines();
}

/// Where a rule `trim_fork` was made it matches.
pub fn trim_fork_matches()
    ensures { TrimForkMatches }
{}

/// The Fork and the Sink of these names, where an output of the one feeds the other.
fn sunk_fork<'a>(g: &'a Graph, fork: &[u8], sink: &[u8]) -> Option<Sunk<'a>>
    ensures { MatchOption result
        ((a : Shape) (others port : ℕ) → ¬ (ReadsTrim g.now.graph fork.now sink.now a others port))
        (λ sunk. ReadsTrim g.now.graph fork.now sink.now sunk.shape.now sunk.others sunk.port × (sunk.fork.now ≡ fork.now) × (sunk.sink.now ≡ sink.now)) }
{
    let port = output_into(g, fork, sink)?;
    let fork = node_at(g, fork)?;
    let sink = node_at(g, sink)?;
    let (shape, others) = outputs_but_one(&fork.kind)?;
    if !is_sink(&sink.kind) {
        return None;
    }
    Some(Sunk {
        fork: &fork.name,
        sink: &sink.name,
        shape,
        others,
        port,
    })
}

/// The shape of a Fork of at least two outputs, and how many others it has beside one.
fn outputs_but_one(kind: &Kind) -> Option<(&Shape, u8)>
    ensures { MatchOption result
        ((a : Shape) (others : ℕ) → kind.now ≡ Fork a (suc others) → ¬ (1 ≤ others))
        (λ found. (kind.now ≡ Fork found.0.now (suc found.1)) × (1 ≤ found.1)) }
{
    match kind {
        Kind::Fork(shape, count) if *count >= 2 => Some((shape, *count - 1)),
        _ => None,
    }
}

fn is_sink(kind: &Kind) -> bool
    ensures yes { result ≡ true → (a : Shape) × (kind.now ≡ Sink0 a) }
    ensures no { result ≡ false → (a : Shape) → kind.now ≢ Sink0 a }
{
    match kind {
        Kind::Sink0(_) => true,
        _ => false,
    }
}

/// The number of the output of the first node that feeds the first input of the second.
fn output_into(g: &Graph, from: &[u8], to: &[u8]) -> Option<u8>
    ensures { MatchOption result
        ((port : ℕ) → finite.get g.now.graph.feeders (first_port to.now) ≢ Some (record { node = from.now; port = port }))
        (λ port. finite.get g.now.graph.feeders (first_port to.now) ≡ Some (record { node = from.now; port = port })) }
{
    g.is_graph();
    let Some(to) = g.find(to) else {
        return None;
    };
    let Some(from) = g.find(from) else {
        return None;
    };
    let Some(source) = g.wire_into(PortAt { node: to, port: 1 }) else {
        return None;
    };
    if source.node == from {
        Some(source.port)
    } else {
        None
    }
}
